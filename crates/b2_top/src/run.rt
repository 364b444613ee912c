//! The build command.
ghost use Rattle.std.specs.Prelude.{◌≡◌, [], None};
ghost use Rattle.b2_top.specs.Endings.{IsUsageOrCutShort, IfRefused};
ghost use Rattle.b2_host.specs.OutsideLaws.{Keeps};
ghost use Rattle.b2_host.specs.OutputLaws.{OutKeeps};
ghost use Rattle.b2_top.specs.Askings.{IsProjectRefusal};
ghost use Rattle.b2_runs.specs.UpdateAnswers.{LeavesNone};
ghost use Rattle.b2_update.specs.Moments.{moment};
ghost use Rattle.b2_top.specs.Commands.{build_command};
ghost use Rattle.b2_top.specs.Running.{Calls};
ghost use Rattle.b2_top.specs.Answered.{CleanTold, HappenedTold, CountsTold, UsageTold, StartsNone, CompleteTold, ReportTold};
ghost use Rattle.b2_top.specs.Answered.{TurnsTold, LeftOpenTold, TrueLogTold, IsAnswered};
ghost use Rattle.b2_top.specs.Answered.{IsOfEnd, HoldsAfterwards, AreFresh, AreKept};

use crate::answer::Answer;
use crate::build::build;
use crate::build_command::build_command;
use crate::tell::tell_usage;
use b2_base::text::Text;
use b2_command_line::fault::WordsFault;
use b2_host::children::Children;
use b2_host::sink::Sink;
use b2_prepare::laws::one_meaning;
use std::alloc::Global;

/// Reads the words, and builds what they ask for.
fn read_and_build<H: Children, S: Sink>(
    alloc: Global,
    words: &[Text],
    host: &mut H,
    out: &mut S,
) -> Answer
    requires { (H.outside host.old).children.running ≡ [] }
    ensures calls { Calls H.made words.now (moment (H.outside host.old) (S.output out.old))
        (moment (H.outside host.new) (S.output out.new)) result }
    ensures none_left { LeavesNone (H.outside host.old) (H.outside host.new) }
    ensures keeps { Keeps (H.outside host.old) (H.outside host.new) }
{
    match build_command(alloc, words) {
        Ok(command) => build(alloc, &command, host, out),
        Err(WordsFault::Usage) => tell_usage(out),
        Err(WordsFault::OutOfMemory) => Answer::OutOfMemory,
    }
}

/// Builds what the words ask for, of which all that is promised follows.
fn answer<H: Children, S: Sink>(alloc: Global, words: &[Text], host: &mut H, out: &mut S) -> Answer
    requires { (H.outside host.old).children.running ≡ [] }
    ensures answered { IsAnswered H.made words.now (moment (H.outside host.old) (S.output out.old))
        (moment (H.outside host.new) (S.output out.new)) result }
    ensures none_left { LeavesNone (H.outside host.old) (H.outside host.new) }
    ensures keeps { Keeps (H.outside host.old) (H.outside host.new) }
{
    one_meaning();
    read_and_build(alloc, words, host, out)
}

/// Builds what the words ask for in the project that its files describe. The projects are loaded, the request is read
/// and planned, the lines of ECHO are written, and the needed steps that are stale run, inputs before outputs: with
/// `-jN` up to N at a time. With `-a` all that is needed runs, with `-q` nothing starts after a failure, and with
/// `--by=digest` judging is by digests. Where the update came to its end, the lines of tests end its report. Words that
/// are no build are answered by the usage line. Such words are those of a look, an explanation, cleaning and a drill
/// too.
pub fn run_b2<H: Children, S: Sink>(
    alloc: Global,
    words: &[Text],
    host: &mut H,
    out: &mut S,
) -> Answer
    requires idle { (H.outside host.old).children.running ≡ [] }

    // The headline: after Ok each wanted file has the bytes of the clean build of the sources at entry, where the lines
    // of the log that the update uses are true, and digests tell contents apart where it compares them.
    ensures clean { result ≡ Answer.Ok → CleanTold H.made words.now (H.outside host.old) (H.outside host.new) }
    // What happened, by the answer: an update that has ended with it, nothing, or one of both, where a fault cut the
    // call off.
    ensures happened { HappenedTold H.made words.now (H.outside host.old) (H.outside host.new) result }
    // Ok, Failed, Refused and Usage come only where both counts of faults are as at entry. A fault comes only where its
    // count rose, and one of the sink only where a write may fail.
    ensures counts { CountsTold (moment (H.outside host.old) (S.output out.old))
        (moment (H.outside host.new) (S.output out.new)) result }
    // Words that are no build ask for the usage line, and nothing else does. All that the host is to its callers stays
    // as it is.
    ensures usage { build_command words.now ≡ None → IsUsageOrCutShort result }
    ensures alone { build_command words.now ≡ None → H.outside host.new ≡ H.outside host.old }
    ensures no_usage { result ≡ Answer.Usage → build_command words.now ≡ None }
    // With the answer Usage exactly the usage line was written, over every host and sink.
    ensures usage_told { UsageTold (moment (H.outside host.old) (S.output out.old))
        (moment (H.outside host.new) (S.output out.new)) result }
    // A call that is refused for another reason than a step cycle, or a file that is too big for the update, has
    // started nothing and changed no file.
    ensures starts_none { StartsNone result (H.outside host.old) (H.outside host.new) }
    // No fault of the host and no out of memory is within a refusal.
    ensures whole { IfRefused IsProjectRefusal result }
    // Where there is a plan whose clean build is defined, no file of it is too big, and no child ends badly, the answer
    // is Ok. Or the call was cut short, or a pattern of the project's own text was refused though it reads as one.
    ensures complete { CompleteTold H.made words.now (H.outside host.old) (H.outside host.new) result }
    // What was written is the report; each refusal has its cause.
    ensures reported { ReportTold H.made words.now (moment (H.outside host.old) (S.output out.old))
        (moment (H.outside host.new) (S.output out.new)) result }
    // The events are in order, over every host: at most so many steps are open at a time as the words ask for, and none
    // starts twice. Each failed step was done badly, or left an output out; with Ok none did so.
    ensures turns { TurnsTold words.now (H.outside host.old) (H.outside host.new) result }
    // What runs afterwards are the children of the steps that were left open.
    ensures left_open { LeftOpenTold (H.outside host.old) (H.outside host.new) }
    // No child is left, but for one for each wait that failed. A wait fails only where one may, and then both counts of
    // the host rise.
    ensures none_left { LeavesNone (H.outside host.old) (H.outside host.new) }
    // A true log stays true, whatever the answer, where digests tell contents apart if judging is by digests.
    ensures true_log { TrueLogTold H.made words.now (H.outside host.old) (H.outside host.new) }
    // After Ok, Failed or a step cycle, each step of which an output was settled is fresh to the next update, but for
    // those that an always-step or a notfile step reaches. This and the next clause hold under the premises of the
    // headline, where the log that is left is within its limit.
    ensures afterwards { IsOfEnd result
        → HoldsAfterwards H.made words.now (H.outside host.old) (H.outside host.new) AreFresh }
    // Whatever the answer, of each step that owes files and was done well before the last start the log has a record
    // that agrees with them.
    ensures kept { HoldsAfterwards H.made words.now (H.outside host.old) (H.outside host.new) AreKept }
    // No count falls, what may go wrong stays, visible files stay visible, and all that stood stays among the past.
    ensures keeps { Keeps (H.outside host.old) (H.outside host.new) }
    ensures out_keeps { OutKeeps (S.output out.old) (S.output out.new) }
{
    answer(alloc, words, host, out)
}
