//! The command of plain Jam mode.
ghost use Rattle.std.specs.Prelude.{◌≡◌, ◌≤◌, [], None};
ghost use Rattle.b2_top.specs.Endings.{IsUsageOrCutShort, IfRefused};
ghost use Rattle.b2_host.specs.OutsideLaws.{Keeps};
ghost use Rattle.b2_host.specs.OutputLaws.{OutKeeps};
ghost use Rattle.b2_runs.specs.UpdateAnswers.{LeavesNone};
ghost use Rattle.b2_update.specs.Moments.{moment};
ghost use Rattle.b2_top.specs.Askings.{of_file, jam_of, IsWholeFor};
ghost use Rattle.b2_top.specs.Running.{CallsFor};
ghost use Rattle.b2_top.specs.Answered.{CleanFor, WhatHappened, CountsTold, UsageTold, StartsNone, CompleteFor, ReportFor};
ghost use Rattle.b2_top.specs.Answered.{TurnsFor, LeftOpenTold, TrueLogFor, IsAnsweredFor};
ghost use Rattle.b2_top.specs.Answered.{IsOfEnd, HoldsAfter, AreFresh, AreKept};

use crate::answer::Answer;
use crate::build::{options_of, run_plan};
use crate::jam_command::{JamCommand, jam_command};
use crate::tell::{tell_jam_fault, tell_usage};
use b2_base::text::Text;
use b2_command_line::fault::WordsFault;
use b2_host::children::Children;
use b2_host::sink::Sink;
use jam_prepare::laws::one_meaning;
use jam_prepare::prepare::{JamPrepared, prepare_jam};
use std::alloc::Global;
use std::mem::forget;

/// Builds targets of a Jam file, or tells why there is no plan.
fn build_file<H: Children, S: Sink>(
    alloc: Global,
    asked: &JamCommand,
    host: &mut H,
    out: &mut S,
) -> Answer
    requires idle { (H.outside host.old).children.running ≡ [] }
    requires some_job { 1 ≤ asked.now.command.options.jobs }
    ensures calls { CallsFor H.made (of_file asked.now.file asked.now.command) (moment (H.outside host.old) (S.output out.old))
        (moment (H.outside host.new) (S.output out.new)) result }
    ensures none_left { LeavesNone (H.outside host.old) (H.outside host.new) }
    ensures keeps { Keeps (H.outside host.old) (H.outside host.new) }
{
    one_meaning();
    let options = options_of(asked.command.options);
    let JamPrepared { echoes, result } = prepare_jam(
        alloc,
        &asked.file,
        asked.command.words.as_slice(),
        host,
    );
    match result {
        Ok(plan) => {
            let answer = run_plan(alloc, echoes.as_slice(), &plan, &[], options, host, out);
            // The plan ends with the program, and is not taken apart.
            forget(plan);
            answer
        }
        Err(fault) => tell_jam_fault(alloc, echoes.as_slice(), fault, out),
    }
}

/// Reads the words, and builds what they ask for.
fn read_and_build<H: Children, S: Sink>(
    alloc: Global,
    words: &[Text],
    host: &mut H,
    out: &mut S,
) -> Answer
    requires { (H.outside host.old).children.running ≡ [] }
    ensures calls { CallsFor H.made (jam_of words.now) (moment (H.outside host.old) (S.output out.old))
        (moment (H.outside host.new) (S.output out.new)) result }
    ensures none_left { LeavesNone (H.outside host.old) (H.outside host.new) }
    ensures keeps { Keeps (H.outside host.old) (H.outside host.new) }
{
    match jam_command(alloc, words) {
        Ok(asked) => build_file(alloc, &asked, host, out),
        Err(WordsFault::Usage) => tell_usage(out),
        Err(WordsFault::OutOfMemory) => Answer::OutOfMemory,
    }
}

/// Builds what the words ask for, of which all that is promised follows.
fn answer<H: Children, S: Sink>(alloc: Global, words: &[Text], host: &mut H, out: &mut S) -> Answer
    requires { (H.outside host.old).children.running ≡ [] }
    ensures answered { IsAnsweredFor H.made (jam_of words.now) (moment (H.outside host.old) (S.output out.old))
        (moment (H.outside host.new) (S.output out.new)) result }
    ensures none_left { LeavesNone (H.outside host.old) (H.outside host.new) }
    ensures keeps { Keeps (H.outside host.old) (H.outside host.new) }
{
    one_meaning();
    read_and_build(alloc, words, host, out)
}

/// Builds targets of one Jam file, whose rules declare the graph: `-f FILE`, then the words of a build, of which those that are no
/// options are targets of the graph. Without targets `all` is built. The lines of ECHO are written, and the plan is updated as that
/// of a project is.
///
/// Each clause is the one of `run_b2`, of what a Jam file and targets come to in place of a project and a request.
pub fn run_jam<H: Children, S: Sink>(
    alloc: Global,
    words: &[Text],
    host: &mut H,
    out: &mut S,
) -> Answer
    requires idle { (H.outside host.old).children.running ≡ [] }

    // After Ok each wanted file has the bytes of the clean build of the sources at entry, where the lines of the log that the
    // update uses are true, and digests tell contents apart where it compares them.
    ensures clean { result ≡ Answer.Ok → CleanFor H.made (jam_of words.now) (H.outside host.old) (H.outside host.new) }
    // What happened, by the answer: an update that has ended with it, nothing, or one of both, where a fault cut the
    // call off.
    ensures happened { WhatHappened H.made (jam_of words.now) (H.outside host.old) (H.outside host.new) result }
    // Ok, Failed, Refused and Usage come only where both counts of faults are as at entry. A fault comes only where its
    // count rose, and one of the sink only where a write may fail.
    ensures counts { CountsTold (moment (H.outside host.old) (S.output out.old))
        (moment (H.outside host.new) (S.output out.new)) result }
    // Words that are not of plain Jam mode ask for the usage line, and nothing else does. All that the host is to its callers
    // stays as it is.
    ensures usage { (jam_of words.now).command ≡ None → IsUsageOrCutShort result }
    ensures alone { (jam_of words.now).command ≡ None → H.outside host.new ≡ H.outside host.old }
    ensures no_usage { result ≡ Answer.Usage → (jam_of words.now).command ≡ None }
    // With the answer Usage exactly the usage line was written, over every host and sink.
    ensures usage_told { UsageTold (moment (H.outside host.old) (S.output out.old))
        (moment (H.outside host.new) (S.output out.new)) result }
    // A call that is refused for another reason than a step cycle, or a file that is too big for the update, has
    // started nothing and changed no file.
    ensures starts_none { StartsNone result (H.outside host.old) (H.outside host.new) }
    // No fault of the host and no out of memory is within a refusal, which is none of a project.
    ensures whole { IfRefused (λ fault. IsWholeFor fault (jam_of words.now).source) result }
    // Where there is a plan whose clean build is defined, no file of it is too big, and no child ends badly, the answer
    // is Ok. Or the call was cut short, or a pattern of the file's own text was refused though it reads as one.
    ensures complete { CompleteFor H.made (jam_of words.now) (H.outside host.old) (H.outside host.new) result }
    // What was written is the report; each refusal has its cause.
    ensures reported { ReportFor H.made (jam_of words.now) (moment (H.outside host.old) (S.output out.old))
        (moment (H.outside host.new) (S.output out.new)) result }
    // The events are in order, over every host: at most so many steps are open at a time as the words ask for, and none
    // starts twice. Each failed step was done badly, or left an output out; with Ok none did so.
    ensures turns { TurnsFor (jam_of words.now).command (H.outside host.old) (H.outside host.new) result }
    // What runs afterwards are the children of the steps that were left open.
    ensures left_open { LeftOpenTold (H.outside host.old) (H.outside host.new) }
    // No child is left, but for one for each wait that failed. A wait fails only where one may, and then both counts of
    // the host rise.
    ensures none_left { LeavesNone (H.outside host.old) (H.outside host.new) }
    // A true log stays true, whatever the answer, where digests tell contents apart if judging is by digests.
    ensures true_log { TrueLogFor H.made (jam_of words.now).command (H.outside host.old) (H.outside host.new) }
    // After Ok, Failed or a step cycle, each step of which an output was settled is fresh to the next update of this plan, but for
    // those that an always-step or a notfile step reaches. This and the next clause hold under the premises of the
    // headline, where the log that is left is within its limit. The next call has this plan where the file, and what it sees of the
    // folder, are still the same; they may be outputs.
    ensures afterwards { IsOfEnd result
        → HoldsAfter H.made (jam_of words.now) (H.outside host.old) (H.outside host.new) AreFresh }
    // Whatever the answer, of each step that owes files and was done well before the last start the log has a record
    // that agrees with them.
    ensures kept { HoldsAfter H.made (jam_of words.now) (H.outside host.old) (H.outside host.new) AreKept }
    // No count falls, what may go wrong stays, visible files stay visible, and all that stood stays among the past.
    ensures keeps { Keeps (H.outside host.old) (H.outside host.new) }
    ensures out_keeps { OutKeeps (S.output out.old) (S.output out.new) }
{
    answer(alloc, words, host, out)
}
