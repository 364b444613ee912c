//! The clean command.
ghost use Rattle.std.specs.Prelude.{◌≡◌, None, ℕ};
ghost use Rattle.b2_host.specs.OutsideLaws.{Keeps};
ghost use Rattle.b2_host.specs.OutputLaws.{OutKeeps};
ghost use Rattle.b2_plan.specs.Plans.{Apart};
ghost use Rattle.b2_top.specs.Askings.{IsProjectRefusal};
ghost use Rattle.b2_update.specs.Moments.{moment};
ghost use Rattle.b2_top.specs.Endings.{IsUsageOrCutShort, IfRefused};
ghost use Rattle.b2_top.specs.Asked.{clean_words};
ghost use Rattle.b2_top.specs.Shows.{CountsTold, UsageTold, IsOfLook};
ghost use Rattle.b2_top.specs.Cleans.{TellsCleaned, CleansPlan, CleanedTold, LeavesTold, ReportTold, CauseTold, CompleteTold, StaysUnlessCleaned, Cleans, IsAnswered};

use crate::answer::Answer;
use crate::asked::clean_words;
use crate::lines::{write_echoes, write_made};
use crate::tell::{tell_host_fault, tell_stop, tell_usage, unwritten};
use b2_base::text::Text;
use b2_command_line::fault::WordsFault;
use b2_explain::clean::clean_plan;
use b2_explain::fault::CleanFault;
use b2_explain::lines::removed_count_line;
use b2_host::files::Files;
use b2_host::sink::Sink;
use b2_plan::plan::Plan;
use b2_prepare::laws::one_meaning;
use b2_prepare::prepare::{Preparation, prepare};
use std::alloc::Global;

/// Tells what cleaning came to.
fn tell_cleaned<S: Sink>(alloc: Global, cleaned: Result<usize, CleanFault>, out: &mut S) -> Answer
    ensures { TellsCleaned cleaned (S.output out.old) (S.output out.new) result }
{
    match cleaned {
        Ok(count) => match write_made(removed_count_line(alloc, count), out) {
            Ok(()) => Answer::Ok,
            Err(fault) => unwritten(fault),
        },
        Err(CleanFault::Host) => tell_host_fault(alloc, &[], out),
        Err(CleanFault::Sink) => Answer::SinkFault,
        Err(CleanFault::OutOfMemory) => Answer::OutOfMemory,
    }
}

/// Writes the lines of ECHO, and cleans the plan.
fn clean_steps<H: Files, S: Sink>(
    alloc: Global,
    echoes: &[Text],
    plan: &Plan,
    host: &mut H,
    out: &mut S,
) -> Answer
    requires apart { Apart plan.now.steps plan.now.roots }
    ensures { CleansPlan echoes.now plan.now (moment (H.outside host.old) (S.output out.old))
        (moment (H.outside host.new) (S.output out.new)) result }
{
    match write_echoes(alloc, echoes, out) {
        Ok(()) => {
            let cleaned = clean_plan(alloc, plan, host, out);
            tell_cleaned(alloc, cleaned, out)
        }
        Err(fault) => unwritten(fault),
    }
}

/// Cleans what these words name.
fn clean<H: Files, S: Sink>(alloc: Global, words: &[Text], host: &mut H, out: &mut S) -> Answer
    ensures { Cleans words.now (moment (H.outside host.old) (S.output out.old)) (moment (H.outside host.new) (S.output out.new)) result }
{
    one_meaning();
    let Preparation {
        echoes,
        result,
        tests: _tests,
    } = prepare(alloc, words, host);
    match result {
        Ok(planned) => clean_steps(alloc, echoes.as_slice(), &planned.plan, host, out),
        Err(stop) => tell_stop(alloc, echoes.as_slice(), stop, out),
    }
}

/// Reads the words, and cleans what they name.
fn answer<H: Files, S: Sink>(alloc: Global, words: &[Text], host: &mut H, out: &mut S) -> Answer
    ensures { IsAnswered words.now (moment (H.outside host.old) (S.output out.old))
        (moment (H.outside host.new) (S.output out.new)) result }
{
    match clean_words(alloc, words) {
        Ok(free) => clean(alloc, free.as_slice(), host, out),
        Err(WordsFault::Usage) => tell_usage(out),
        Err(WordsFault::OutOfMemory) => Answer::OutOfMemory,
    }
}

/// Removes each output that stands of the plan's steps of what the words ask for, but none of a notfile step, and drops the records of
/// the steps. After the lines of ECHO comes one line for each file that was removed, and then how many there were. Starts nothing
/// and always returns.
pub fn clean_b2<H: Files, S: Sink>(
    alloc: Global,
    words: &[Text],
    host: &mut H,
    out: &mut S,
) -> Answer
    // After Ok none of these outputs stands, the log tells no record of a step of the plan, and what was written are the lines of
    // ECHO, that of each file that was removed, and how many there were.
    ensures cleaned { CleanedTold words.now (moment (H.outside host.old) (S.output out.old))
        (moment (H.outside host.new) (S.output out.new)) result }
    // Whatever the answer, a true log stays true, and nothing but the log and these outputs has changed, which are gone.
    ensures leaves { LeavesTold words.now (H.outside host.old) (H.outside host.new) }
    // Where the answer is Usage or a refusal, no file has changed.
    ensures stays { StaysUnlessCleaned result (H.outside host.old) (H.outside host.new) }
    // What was written is the report; each refusal has its cause.
    ensures reported { ReportTold words.now (moment (H.outside host.old) (S.output out.old))
        (moment (H.outside host.new) (S.output out.new)) result }
    // Nothing was started. No count falls, and visible files stay visible.
    ensures children { (H.outside host.new).children ≡ (H.outside host.old).children }
    ensures keeps { Keeps (H.outside host.old) (H.outside host.new) }
    ensures out_keeps { OutKeeps (S.output out.old) (S.output out.new) }
    // The answer names the first fault. Ok, Refused and Usage come only where both counts of faults are as at entry; a fault comes
    // only where its count rose, and one of the sink only where a write may fail.
    ensures counts { CountsTold (moment (H.outside host.old) (S.output out.old))
        (moment (H.outside host.new) (S.output out.new)) result }
    // Words that ask for no cleaning ask for the usage line, and nothing else does; all that the host is to its callers stays as it
    // is.
    ensures usage { clean_words words.now ≡ None → IsUsageOrCutShort result }
    ensures alone { clean_words words.now ≡ None → H.outside host.new ≡ H.outside host.old }
    ensures no_usage { result ≡ Answer.Usage → clean_words words.now ≡ None }
    // With the answer Usage exactly the usage line was written, over every host and sink.
    ensures usage_told { UsageTold (moment (H.outside host.old) (S.output out.old))
        (moment (H.outside host.new) (S.output out.new)) result }
    // With Ok the words and the files come to a plan, and a refusal is what they come to. That is told of every sink.
    ensures cause { CauseTold words.now (H.outside host.old) result }
    // No fault of the host and no out of memory is within a refusal.
    ensures whole { IfRefused IsProjectRefusal result }
    // Cleaning has no list of failures, and no refusal but those of the load, the request and generation.
    ensures not_failed { IsOfLook result }
    // Where the words, the load, the request and generation come to a plan, the answer is Ok, or the call was cut short, or a pattern
    // of the project's own text was refused though it reads as one.
    ensures complete { CompleteTold words.now (H.outside host.old) result }
{
    answer(alloc, words, host, out)
}
