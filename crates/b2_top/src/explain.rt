//! The explain command.
ghost use Rattle.std.specs.Prelude.{◌≡◌, None};
ghost use Rattle.b2_host.specs.OutsideLaws.{Keeps};
ghost use Rattle.b2_host.specs.OutputLaws.{OutKeeps};
ghost use Rattle.b2_plan.specs.Plans.{Apart};
ghost use Rattle.b2_explain.specs.Faults.{ExplainCounts};
ghost use Rattle.b2_explain.specs.Lines.{why_line, why_lines};
ghost use Rattle.b2_explain.specs.Surveys.{IsStill};
ghost use Rattle.b2_top.specs.Askings.{IsProjectRefusal};
ghost use Rattle.b2_update.specs.Moments.{moment};
ghost use Rattle.b2_top.specs.Endings.{IsUsageOrCutShort, IfRefused};
ghost use Rattle.b2_top.specs.Asked.{explain_command};
ghost use Rattle.b2_top.specs.Shows.{CountsTold, UsageTold};
ghost use Rattle.b2_top.specs.Explains.{ExplainedTold, ReportTold, CauseTold, IsOfExplain, CompleteTold, Explains, IsAnswered};
ghost use Rattle.b2_top.specs.Explains.{LogExplained, explained_report, TellsWhys, TellsPlan};
ghost use Rattle.b2_top.specs.Writing.{Writes, Says};

use crate::answer::Answer;
use crate::asked::{ExplainCommand, explain_command};
use crate::lines::{write_echoes, write_made};
use crate::tell::{tell_host_fault, tell_refusal, tell_stop, tell_usage, unwritten};
use b2_base::text::Text;
use b2_command_line::fault::WordsFault;
use b2_explain::cause::{Why, WhyList};
use b2_explain::explain::explain;
use b2_explain::fault::ExplainFault;
use b2_explain::lines::cause_line;
use b2_host::fault::IoFault;
use b2_host::files::Files;
use b2_host::sink::Sink;
use b2_journal::log_reading::read;
use b2_plan::plan::Plan;
use b2_plan::step::Step;
use b2_prepare::laws::one_meaning;
use b2_prepare::prepare::{Preparation, prepare};
use b2_refusals::fault::Fault;
use b2_runs::steps::find_step;
use std::alloc::Global;

/// The causes of the needed steps, by the log's file as it stands.
fn explain_log<H: Files>(
    alloc: Global,
    plan: &Plan,
    all: bool,
    host: &mut H,
) -> Result<WhyList, ExplainFault>
    requires apart { Apart plan.now.steps plan.now.roots }
    ensures still { IsStill (H.outside host.old) (H.outside host.new) }
    ensures counts { ExplainCounts (H.outside host.old) (H.outside host.new) result }
    ensures told { LogExplained plan.now all (H.outside host.old) result }
{
    match read(alloc, host) {
        Ok(reading) => explain(alloc, plan, &reading.log, all, host),
        Err(IoFault::Failed) => Err(ExplainFault::Host),
        Err(IoFault::OutOfMemory) => Err(ExplainFault::OutOfMemory),
    }
}

/// Writes the line of one cause.
fn write_why<S: Sink>(alloc: Global, steps: &[Step], why: &Why, out: &mut S) -> Result<(), IoFault>
    ensures { Writes (why_line steps.now why.now) (S.output out.old) (S.output out.new) result }
{
    match find_step(steps, why.step) {
        None => Ok(()),
        Some(step) => write_made(cause_line(alloc, step, &why.cause), out),
    }
}

/// Writes the lines of the causes.
fn write_whys<S: Sink>(
    alloc: Global,
    steps: &[Step],
    whys: &[Why],
    out: &mut S,
) -> Result<(), IoFault>
    ensures { Writes (why_lines steps.now whys.now) (S.output out.old) (S.output out.new) result }
{
    for why in whys {
        write_why(alloc, steps, why, out)?;
    }
    Ok(())
}

/// Writes the lines of ECHO, and then the lines of the causes.
fn write_explained<S: Sink>(
    alloc: Global,
    echoes: &[Text],
    steps: &[Step],
    whys: &[Why],
    out: &mut S,
) -> Result<(), IoFault>
    ensures { Writes (explained_report echoes.now steps.now whys.now) (S.output out.old) (S.output out.new) result }
{
    write_echoes(alloc, echoes, out)?;
    write_whys(alloc, steps, whys, out)
}

/// Tells the causes.
fn tell_causes<S: Sink>(
    alloc: Global,
    echoes: &[Text],
    steps: &[Step],
    whys: &[Why],
    out: &mut S,
) -> Answer
    ensures { Says Answer.Ok (explained_report echoes.now steps.now whys.now) (S.output out.old) (S.output out.new) result }
{
    match write_explained(alloc, echoes, steps, whys, out) {
        Ok(()) => Answer::Ok,
        Err(fault) => unwritten(fault),
    }
}

/// Tells the causes, or why there are none.
fn tell_whys<S: Sink>(
    alloc: Global,
    echoes: &[Text],
    steps: &[Step],
    explained: Result<WhyList, ExplainFault>,
    out: &mut S,
) -> Answer
    ensures { TellsWhys echoes.now steps.now explained (S.output out.old) (S.output out.new) result }
{
    match explained {
        Ok(whys) => tell_causes(alloc, echoes, steps, whys.as_slice(), out),
        Err(ExplainFault::Host) => tell_host_fault(alloc, echoes, out),
        Err(ExplainFault::TooBig { path, size }) => {
            tell_refusal(alloc, echoes, steps, Fault::TooBig { path, size }, out)
        }
        Err(ExplainFault::OutOfMemory) => Answer::OutOfMemory,
    }
}

/// Explains the plan. Nothing is written before the causes are found: so whatever was written begins a whole report, also where
/// memory runs out or the sink fails.
fn explain_plan<H: Files, S: Sink>(
    alloc: Global,
    echoes: &[Text],
    plan: &Plan,
    all: bool,
    host: &mut H,
    out: &mut S,
) -> Answer
    requires apart { Apart plan.now.steps plan.now.roots }
    ensures { TellsPlan echoes.now plan.now all (moment (H.outside host.old) (S.output out.old))
        (moment (H.outside host.new) (S.output out.new)) result }
{
    let explained = explain_log(alloc, plan, all, host);
    tell_whys(alloc, echoes, plan.steps.as_slice(), explained, out)
}

/// Explains what the words of an explanation name.
fn explain_words<H: Files, S: Sink>(
    alloc: Global,
    command: &ExplainCommand,
    host: &mut H,
    out: &mut S,
) -> Answer
    ensures { Explains command.now (moment (H.outside host.old) (S.output out.old))
        (moment (H.outside host.new) (S.output out.new)) result }
{
    one_meaning();
    let Preparation {
        echoes,
        result,
        tests: _tests,
    } = prepare(alloc, command.words.as_slice(), host);
    match result {
        Ok(planned) => {
            let echoes = echoes.as_slice();
            explain_plan(alloc, echoes, &planned.plan, command.all, host, out)
        }
        Err(stop) => tell_stop(alloc, echoes.as_slice(), stop, out),
    }
}

/// Reads the words, and explains what they ask for.
fn answer<H: Files, S: Sink>(alloc: Global, words: &[Text], host: &mut H, out: &mut S) -> Answer
    ensures { IsAnswered words.now (moment (H.outside host.old) (S.output out.old))
        (moment (H.outside host.new) (S.output out.new)) result }
{
    match explain_command(alloc, words) {
        Ok(command) => explain_words(alloc, &command, host, out),
        Err(WordsFault::Usage) => tell_usage(out),
        Err(WordsFault::OutOfMemory) => Answer::OutOfMemory,
    }
}

/// Tells why each needed step of the plan of what the words ask for is to run, or why it is not, in order of numbers: after the lines
/// of ECHO one line for each, with its first cause. Judging is by time stamps; with `-a` all that is needed is to run. Changes no
/// file, starts nothing and always returns.
pub fn explain_b2<H: Files, S: Sink>(
    alloc: Global,
    words: &[Text],
    host: &mut H,
    out: &mut S,
) -> Answer
    // After Ok exactly the lines of ECHO were written, and the line of each needed step with its first cause, where the lines of the
    // log that are used are true.
    ensures explained { ExplainedTold words.now (moment (H.outside host.old) (S.output out.old))
        (moment (H.outside host.new) (S.output out.new)) result }
    // What was written is the report; each refusal has its cause.
    ensures reported { ReportTold words.now (moment (H.outside host.old) (S.output out.old))
        (moment (H.outside host.new) (S.output out.new)) result }
    // No file has changed, and nothing was started.
    ensures disk { (H.outside host.new).disk ≡ (H.outside host.old).disk }
    ensures children { (H.outside host.new).children ≡ (H.outside host.old).children }
    // No count falls, and visible files stay visible.
    ensures keeps { Keeps (H.outside host.old) (H.outside host.new) }
    ensures out_keeps { OutKeeps (S.output out.old) (S.output out.new) }
    // The answer names the first fault. Ok, Refused and Usage come only where both counts of faults are as at entry; a fault comes
    // only where its count rose, and one of the sink only where a write may fail.
    ensures counts { CountsTold (moment (H.outside host.old) (S.output out.old))
        (moment (H.outside host.new) (S.output out.new)) result }
    // Words that ask for no explanation ask for the usage line, and nothing else does; all that the host is to its callers stays as
    // it is.
    ensures usage { explain_command words.now ≡ None → IsUsageOrCutShort result }
    ensures alone { explain_command words.now ≡ None → H.outside host.new ≡ H.outside host.old }
    ensures no_usage { result ≡ Answer.Usage → explain_command words.now ≡ None }
    // With the answer Usage exactly the usage line was written, over every host and sink.
    ensures usage_told { UsageTold (moment (H.outside host.old) (S.output out.old))
        (moment (H.outside host.new) (S.output out.new)) result }
    // With Ok the words and the files come to a plan. A refusal is what they come to, or a file that a needed step reads is too big.
    // That is told of every sink.
    ensures cause { CauseTold words.now (H.outside host.old) result }
    // No fault of the host and no out of memory is within a refusal.
    ensures whole { IfRefused IsProjectRefusal result }
    // An explanation has no list of failures, and no refusal but those of the load, the request, generation, and of a file that is
    // too big to be scanned, which a needed step reads.
    ensures not_failed { IsOfExplain result }
    // Where the words, the load, the request and generation come to a plan, the answer is Ok, or a file is too big to be scanned, or
    // the call was cut short, or a pattern of the project's own text was refused though it reads as one.
    ensures complete { CompleteTold words.now (H.outside host.old) result }
{
    answer(alloc, words, host, out)
}
