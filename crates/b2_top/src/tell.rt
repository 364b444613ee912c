//! What the answer of a call is, and what is written with it.
ghost use Rattle.std.specs.Prelude.{◌≡◌};
ghost use Rattle.b2_prepare.specs.Preparing.{IsWhole as IsWholeStop};
ghost use Rattle.b2_refusals.specs.Lines.{usage_line};
ghost use Rattle.b2_refusals.specs.Wholes.{IsWhole};
ghost use Rattle.b2_top.specs.Reports.{refusal_report, fault_report};
ghost use Rattle.b2_top.specs.Writing.{unwritten, Says, SaysFault, AnswersStop, AnswersJam};
ghost use Rattle.jam_graph.specs.Loading.{IsWhole as IsWholeJam};

use crate::answer::Answer;
use crate::lines::{write_host_fault, write_refusal, write_text};
use b2_base::text::Text;
use b2_host::fault::IoFault;
use b2_host::sink::Sink;
use b2_plan::step::Step;
use b2_prepare::refusal::PlanStop;
use b2_refusals::fault::Fault;
use b2_refusals::lines::usage_line;
use jam_graph::fault::JamFault;
use std::alloc::Global;

/// The answer where a line could not be written.
pub fn unwritten(fault: IoFault) -> Answer
    ensures { result ≡ unwritten fault }
{
    match fault {
        IoFault::Failed => Answer::SinkFault,
        IoFault::OutOfMemory => Answer::OutOfMemory,
    }
}

/// Writes the usage line, for words that are no command.
pub fn tell_usage<S: Sink>(out: &mut S) -> Answer
    ensures { Says Answer.Usage usage_line (S.output out.old) (S.output out.new) result }
{
    match write_text(usage_line(), out) {
        Ok(()) => Answer::Usage,
        Err(fault) => unwritten(fault),
    }
}

/// Writes the report of a refusal. `steps` are those of the plan, whose outputs a step cycle names.
pub fn tell_refusal<S: Sink>(
    alloc: Global,
    echoes: &[Text],
    steps: &[Step],
    fault: Fault,
    out: &mut S,
) -> Answer
    requires { IsWhole fault }
    ensures { Says (Answer.Refused fault) (refusal_report echoes.now steps.now fault) (S.output out.old) (S.output out.new) result }
{
    match write_refusal(alloc, echoes, steps, &fault, out) {
        Ok(()) => Answer::Refused(fault),
        Err(error) => {
            drop(fault);
            unwritten(error)
        }
    }
}

/// Writes the report of a fault of the host, which is the answer though the sink may fail here; where memory runs out, that is the
/// answer.
pub fn tell_host_fault<S: Sink>(alloc: Global, echoes: &[Text], out: &mut S) -> Answer
    ensures { SaysFault (fault_report echoes.now) (S.output out.old) (S.output out.new) result }
{
    match write_host_fault(alloc, echoes, out) {
        Ok(()) => Answer::HostFault,
        Err(IoFault::Failed) => Answer::HostFault,
        Err(IoFault::OutOfMemory) => Answer::OutOfMemory,
    }
}

/// Tells why there is no plan.
pub fn tell_stop<S: Sink>(alloc: Global, echoes: &[Text], stop: PlanStop, out: &mut S) -> Answer
    requires { IsWholeStop stop }
    ensures { AnswersStop echoes.now stop (S.output out.old) (S.output out.new) result }
{
    match stop {
        PlanStop::Refused(refusal) => tell_refusal(alloc, echoes, &[], Fault::Plan(refusal), out),
        PlanStop::HostInLoad | PlanStop::HostInGeneration => tell_host_fault(alloc, echoes, out),
        PlanStop::OutOfMemory => Answer::OutOfMemory,
    }
}

/// Tells why there is no plan of targets in a Jam file.
pub fn tell_jam_fault<S: Sink>(
    alloc: Global,
    echoes: &[Text],
    fault: JamFault,
    out: &mut S,
) -> Answer
    requires { IsWholeJam fault }
    ensures { AnswersJam echoes.now fault (S.output out.old) (S.output out.new) result }
{
    match fault {
        JamFault::Host => tell_host_fault(alloc, echoes, out),
        JamFault::OutOfMemory => Answer::OutOfMemory,
        other => tell_refusal(alloc, echoes, &[], Fault::Jam(other), out),
    }
}
