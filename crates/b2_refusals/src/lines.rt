//! The lines of refusals and of looks at a project.
ghost use Rattle.std.specs.Prelude.{◌≡◌, IfOk, string_bytes};
ghost use Rattle.b2_refusals.specs.Lines.{fault_text, refusal_line, usage_line, table_line, text_line};
ghost use Rattle.b2_runs.specs.Reports.{host_fault_line};
ghost use Rattle.b2_refusals.specs.Texts.{plan_text};
ghost use Rattle.b2_refusals.specs.Wholes.{IsPlanRefusal, IsWhole};

use crate::fault::{Fault, PlanRefusal};
use crate::generations::{gen_text, request_text};
use crate::jam::jam_text;
use crate::lists::{cycle_text, push_properties};
use crate::loads::load_text;
use crate::pieces::{concat, size_text};
use b2_base::fault::OutOfMemory;
use b2_plan::step::Step;
use b2_props::props::Props;
use std::alloc::Global;

/// The line of words that are no command.
pub fn usage_line() -> &'static str
    ensures { result.now ≡ usage_line }
{
    "b2: usage: b2 [-jN] [-a] [-q] [--by=digest] [-n, --show, --explain or --clean] [word ..], or b2 -f FILE [target ..], or b2 --drill=N\n"
}

/// It takes no memory, so that it can be written after any fault, and does not say which call failed.
pub fn host_fault_line() -> &'static str
    ensures { result.now ≡ host_fault_line }
{
    "b2: host fault\n"
}

/// The text of files and words that have no plan.
fn plan_text(alloc: Global, refusal: &PlanRefusal) -> Result<String, OutOfMemory>
    requires { IsPlanRefusal refusal.now }
    ensures { IfOk result (λ text. string_bytes text ≡ plan_text refusal.now) }
{
    match refusal {
        PlanRefusal::Load(fault) => load_text(alloc, fault),
        PlanRefusal::Request(fault) => request_text(alloc, fault),
        PlanRefusal::Generation(fault) => gen_text(alloc, fault),
    }
}

fn step_cycle_text(alloc: Global, steps: &[Step], list: &[u32]) -> Result<String, OutOfMemory>
    ensures { IfOk result (λ text. string_bytes text ≡ fault_text steps.now (Fault.StepCycle list.now)) }
{
    let cycle = cycle_text(alloc, steps, list)?;
    concat(alloc, "step cycle: ", cycle.as_str())
}

fn fault_text(alloc: Global, steps: &[Step], fault: &Fault) -> Result<String, OutOfMemory>
    requires { IsWhole fault.now }
    ensures { IfOk result (λ text. string_bytes text ≡ fault_text steps.now fault.now) }
{
    match fault {
        Fault::Plan(refusal) => plan_text(alloc, refusal),
        Fault::Jam(fault) => jam_text(alloc, fault),
        Fault::StepCycle { list } => step_cycle_text(alloc, steps, list.as_slice()),
        Fault::TooBig { path, size } => size_text(alloc, path.as_str(), *size),
    }
}

/// The line of a refusal: `b2: `, its text and a line feed. `steps` are those of the plan, whose outputs a cycle names.
pub fn refusal_line(alloc: Global, steps: &[Step], fault: &Fault) -> Result<String, OutOfMemory>
    requires whole { IsWhole fault.now }
    ensures { IfOk result (λ line. string_bytes line ≡ refusal_line steps.now fault.now) }
{
    let text = fault_text(alloc, steps, fault)?;
    Ok(format!(in alloc; "b2: {text}\n")?)
}

/// The line of a row of the table of main targets, as `//a [1] <toolset>gcc <variant>release`: the target, the number of its
/// alternative, and the properties.
pub fn table_line(
    alloc: Global,
    target: &str,
    alternative: usize,
    set: &Props,
) -> Result<String, OutOfMemory>
    ensures { IfOk result (λ line. string_bytes line ≡ table_line target.now alternative set.now) }
{
    let mut line = format!(in alloc; "{target} [{alternative}]")?;
    push_properties(alloc, &mut line, set.pairs())?;
    line.push_str("\n")?;
    Ok(line)
}

/// The line of a step's text, which may itself have several lines.
pub fn text_line(alloc: Global, step: &Step) -> Result<String, OutOfMemory>
    ensures { IfOk result (λ line. string_bytes line ≡ text_line step.now) }
{
    concat(alloc, step.text.as_str(), "\n")
}
