//! Lines on the sink, each in one write.
ghost use Rattle.std.specs.Prelude.{◌≡◌, ℕ, List, IfOk, string_bytes};
ghost use Rattle.b2_refusals.specs.Wholes.{IsWhole};
ghost use Rattle.b2_runs.specs.Reports.{line};
ghost use Rattle.b2_top.specs.Reports.{echo_lines, refusal_report, fault_report};
ghost use Rattle.b2_top.specs.Writing.{Writes};

use b2_base::fault::OutOfMemory;
use b2_base::text::Text;
use b2_host::fault::IoFault;
use b2_host::sink::Sink;
use b2_plan::step::Step;
use b2_refusals::fault::Fault;
use b2_refusals::lines::{host_fault_line, refusal_line};
use std::alloc::Global;

/// Writes a text in one piece, and nothing where it is empty.
pub fn write_text<S: Sink>(text: &str, out: &mut S) -> Result<(), IoFault>
    ensures { Writes text.now (S.output out.old) (S.output out.new) result }
{
    if text.is_empty() {
        return Ok(());
    }
    out.write(text.as_bytes())
}

/// Writes a text that was made, in one piece.
pub fn write_made<S: Sink>(made: Result<String, OutOfMemory>, out: &mut S) -> Result<(), IoFault>
    ensures { (bytes : List ℕ) → IfOk made (λ text. string_bytes text ≡ bytes) → Writes bytes (S.output out.old) (S.output out.new) result }
{
    match made {
        Ok(text) => write_text(text.as_str(), out),
        Err(_error) => Err(IoFault::OutOfMemory),
    }
}

fn echo_line(alloc: Global, text: &str) -> Result<String, OutOfMemory>
    ensures { IfOk result (λ made. string_bytes made ≡ line text.now) }
{
    Ok(format!(in alloc; "{text}\n")?)
}

/// Writes the lines of ECHO.
pub fn write_echoes<S: Sink>(alloc: Global, echoes: &[Text], out: &mut S) -> Result<(), IoFault>
    ensures { Writes (echo_lines echoes.now) (S.output out.old) (S.output out.new) result }
{
    for echo in echoes {
        write_made(echo_line(alloc, echo.as_str()), out)?;
    }
    Ok(())
}

/// Writes the lines of ECHO, and then that of a refusal. `steps` are those of the plan, whose outputs a step cycle names.
pub fn write_refusal<S: Sink>(
    alloc: Global,
    echoes: &[Text],
    steps: &[Step],
    fault: &Fault,
    out: &mut S,
) -> Result<(), IoFault>
    requires whole { IsWhole fault.now }
    ensures { Writes (refusal_report echoes.now steps.now fault.now) (S.output out.old) (S.output out.new) result }
{
    write_echoes(alloc, echoes, out)?;
    write_made(refusal_line(alloc, steps, fault), out)
}

/// Writes the lines of ECHO, and then that of a fault of the host.
pub fn write_host_fault<S: Sink>(alloc: Global, echoes: &[Text], out: &mut S) -> Result<(), IoFault>
    ensures { Writes (fault_report echoes.now) (S.output out.old) (S.output out.new) result }
{
    write_echoes(alloc, echoes, out)?;
    write_text(host_fault_line(), out)
}
