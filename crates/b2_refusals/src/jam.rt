//! Texts of files of plain Jam mode that have no graph, or no plan.
ghost use Rattle.std.specs.Prelude.{◌≡◌, IfOk, string_bytes};
ghost use Rattle.b2_refusals.specs.Texts.{jam_text};
ghost use Rattle.b2_refusals.specs.Wholes.{IsJamRefusal};

use crate::evaluations::{eval_text, lex_text};
use crate::loads::syntax_fault_text;
use crate::pieces::{concat, size_text, steps_text};
use b2_base::fault::OutOfMemory;
use jam_graph::fault::JamFault;
use std::alloc::Global;

/// The text of a file that has no graph, or of targets in it that have no plan.
pub fn jam_text(alloc: Global, fault: &JamFault) -> Result<String, OutOfMemory>
    requires { IsJamRefusal fault.now }
    ensures { IfOk result (λ text. string_bytes text ≡ jam_text fault.now) }
{
    match fault {
        JamFault::NoFile { path } => concat(alloc, "no file ", path.as_str()),
        JamFault::TooBig { path, size } => size_text(alloc, path.as_str(), *size),
        JamFault::Lex { path, fault } => lex_text(alloc, path.as_str(), fault),
        JamFault::Syntax { path, fault } => syntax_fault_text(alloc, path.as_str(), fault),
        JamFault::Eval(fault) => eval_text(alloc, fault),
        JamFault::NoTarget { name } => concat(alloc, "no target ", name.as_str()),
        JamFault::MixedNotFile { target } => {
            concat(alloc, "notfile and file in one action: ", target.as_str())
        }
        JamFault::PathClash { path } => concat(alloc, "path clash: ", path.as_str()),
        JamFault::LocationOutside { path } => concat(alloc, "location outside: ", path.as_str()),
        JamFault::TooManySteps { count } => steps_text(alloc, *count),
        JamFault::Host => unreachable!(),
        JamFault::OutOfMemory => unreachable!(),
    }
}
