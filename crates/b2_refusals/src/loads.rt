//! Texts of loads that are refused.
ghost use Rattle.std.specs.Prelude.{◌≡◌, ◌≢◌, IfOk, string_bytes};
ghost use Rattle.b2_features.specs.declared.fault.FeatureFault.TheVariants as features;
ghost use Rattle.b2_refusals.specs.Texts.{feature_text, syntax_fault_text, load_text};
ghost use Rattle.b2_refusals.specs.Wholes.{IsLoadRefusal};
ghost use Rattle.jam_parser.specs.declared.fault.SyntaxFault.TheVariants as parsings;

use crate::evaluations::{eval_text, lex_text, syntax_text};
use crate::pieces::{concat, concat_at, size_text};
use b2_base::fault::OutOfMemory;
use b2_features::fault::FeatureFault;
use b2_project_walk::fault::LoadFault;
use jam_parser::fault::SyntaxFault;
use std::alloc::Global;

/// The text of a fault of a declaring call at a line.
fn feature_text(
    alloc: Global,
    path: &str,
    line: u32,
    fault: &FeatureFault,
) -> Result<String, OutOfMemory>
    requires { fault.now ≢ features.OutOfMemory }
    ensures { IfOk result (λ text. string_bytes text ≡ feature_text path.now line fault.now) }
{
    match fault {
        FeatureFault::Twice { word } => {
            concat_at(alloc, path, line, word.as_str(), " is there twice")
        }
        FeatureFault::Unknown { word } => concat_at(alloc, path, line, "unknown ", word.as_str()),
        FeatureFault::BadValue { word } => {
            concat_at(alloc, path, line, "bad value ", word.as_str())
        }
        FeatureFault::ComposeConflict { word } => {
            concat_at(alloc, path, line, "conflict in ", word.as_str())
        }
        FeatureFault::OutOfMemory => unreachable!(),
    }
}

/// The text of a fault of syntax.
pub fn syntax_fault_text(
    alloc: Global,
    path: &str,
    fault: &SyntaxFault,
) -> Result<String, OutOfMemory>
    requires { fault.now ≢ parsings.OutOfMemory }
    ensures { IfOk result (λ text. string_bytes text ≡ syntax_fault_text path.now fault.now) }
{
    match fault {
        SyntaxFault::At { line, found } => syntax_text(alloc, path, *line, found.as_str()),
        SyntaxFault::OutOfMemory => unreachable!(),
    }
}

/// The text of a load that is refused.
pub fn load_text(alloc: Global, fault: &LoadFault) -> Result<String, OutOfMemory>
    requires { IsLoadRefusal fault.now }
    ensures { IfOk result (λ text. string_bytes text ≡ load_text fault.now) }
{
    match fault {
        LoadFault::NoJamroot => Ok(String::from_str(alloc, "no Jamroot")?),
        LoadFault::NoJamfile { dir } => concat(alloc, "no Jamfile in ", dir.as_str()),
        LoadFault::TooBig { path, size } => size_text(alloc, path.as_str(), *size),
        LoadFault::Lex { path, fault } => lex_text(alloc, path.as_str(), fault),
        LoadFault::Syntax { path, fault } => syntax_fault_text(alloc, path.as_str(), fault),
        LoadFault::Eval(fault) => eval_text(alloc, fault),
        LoadFault::Declaration { path, rule, line } => {
            concat_at(alloc, path.as_str(), *line, "bad ", rule.as_str())
        }
        LoadFault::Feature { path, line, fault } => {
            feature_text(alloc, path.as_str(), *line, fault)
        }
        LoadFault::Host => unreachable!(),
        LoadFault::OutOfMemory => unreachable!(),
    }
}
