//! Texts of faults of evaluation. A file that was included has faults of tokens and syntax like a project file's own.
ghost use Rattle.std.specs.Prelude.{◌≡◌, ◌≢◌, IfOk, string_bytes};
ghost use Rattle.b2_base.specs.declared.expand_fault.ExpandFault.TheVariants as expansions;
ghost use Rattle.jam_lexer.specs.declared.fault.LexFault.TheVariants as lexings;
ghost use Rattle.jam_effects.specs.Causes.{cause_of, IsWhole};
ghost use Rattle.b2_refusals.specs.Texts.{lex_text, syntax_text, expand_text, native_text, cause_text, eval_text};
ghost use Rattle.b2_refusals.specs.Wholes.{IsEvalRefusal};

use crate::pieces::{at_line, concat_at, size_text};
use b2_base::expand_fault::ExpandFault;
use b2_base::fault::OutOfMemory;
use b2_base::text::Text;
use jam_effects::fault::{EvalCause, EvalFault};
use jam_lexer::fault::LexFault;
use jam_patterns::native_fault::NativeFault;
use std::alloc::Global;

fn byte_text(alloc: Global, path: &str, at: u32) -> Result<String, OutOfMemory>
    ensures { IfOk result (λ text. string_bytes text ≡ lex_text path.now (LexFault.NotUtf8 at)) }
{
    Ok(format!(in alloc; "{path}: byte {at} is not text")?)
}

/// The text of a fault of tokens, with the line of the open quote or body.
pub fn lex_text(alloc: Global, path: &str, fault: &LexFault) -> Result<String, OutOfMemory>
    requires { fault.now ≢ lexings.OutOfMemory }
    ensures { IfOk result (λ text. string_bytes text ≡ lex_text path.now fault.now) }
{
    match fault {
        LexFault::NotUtf8 { at } => byte_text(alloc, path, *at),
        LexFault::OpenQuote { line } => at_line(alloc, path, *line, "open quote"),
        LexFault::OpenActions { line } => at_line(alloc, path, *line, "open actions"),
        LexFault::OutOfMemory => unreachable!(),
    }
}

/// The text of a fault of syntax at a token; the empty text stands for the end of the file.
pub fn syntax_text(alloc: Global, path: &str, line: u32, found: &str) -> Result<String, OutOfMemory>
    ensures { IfOk result (λ text. string_bytes text ≡ syntax_text path.now line found.now) }
{
    if found.is_empty() {
        return at_line(alloc, path, line, "syntax error at end of file");
    }
    concat_at(alloc, path, line, "syntax error at ", found)
}

fn expansion_text(alloc: Global, path: &str, line: u32, bytes: u64) -> Result<String, OutOfMemory>
    ensures { IfOk result (λ text. string_bytes text ≡ expand_text path.now line (ExpandFault.TooLarge bytes)) }
{
    Ok(format!(in alloc; "{path}:{line}: expansion of {bytes} bytes")?)
}

/// The text of a fault of expansion at a line.
fn expand_text(
    alloc: Global,
    path: &str,
    line: u32,
    fault: &ExpandFault,
) -> Result<String, OutOfMemory>
    requires { fault.now ≢ expansions.OutOfMemory }
    ensures { IfOk result (λ text. string_bytes text ≡ expand_text path.now line fault.now) }
{
    match fault {
        ExpandFault::BadIndex { text } => concat_at(alloc, path, line, "bad index ", text.as_str()),
        ExpandFault::BadModifier { text } => {
            concat_at(alloc, path, line, "bad modifier ", text.as_str())
        }
        ExpandFault::TooDeep => at_line(alloc, path, line, "expansion too deep"),
        ExpandFault::TooLarge { bytes } => expansion_text(alloc, path, line, *bytes),
        ExpandFault::OutOfMemory => unreachable!(),
    }
}

fn no_rule_text(
    alloc: Global,
    path: &str,
    line: u32,
    home: &Text,
    name: &Text,
) -> Result<String, OutOfMemory>
    ensures { IfOk result (λ text. string_bytes text ≡ native_text path.now line (NativeFault.NoSuchRule home.now name.now)) }
{
    let home = home.as_str();
    let name = name.as_str();
    Ok(format!(in alloc; "{path}:{line}: no rule {name} in module {home}")?)
}

fn foreign_text(
    alloc: Global,
    path: &str,
    line: u32,
    rule: &Text,
    target: &Text,
) -> Result<String, OutOfMemory>
    ensures { IfOk result (λ text. string_bytes text ≡ native_text path.now line (NativeFault.DependsElsewhere rule.now target.now)) }
{
    let rule = rule.as_str();
    let target = target.as_str();
    Ok(format!(in alloc; "{path}:{line}: {rule} on a foreign target {target}")?)
}

/// The text of a native rule's fault at a line.
fn native_text(
    alloc: Global,
    path: &str,
    line: u32,
    fault: &NativeFault,
) -> Result<String, OutOfMemory>
    ensures { IfOk result (λ text. string_bytes text ≡ native_text path.now line fault.now) }
{
    match fault {
        NativeFault::PatternRefused { refusal } => {
            concat_at(alloc, path, line, "bad pattern ", refusal.text())
        }
        NativeFault::NoSuchRule { module, name } => no_rule_text(alloc, path, line, module, name),
        NativeFault::DependsElsewhere { rule, text } => {
            foreign_text(alloc, path, line, rule, text)
        }
    }
}

fn turns_text(alloc: Global, path: &str, line: u32, budget: u32) -> Result<String, OutOfMemory>
    ensures { IfOk result (λ text. string_bytes text ≡ cause_text path.now line (EvalCause.Turns budget)) }
{
    Ok(format!(in alloc; "{path}:{line}: more than {budget} turns")?)
}

/// The text of a cause, where evaluation was at a line.
fn cause_text(
    alloc: Global,
    path: &str,
    line: u32,
    cause: &EvalCause,
) -> Result<String, OutOfMemory>
    requires { IsWhole (cause_of cause.now) }
    ensures { IfOk result (λ text. string_bytes text ≡ cause_text path.now line cause.now) }
{
    match cause {
        EvalCause::UnknownRule { name } => {
            concat_at(alloc, path, line, "unknown rule ", name.as_str())
        }
        EvalCause::Arity { rule } => {
            concat_at(alloc, path, line, "wrong arguments for ", rule.as_str())
        }
        EvalCause::Turns { budget } => turns_text(alloc, path, line, *budget),
        EvalCause::Depth => at_line(alloc, path, line, "more than 256 levels"),
        EvalCause::Expand(fault) => expand_text(alloc, path, line, fault),
        EvalCause::Exit { text } => at_line(alloc, path, line, text.as_str()),
        EvalCause::Native(fault) => native_text(alloc, path, line, fault),
        EvalCause::Include { path: file } => {
            concat_at(alloc, path, line, "no file ", file.as_str())
        }
        EvalCause::Lex(fault) => lex_text(alloc, path, fault),
        EvalCause::Syntax { line, found } => syntax_text(alloc, path, *line, found.as_str()),
        EvalCause::TooBig { path: _, size } => size_text(alloc, path, *size),
    }
}

/// The text of a fault of evaluation.
pub fn eval_text(alloc: Global, fault: &EvalFault) -> Result<String, OutOfMemory>
    requires { IsEvalRefusal fault.now }
    ensures { IfOk result (λ text. string_bytes text ≡ eval_text fault.now) }
{
    match fault {
        EvalFault::At { path, line, cause } => cause_text(alloc, path.as_str(), *line, cause),
        EvalFault::Host => unreachable!(),
        EvalFault::OutOfMemory => unreachable!(),
    }
}
