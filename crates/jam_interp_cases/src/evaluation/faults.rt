//! How faults are shown.
use jam_cases::faults::put_expand_fault;
use jam_interp::fault::{EvalCause, EvalFault};
use jam_lexer::fault::LexFault;
use jam_patterns::native_fault::NativeFault;
use transcript::answer::Answer;

fn put_native(answer: &mut Answer, fault: &NativeFault) {
    match fault {
        NativeFault::PatternRefused { refusal } => answer.put_two("bad pattern", refusal.text()),
        NativeFault::NoSuchRule { module, name } => {
            answer.put_two("no rule", name.as_str());
            answer.put_two(" in module", module.as_str());
        }
        NativeFault::DependsElsewhere { rule, text } => {
            answer.put(rule.as_str());
            answer.put_two(" on a foreign target", text.as_str());
        }
    }
}

fn put_lex(answer: &mut Answer, fault: &LexFault) {
    match fault {
        LexFault::NotUtf8 { at } => answer.put_between("byte ", *at as u64, " is not text"),
        LexFault::OpenQuote { line } => answer.put_between("open quote on line ", *line as u64, ""),
        LexFault::OpenActions { line } => {
            answer.put_between("open actions on line ", *line as u64, "")
        }
        LexFault::OutOfMemory => answer.cut(),
    }
}

/// Adds why a statement has no outcome, without its place.
pub fn put_cause(answer: &mut Answer, cause: &EvalCause) {
    match cause {
        EvalCause::UnknownRule { name } => answer.put_two("unknown rule", name.as_str()),
        EvalCause::Arity { rule } => answer.put_two("wrong arguments for", rule.as_str()),
        EvalCause::Turns { budget } => answer.put_between("more than ", *budget as u64, " turns"),
        EvalCause::Depth => answer.put("more than 256 levels"),
        EvalCause::Expand(fault) => put_expand_fault(answer, fault),
        EvalCause::Exit { text } => answer.put(text.as_str()),
        EvalCause::Native(fault) => put_native(answer, fault),
        EvalCause::Include { path } => answer.put_two("no file", path.as_str()),
        EvalCause::Lex(fault) => put_lex(answer, fault),
        EvalCause::Syntax { line, found } => {
            answer.put_between("syntax error on line ", *line as u64, " at ");
            answer.put(found.as_str());
        }
        EvalCause::TooBig { path, size } => {
            answer.put(path.as_str());
            answer.put_between(" has ", *size, " bytes");
        }
    }
}

/// Shows why an evaluation ended.
pub fn push_fault(answer: &mut Answer, fault: &EvalFault) {
    match fault {
        EvalFault::Host => answer.push_line("host fault"),
        EvalFault::OutOfMemory => answer.cut(),
        EvalFault::At { path, line, cause } => {
            answer.put(path.as_str());
            answer.put_between(":", *line as u64, ": ");
            put_cause(answer, cause);
            answer.end_line();
        }
    }
}
