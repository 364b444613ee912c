//! The texts of refusals, which are put to the current line.
use b2_features::fault::FeatureFault;
use b2_project_walk::fault::LoadFault;
use jam_effects::fault::{EvalCause, EvalFault};
use jam_interp_cases::evaluation::faults::put_cause;
use jam_lexer::fault::LexFault;
use jam_parser::fault::SyntaxFault;
use transcript::answer::Answer;

/// Puts the file and the line that a text after them speaks of.
fn put_place(answer: &mut Answer, path: &str, line: u32) {
    answer.put(path);
    answer.put_between(":", line as u64, ": ");
}

/// Puts what a fault of syntax says, with the line of the token.
pub fn put_syntax_fault(answer: &mut Answer, path: &str, line: u32, found: &str) {
    put_place(answer, path, line);
    let found = if found.is_empty() {
        "end of file"
    } else {
        found
    };
    answer.put_two("syntax error at", found);
}

fn put_at_line(answer: &mut Answer, path: &str, line: u32, text: &str) {
    put_place(answer, path, line);
    answer.put(text);
}

/// Puts what a fault of tokens says, with the line of the open quote or body.
pub fn put_lex_fault(answer: &mut Answer, path: &str, fault: &LexFault) {
    match fault {
        LexFault::NotUtf8 { at } => {
            answer.put(path);
            answer.put_between(": byte ", *at as u64, " is not text");
        }
        LexFault::OpenQuote { line } => put_at_line(answer, path, *line, "open quote"),
        LexFault::OpenActions { line } => put_at_line(answer, path, *line, "open actions"),
        LexFault::OutOfMemory => answer.cut(),
    }
}

/// Puts how many bytes a file has, which are too many.
pub fn put_size(answer: &mut Answer, path: &str, size: u64) {
    answer.put(path);
    answer.put_between(" has ", size, " bytes");
}

/// Puts what a fault of evaluation says; a file that was included has faults like a project file's.
fn put_caused(answer: &mut Answer, path: &str, line: u32, cause: &EvalCause) {
    match cause {
        EvalCause::Lex(fault) => put_lex_fault(answer, path, fault),
        EvalCause::Syntax { line, found } => put_syntax_fault(answer, path, *line, found.as_str()),
        EvalCause::TooBig { path: _, size } => put_size(answer, path, *size),
        _ => {
            put_place(answer, path, line);
            put_cause(answer, cause);
        }
    }
}

/// Puts what a fault says with which a file's run ended.
pub fn put_eval_fault(answer: &mut Answer, fault: &EvalFault) {
    match fault {
        EvalFault::Host => answer.put("host fault"),
        EvalFault::OutOfMemory => answer.cut(),
        EvalFault::At { path, line, cause } => put_caused(answer, path.as_str(), *line, cause),
    }
}

fn put_feature_fault(answer: &mut Answer, fault: &FeatureFault) {
    match fault {
        FeatureFault::Twice { word } => answer.put_two(word.as_str(), "is there twice"),
        FeatureFault::Unknown { word } => answer.put_two("unknown", word.as_str()),
        FeatureFault::BadValue { word } => answer.put_two("bad value", word.as_str()),
        FeatureFault::ComposeConflict { word } => answer.put_two("conflict in", word.as_str()),
        FeatureFault::OutOfMemory => answer.cut(),
    }
}

/// Puts why there is no project file, or no tree of one.
fn put_file_fault(answer: &mut Answer, fault: &LoadFault) {
    match fault {
        LoadFault::NoJamroot => answer.put("no Jamroot"),
        LoadFault::NoJamfile { dir } => answer.put_two("no Jamfile in", dir.as_str()),
        LoadFault::TooBig { path, size } => put_size(answer, path.as_str(), *size),
        LoadFault::Lex { path, fault } => put_lex_fault(answer, path.as_str(), fault),
        LoadFault::Syntax {
            path,
            fault: SyntaxFault::At { line, found },
        } => put_syntax_fault(answer, path.as_str(), *line, found.as_str()),
        _ => answer.cut(),
    }
}

/// Puts why a load is refused, as the program prints it after its name.
pub fn put_refusal(answer: &mut Answer, fault: &LoadFault) {
    match fault {
        LoadFault::Eval(fault) => put_eval_fault(answer, fault),
        LoadFault::Declaration { path, rule, line } => {
            put_place(answer, path.as_str(), *line);
            answer.put_two("bad", rule.as_str());
        }
        LoadFault::Feature { path, line, fault } => {
            put_place(answer, path.as_str(), *line);
            put_feature_fault(answer, fault);
        }
        LoadFault::Host => answer.put("host fault"),
        _ => put_file_fault(answer, fault),
    }
}
