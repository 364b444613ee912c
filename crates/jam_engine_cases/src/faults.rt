//! Why there is no graph or no plan.
use b2_project_cases::faults::{put_eval_fault, put_lex_fault, put_size, put_syntax_fault};
use jam_graph::fault::JamFault;
use jam_parser::fault::SyntaxFault;
use transcript::answer::Answer;

/// Puts why a file has no graph.
fn put_file_fault(answer: &mut Answer, fault: &JamFault) {
    match fault {
        JamFault::NoFile { path } => answer.put_two("no file", path.as_str()),
        JamFault::TooBig { path, size } => put_size(answer, path.as_str(), *size),
        JamFault::Lex { path, fault } => put_lex_fault(answer, path.as_str(), fault),
        JamFault::Syntax {
            path,
            fault: SyntaxFault::At { line, found },
        } => put_syntax_fault(answer, path.as_str(), *line, found.as_str()),
        _ => answer.cut(),
    }
}

/// Puts why targets have no plan.
fn put_plan_fault(answer: &mut Answer, fault: &JamFault) {
    match fault {
        JamFault::NoTarget { name } => answer.put_two("no target", name.as_str()),
        JamFault::MixedNotFile { target } => {
            answer.put_two("notfile and file in one action:", target.as_str());
        }
        JamFault::PathClash { path } => answer.put_two("path clash:", path.as_str()),
        JamFault::LocationOutside { path } => answer.put_two("location outside:", path.as_str()),
        JamFault::TooManySteps { count } => answer.put_between("", *count as u64, " steps"),
        _ => put_file_fault(answer, fault),
    }
}

/// Adds the line of a refusal.
pub fn push_refusal(answer: &mut Answer, fault: &JamFault) {
    answer.put("b2: ");
    match fault {
        JamFault::Eval(fault) => put_eval_fault(answer, fault),
        JamFault::Host => answer.put("host fault"),
        _ => put_plan_fault(answer, fault),
    }
    answer.end_line();
}
