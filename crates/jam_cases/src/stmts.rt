//! How statements are shown: each on a line of its own, as its line in the text and its form, and what stands in its
//! blocks below it, with two blanks more before each line.
use crate::forms::put_form;
use crate::shown::put_quoted;
use jam_grammar::tree::{Block, Case, Form, Other, Stmt};
use transcript::answer::Answer;

/// Puts the blanks before a line.
fn put_indent(answer: &mut Answer, depth: usize) {
    for _ in 0..depth {
        answer.put("  ");
    }
}

/// Adds the first line of a statement.
fn push_head(answer: &mut Answer, depth: usize, stmt: &Stmt) {
    put_indent(answer, depth);
    answer.put_number(stmt.line as u64);
    answer.put(" ");
    put_form(answer, &stmt.form);
    answer.end_line();
}

/// Adds a line of these words.
fn push_words(answer: &mut Answer, depth: usize, words: &str) {
    put_indent(answer, depth);
    answer.push_line(words);
}

/// Adds the line of a case.
fn push_pattern(answer: &mut Answer, depth: usize, case: &Case) {
    put_indent(answer, depth);
    answer.put("case ");
    put_quoted(answer, case.pattern.as_str());
    answer.end_line();
}

/// Adds the statements of a block.
#[cycle(stmts)]
pub fn push_stmts(answer: &mut Answer, depth: usize, block: &Block) {
    for stmt in &block.stmts {
        push_stmt(answer, depth, stmt);
    }
}

/// Adds a statement and what stands in it.
#[cycle(stmts)]
fn push_stmt(answer: &mut Answer, depth: usize, stmt: &Stmt) {
    push_head(answer, depth, stmt);
    let within = depth.saturating_add(1);
    match &stmt.form {
        Form::Braces(block) => push_stmts(answer, within, block),
        Form::If { then, other, .. } => {
            push_stmts(answer, within, then);
            push_other(answer, depth, other);
        }
        Form::For { block, .. } => push_stmts(answer, within, block),
        Form::While { block, .. } => push_stmts(answer, within, block),
        Form::Switch { cases, .. } => push_cases(answer, within, cases),
        Form::Module { block, .. } => push_stmts(answer, within, block),
        Form::Rule { block, .. } => push_stmts(answer, within, block),
        Form::On { stmt, .. } => push_stmt(answer, within, stmt),
        _ => {}
    }
}

/// Adds what follows on an `if`.
#[cycle(stmts)]
fn push_other(answer: &mut Answer, depth: usize, other: &Other) {
    let within = depth.saturating_add(1);
    match other {
        Other::Nothing => {}
        Other::Braces(block) => {
            push_words(answer, depth, "else");
            push_stmts(answer, within, block);
        }
        Other::If(stmt) => {
            push_words(answer, depth, "else if");
            push_stmt(answer, within, stmt);
        }
    }
}

/// Adds the cases of a `switch`.
#[cycle(stmts)]
fn push_cases(answer: &mut Answer, depth: usize, cases: &[Case]) {
    for case in cases {
        push_pattern(answer, depth, case);
        push_stmts(answer, depth.saturating_add(1), &case.block);
    }
}
