//! The commands `parse`, `fault` and `print`.
use crate::expansion::Variables;
use crate::given::{MAX_LEN, given};
use crate::lexemes::lexeme_command;
use crate::shown::as_text;
use crate::stmts::push_stmts;
use crate::tokens::fault_answer;
use b2_base::token::Token;
use jam_grammar::tree::Tree;
use jam_lexer::lex;
use jam_parser::fault::SyntaxFault;
use jam_parser::parse::parse;
use jam_printer::print;
use std::alloc::Global;
use std::mem::ManuallyDrop;
use transcript::answer::Answer;
use transcript::case_fault::CaseFault;
use transcript::command::Command;

/// Adds a fault at a token, or at the end of the text where the token is empty.
fn push_syntax(answer: &mut Answer, line: u32, found: &str) {
    answer.put("line ");
    answer.put_number(line as u64);
    answer.put(": syntax error at ");
    answer.push_line(if found.is_empty() {
        "end of file"
    } else {
        found
    });
}

/// The first fault on a line.
fn syntax_answer(alloc: Global, fault: &SyntaxFault) -> Result<Answer, CaseFault> {
    match fault {
        SyntaxFault::OutOfMemory => Err(CaseFault::OutOfMemory),
        SyntaxFault::At { line, found } => {
            let mut answer = Answer::new(alloc);
            push_syntax(&mut answer, *line, found.as_str());
            Ok(answer)
        }
    }
}

fn tree_answer(alloc: Global, tree: &Tree) -> Result<Answer, CaseFault> {
    if tree.block.stmts.is_empty() {
        return Answer::line(alloc, "no statements");
    }
    let mut answer = Answer::new(alloc);
    push_stmts(&mut answer, 0, &tree.block);
    Ok(answer)
}

/// Whether the tokens have a tree that is printed as these bytes.
fn is_printed_as(alloc: Global, tokens: &[Token], bytes: &[u8]) -> Result<bool, CaseFault> {
    match parse(alloc, tokens) {
        Ok(tree) => {
            let tree = ManuallyDrop::new(tree);
            let printed = ManuallyDrop::new(print(alloc, &tree)?);
            Ok(printed.as_slice() == bytes)
        }
        Err(_fault) => Ok(false),
    }
}

/// Whether a text has a tree that is printed as it stands.
fn is_printed_again(alloc: Global, bytes: &[u8]) -> Result<bool, CaseFault> {
    if bytes.len() > MAX_LEN {
        return Ok(false);
    }
    match lex(alloc, bytes) {
        Ok(tokens) => {
            let tokens = ManuallyDrop::new(tokens);
            is_printed_as(alloc, tokens.as_slice(), bytes)
        }
        Err(_fault) => Ok(false),
    }
}

/// The lines of the printed tree; a line more where its text is not printed as it stands.
fn printed_answer(alloc: Global, tree: &Tree) -> Result<Answer, CaseFault> {
    let bytes = ManuallyDrop::new(print(alloc, tree)?);
    let text = as_text(bytes.as_slice())?;
    let is_again = is_printed_again(alloc, bytes.as_slice())?;
    let mut answer = Answer::new(alloc);
    if text.is_empty() {
        answer.push_line("no text");
    }
    answer.push_text(text);
    if !is_again {
        answer.push_line("printed again otherwise");
    }
    Ok(answer)
}

/// What is told of the tree of a text.
#[derive(Clone, Copy)]
enum Question {
    Tree,
    Fault,
    Printed,
}

fn told_of_tree(alloc: Global, tree: &Tree, question: Question) -> Result<Answer, CaseFault> {
    match question {
        Question::Tree => tree_answer(alloc, tree),
        Question::Fault => Answer::line(alloc, "none"),
        Question::Printed => printed_answer(alloc, tree),
    }
}

/// What is told of the tree of the tokens, or their first fault.
fn parse_answer(alloc: Global, tokens: &[Token], question: Question) -> Result<Answer, CaseFault> {
    match parse(alloc, tokens) {
        Ok(tree) => {
            let tree = ManuallyDrop::new(tree);
            told_of_tree(alloc, &tree, question)
        }
        Err(fault) => syntax_answer(alloc, &fault),
    }
}

fn text_answer(alloc: Global, command: &Command, question: Question) -> Result<Answer, CaseFault> {
    match lex(alloc, given(command)?) {
        Ok(tokens) => {
            let tokens = ManuallyDrop::new(tokens);
            parse_answer(alloc, tokens.as_slice(), question)
        }
        Err(fault) => fault_answer(alloc, &fault),
    }
}

/// Carries out `parse`, `fault` or `print`, or another command.
pub fn tree_command(
    alloc: Global,
    command: &Command,
    variables: &mut Variables,
) -> Result<Answer, CaseFault> {
    match command.name() {
        "parse" => text_answer(alloc, command, Question::Tree),
        "fault" => text_answer(alloc, command, Question::Fault),
        "print" => text_answer(alloc, command, Question::Printed),
        _ => lexeme_command(alloc, command, variables),
    }
}
