//! The command `lex`.
use crate::expansion::Variables;
use crate::given::given;
use crate::shown::{kind_name, put_quoted};
use crate::trees::tree_command;
use b2_base::token::Token;
use jam_lexer::fault::LexFault;
use jam_lexer::lex;
use std::alloc::Global;
use std::mem::ManuallyDrop;
use transcript::answer::Answer;
use transcript::case_fault::CaseFault;
use transcript::command::Command;

/// Why a text has no tokens, on a line.
pub fn fault_answer(alloc: Global, fault: &LexFault) -> Result<Answer, CaseFault> {
    match fault {
        LexFault::OutOfMemory => Err(CaseFault::OutOfMemory),
        _ => {
            let text = ManuallyDrop::new(format!(in alloc; "{fault}")?);
            Answer::line(alloc, text.as_str())
        }
    }
}

/// Adds a token as LINE START-END KIND "TEXT".
fn push_token(answer: &mut Answer, token: &Token) {
    answer.put_number(token.line as u64);
    answer.put(" ");
    answer.put_number(token.start as u64);
    answer.put("-");
    answer.put_number(token.end as u64);
    answer.put(" ");
    answer.put(kind_name(token.kind));
    answer.put(" ");
    put_quoted(answer, token.text.as_str());
    answer.end_line();
}

/// Each token on a line of its own.
fn tokens_answer(alloc: Global, tokens: &[Token]) -> Result<Answer, CaseFault> {
    if tokens.is_empty() {
        return Answer::line(alloc, "no tokens");
    }
    let mut answer = Answer::new(alloc);
    for token in tokens {
        push_token(&mut answer, token);
    }
    Ok(answer)
}

fn lex_answer(alloc: Global, command: &Command) -> Result<Answer, CaseFault> {
    match lex(alloc, given(command)?) {
        Ok(tokens) => {
            let tokens = ManuallyDrop::new(tokens);
            tokens_answer(alloc, tokens.as_slice())
        }
        Err(fault) => fault_answer(alloc, &fault),
    }
}

/// Carries out `lex`, or another command.
pub fn token_command(
    alloc: Global,
    command: &Command,
    variables: &mut Variables,
) -> Result<Answer, CaseFault> {
    match command.name() {
        "lex" => lex_answer(alloc, command),
        _ => tree_command(alloc, command, variables),
    }
}
