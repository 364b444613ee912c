//! The command `mark_of`.
use crate::expansion::Variables;
use crate::names::name_command;
use crate::shown::kind_named;
use b2_base::token::{Token, TokenKind};
use jam_grammar::mark::{TokenMark, mark_of};
use std::alloc::Global;
use std::mem::ManuallyDrop;
use transcript::answer::Answer;
use transcript::case_fault::CaseFault;
use transcript::command::{Command, Word};

/// The name of a sign, or of what is neither a sign nor a reserved word.
fn sign_name(mark: TokenMark) -> &'static str {
    match mark {
        TokenMark::Plain => "Plain",
        TokenMark::Query => "Query",
        TokenMark::Star => "Star",
        TokenMark::Plus => "Plus",
        TokenMark::Together => "Together",
        TokenMark::Existing => "Existing",
        TokenMark::Quietly => "Quietly",
        TokenMark::Body => "Body",
        TokenMark::Semicolon => "Semicolon",
        TokenMark::Colon => "Colon",
        TokenMark::BraceOpen => "BraceOpen",
        TokenMark::BraceClose => "BraceClose",
        TokenMark::SquareOpen => "SquareOpen",
        TokenMark::SquareClose => "SquareClose",
        TokenMark::ParenOpen => "ParenOpen",
        TokenMark::ParenClose => "ParenClose",
        TokenMark::Equals => "Equals",
        TokenMark::PlusEquals => "PlusEquals",
        TokenMark::QueryEquals => "QueryEquals",
        TokenMark::NotEquals => "NotEquals",
        TokenMark::Not => "Not",
        TokenMark::And => "And",
        TokenMark::Or => "Or",
        _ => "Unknown",
    }
}

/// As the answers of `mark_of` show it.
fn mark_name(mark: TokenMark) -> &'static str {
    match mark {
        TokenMark::Actions => "Actions",
        TokenMark::Case => "Case",
        TokenMark::Else => "Else",
        TokenMark::For => "For",
        TokenMark::If => "If",
        TokenMark::In => "In",
        TokenMark::Include => "Include",
        TokenMark::Local => "Local",
        TokenMark::Module => "Module",
        TokenMark::On => "On",
        TokenMark::Return => "Return",
        TokenMark::Rule => "Rule",
        TokenMark::Switch => "Switch",
        TokenMark::While => "While",
        _ => sign_name(mark),
    }
}

/// The name of the mark of a token of this kind and text.
fn token_mark(alloc: Global, kind: TokenKind, text: &Word) -> Result<&'static str, CaseFault> {
    let token = ManuallyDrop::new(Token {
        kind,
        text: text.as_text(alloc)?,
        line: 1,
        start: 0,
        end: 0,
    });
    Ok(mark_name(mark_of(&token)))
}

/// The names of the marks of texts of one kind.
fn marks_answer(alloc: Global, words: &[Word]) -> Result<Answer, CaseFault> {
    let Some((kind, texts)) = words.split_first() else {
        return Err(CaseFault::WrongWords);
    };
    let kind = kind_named(kind.as_str()?)?;
    let mut answer = Answer::new(alloc);
    for text in texts {
        answer.put_space();
        answer.put(token_mark(alloc, kind, text)?);
    }
    answer.end_line();
    Ok(answer)
}

/// Carries out `mark_of`, or another command.
pub fn mark_command(
    alloc: Global,
    command: &Command,
    variables: &mut Variables,
) -> Result<Answer, CaseFault> {
    match command.name() {
        "mark_of" => marks_answer(alloc, command.words()),
        _ => name_command(alloc, command, variables),
    }
}
