//! The command `spelled`.
use crate::expansion::Variables;
use crate::marks::mark_command;
use crate::shown::{as_text, kind_named, put_quoted};
use jam_spelling::lexeme::Lexeme;
use jam_spelling::spelled;
use std::alloc::Global;
use std::mem::ManuallyDrop;
use transcript::answer::Answer;
use transcript::case_fault::CaseFault;
use transcript::command::{Command, Word};

/// The lexeme of a kind and a text.
fn lexeme_of(alloc: Global, kind: &Word, text: &Word) -> Result<Lexeme, CaseFault> {
    let kind = kind_named(kind.as_str()?)?;
    let text = text.as_text(alloc)?;
    Ok(Lexeme { kind, text })
}

/// The lexemes of words that are kinds and texts by turns.
fn lexemes_of(alloc: Global, words: &[Word]) -> Result<Vec<Lexeme>, CaseFault> {
    let mut lexemes = Vec::new(alloc);
    for pair in words.chunks(2) {
        match pair {
            [kind, text] => lexemes.push(lexeme_of(alloc, kind, text)?)?,
            _ => return Err(CaseFault::WrongWords),
        }
    }
    Ok(lexemes)
}

/// The text in quotes.
fn spelled_answer(alloc: Global, words: &[Word]) -> Result<Answer, CaseFault> {
    let lexemes = ManuallyDrop::new(lexemes_of(alloc, words)?);
    let bytes = ManuallyDrop::new(spelled(alloc, lexemes.as_slice())?);
    let text = as_text(bytes.as_slice())?;
    let mut answer = Answer::new(alloc);
    put_quoted(&mut answer, text);
    answer.end_line();
    Ok(answer)
}

/// Carries out `spelled`, or another command.
pub fn lexeme_command(
    alloc: Global,
    command: &Command,
    variables: &mut Variables,
) -> Result<Answer, CaseFault> {
    match command.name() {
        "spelled" => spelled_answer(alloc, command.words()),
        _ => mark_command(alloc, command, variables),
    }
}
