//! The commands that declare the gcc toolset.
use crate::refinement::types::type_command;
use crate::shown::told;
use b2_base::text::Text;
use b2_gcc::text::gcc_text;
use b2_gcc::types::{declare_generators, declare_types};
use b2_generators::types::Types;
use std::alloc::Global;
use std::mem::ManuallyDrop;
use transcript::answer::Answer;
use transcript::case_fault::CaseFault;
use transcript::command::{Command, Word};
use transcript::words::no_words;

fn text_lines(alloc: Global, command: Option<&Text>) -> Result<Answer, CaseFault> {
    let bytes = ManuallyDrop::new(gcc_text(alloc, command)?);
    match str::from_utf8(bytes.as_slice()) {
        Ok(text) => {
            let mut answer = Answer::new(alloc);
            answer.push_text(text);
            Ok(answer)
        }
        Err(_) => Err(CaseFault::WrongWords),
    }
}

fn shown_text(alloc: Global, words: &[Word]) -> Result<Answer, CaseFault> {
    match words {
        [] => text_lines(alloc, None),
        [word] => {
            let word = ManuallyDrop::new(word.as_text(alloc)?);
            text_lines(alloc, Some(&word))
        }
        _ => Err(CaseFault::WrongWords),
    }
}

/// Declares a part of the toolset or shows its text, or carries out another command.
pub fn gcc_command(
    alloc: Global,
    types: &mut Types,
    command: &Command,
) -> Result<Answer, CaseFault> {
    let words = command.words();
    match command.name() {
        "declare_types" => {
            no_words(words)?;
            told(alloc, declare_types(alloc, types))
        }
        "declare_generators" => {
            no_words(words)?;
            told(alloc, declare_generators(alloc, types))
        }
        "gcc_text" => shown_text(alloc, words),
        _ => type_command(alloc, types, command),
    }
}
