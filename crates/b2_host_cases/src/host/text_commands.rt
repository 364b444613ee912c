//! Commands on texts and lists of them.
use crate::host::path_commands::path_command;
use b2_base::text::has_no_zero;
use b2_base::text_list::TextList;
use b2_memory::memory::MemoryHost;
use std::alloc::Global;
use std::mem::ManuallyDrop;
use transcript::answer::Answer;
use transcript::case_fault::CaseFault;
use transcript::command::{Command, Word};
use transcript::words::{only, own_texts};

/// `has_no_zero TEXT`: whether no byte is zero.
fn no_zero(alloc: Global, words: &[Word]) -> Result<Answer, CaseFault> {
    Answer::truth(alloc, has_no_zero(only(words)?))
}

/// `texts TEXT ..`: a list of texts, made of a vector of them again.
fn text_list(alloc: Global, words: &[Word]) -> Result<Answer, CaseFault> {
    let list = ManuallyDrop::new(TextList::from_vec(own_texts(alloc, words)?.into_vec()));
    Answer::texts(alloc, list.as_slice())
}

/// Carries out a command on texts, or another one.
pub fn text_command(
    alloc: Global,
    host: &mut MemoryHost,
    command: &Command,
) -> Result<Answer, CaseFault> {
    let words = command.words();
    match command.name() {
        "has_no_zero" => no_zero(alloc, words),
        "texts" => text_list(alloc, words),
        _ => path_command(alloc, host, command),
    }
}
