//! The command on words.
use crate::words::shown::words_shown;
use b2_base::text::Text;
use b2_command_line::fault::WordsFault;
use b2_command_line::reader::read_words;
use std::alloc::Global;
use std::mem::ManuallyDrop;
use transcript::answer::Answer;
use transcript::case_fault::CaseFault;
use transcript::command::Command;
use transcript::session::Session;
use transcript::words::texts;

/// Nothing is kept from one command line to the next.
#[derive(Drop)]
pub struct CommandLine;

fn answer(alloc: Global, words: &[Text]) -> Result<Answer, CaseFault> {
    match read_words(alloc, words) {
        Ok(words) => {
            let words = ManuallyDrop::new(words);
            words_shown(alloc, &words)
        }
        Err(WordsFault::Usage) => Answer::line(alloc, "usage"),
        Err(WordsFault::OutOfMemory) => Err(CaseFault::OutOfMemory),
    }
}

impl Session for CommandLine {
    fn carry_out(&mut self, alloc: Global, command: &Command) -> Result<Answer, CaseFault> {
        match command.name() {
            "read_words" => answer(alloc, texts(alloc, command.words())?.as_slice()),
            _ => Err(CaseFault::UnknownCommand),
        }
    }
}
