//! The commands by their names.
use crate::references::loads::Load;
use crate::references::questions::answered;
use std::alloc::Global;
use std::mem::ManuallyDrop;
use transcript::answer::Answer;
use transcript::case_fault::CaseFault;
use transcript::command::{Command, Word};
use transcript::session::Session;
use transcript::words::no_words;

/// The current load.
#[derive(Drop)]
pub struct References {
    load: ManuallyDrop<Load>,
}

impl References {
    /// An empty load.
    pub fn new(alloc: Global) -> References {
        References {
            load: ManuallyDrop::new(Load::new(alloc)),
        }
    }

    fn renew(&mut self, alloc: Global, words: &[Word]) -> Result<Answer, CaseFault> {
        no_words(words)?;
        *self = References::new(alloc);
        Answer::line(alloc, "ok")
    }
}

impl Session for References {
    fn carry_out(&mut self, alloc: Global, command: &Command) -> Result<Answer, CaseFault> {
        match command.name() {
            "new" => self.renew(alloc, command.words()),
            "project" => self.load.project(alloc, command.words()),
            "call" => self.load.call(alloc, command.words()),
            name => answered(alloc, &self.load, name, command.words()),
        }
    }
}
