//! The state of the part.
use crate::expansion::Variables;
use crate::tokens::token_command;
use std::alloc::Global;
use transcript::answer::Answer;
use transcript::case_fault::CaseFault;
use transcript::command::Command;
use transcript::session::Session;

/// The variables that the commands have set so far.
#[derive(Drop)]
pub struct Language {
    variables: Variables,
}

impl Language {
    /// No variable is set.
    pub fn new(alloc: Global) -> Language {
        Language {
            variables: Variables::new(alloc),
        }
    }
}

impl Session for Language {
    fn carry_out(&mut self, alloc: Global, command: &Command) -> Result<Answer, CaseFault> {
        token_command(alloc, command, &mut self.variables)
    }
}
