//! The commands by their names.
use crate::outputs::adding::adding_command;
use crate::outputs::shown::steps_answer;
use b2_virtual::builder::Builder;
use std::alloc::Global;
use std::mem;
use std::mem::ManuallyDrop;
use transcript::answer::Answer;
use transcript::case_fault::CaseFault;
use transcript::command::Command;
use transcript::session::Session;

/// The current steps.
#[derive(Drop)]
pub struct Outputs {
    builder: ManuallyDrop<Builder>,
}

impl Outputs {
    /// No steps.
    pub fn new(alloc: Global) -> Outputs {
        Outputs {
            builder: ManuallyDrop::new(Builder::new(alloc)),
        }
    }

    fn into_steps(&mut self, alloc: Global) -> Result<Answer, CaseFault> {
        let builder = mem::replace(&mut self.builder, ManuallyDrop::new(Builder::new(alloc)));
        let steps = ManuallyDrop::new(ManuallyDrop::into_inner(builder).into_steps());
        steps_answer(alloc, steps.as_slice())
    }
}

impl Session for Outputs {
    fn carry_out(&mut self, alloc: Global, command: &Command) -> Result<Answer, CaseFault> {
        match command.name() {
            "new" => {
                *self = Outputs::new(alloc);
                Ok(Answer::new(alloc))
            }
            "steps" => steps_answer(alloc, self.builder.steps()),
            "into_steps" => self.into_steps(alloc),
            _ => adding_command(alloc, &mut self.builder, command),
        }
    }
}
