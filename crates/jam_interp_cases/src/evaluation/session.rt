//! The current machine, and how files are run on it.
use crate::evaluation::calls::call_rule;
use crate::evaluation::looks::look_command;
use crate::evaluation::machine::Machine;
use crate::evaluation::running::run_text;
use crate::evaluation::steps::text_of_step;
use b2_base::fault::OutOfMemory;
use b2_base::text::Text;
use jam_interp::turns::Turns;
use std::alloc::Global;
use transcript::answer::Answer;
use transcript::case_fault::CaseFault;
use transcript::command::{Command, Word};
use transcript::session::Session;
use transcript::words::{number, only, own_text};

/// A machine, the module of the files that are run, and the turns of a run.
#[derive(Drop)]
pub struct Evaluation {
    machine: Machine,
    module: Text,
    budget: u32,
    left: u32,
}

/// Gives each run so many turns.
pub fn set_turns(alloc: Global, budget: &mut u32, words: &[Word]) -> Result<Answer, CaseFault> {
    *budget = number(only(words)?)?;
    Ok(Answer::new(alloc))
}

fn set_module(alloc: Global, module: &mut Text, words: &[Word]) -> Result<Answer, CaseFault> {
    *module = own_text(alloc, only(words)?)?;
    Ok(Answer::new(alloc))
}

/// Carries out `run`, `call_rolled` or `step_text`.
fn evaluate(
    alloc: Global,
    machine: &mut Machine,
    module: &Text,
    command: &Command,
    turns: &mut Turns,
) -> Result<Answer, CaseFault> {
    match command.name() {
        "run" => run_text(alloc, machine, module.as_str(), command, turns),
        "call_rolled" => call_rule(alloc, machine, module.as_str(), command.words(), turns),
        _ => text_of_step(alloc, machine, module, command.words(), turns),
    }
}

impl Evaluation {
    /// An empty world without files.
    pub fn new(alloc: Global) -> Result<Evaluation, OutOfMemory> {
        let machine = Machine::new(alloc)?;
        let module = Text::new(alloc, "")?;
        Ok(Evaluation {
            machine,
            module,
            budget: 1_000_000,
            left: 0,
        })
    }

    /// Carries out a command that takes turns, and keeps how many of them it left.
    fn take_turns(&mut self, alloc: Global, command: &Command) -> Result<Answer, CaseFault> {
        let mut turns = Turns::new(self.budget);
        let answer = evaluate(alloc, &mut self.machine, &self.module, command, &mut turns);
        self.left = turns.left;
        answer
    }

    /// Carries out a command on the machine.
    fn on_machine(&mut self, alloc: Global, command: &Command) -> Result<Answer, CaseFault> {
        match command.name() {
            "run" | "call_rolled" | "step_text" => self.take_turns(alloc, command),
            _ => look_command(alloc, &mut self.machine, self.module.as_str(), command),
        }
    }

    fn renew(&mut self, alloc: Global) -> Result<Answer, CaseFault> {
        *self = Evaluation::new(alloc)?;
        Ok(Answer::new(alloc))
    }
}

impl Session for Evaluation {
    fn carry_out(&mut self, alloc: Global, command: &Command) -> Result<Answer, CaseFault> {
        let words = command.words();
        match command.name() {
            "new" => self.renew(alloc),
            "turns" => set_turns(alloc, &mut self.budget, words),
            "module" => set_module(alloc, &mut self.module, words),
            "left" => Answer::number(alloc, self.left as u64),
            _ => self.on_machine(alloc, command),
        }
    }
}
