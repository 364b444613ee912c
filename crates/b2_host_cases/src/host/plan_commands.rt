//! Commands on plans.
use crate::host::scan_commands::scan_command;
use b2_base::path_list::PathList;
use b2_memory::memory::MemoryHost;
use b2_plan::plan::Plan;
use b2_plan::step::{Step, StepList};
use std::alloc::Global;
use std::mem::ManuallyDrop;
use transcript::answer::Answer;
use transcript::case_fault::CaseFault;
use transcript::command::{Command, Word};
use transcript::words::{first, own_paths, path, text};

/// A step without inputs that has these outputs. Its texts are held where no exit drops them until it has them all.
fn step_of(alloc: Global, outs: &[Word]) -> Result<Step, CaseFault> {
    let name = text(alloc, "make")?;
    let line = text(alloc, "true")?;
    let outs = own_paths(alloc, outs)?;
    Ok(Step {
        name: ManuallyDrop::into_inner(name),
        text: ManuallyDrop::into_inner(line),
        outs,
        ins: PathList::new(alloc),
        dirs: PathList::new(alloc),
        always: false,
        notfile: false,
    })
}

/// Steps in order, the outputs of which stand between the words `>`.
fn steps_of(alloc: Global, words: &[Word]) -> Result<StepList, CaseFault> {
    let mut steps = StepList::new(alloc);
    for outs in words.split(|word| word.bytes() == b">".as_slice()) {
        steps.push(step_of(alloc, outs)?)?;
    }
    Ok(steps)
}

/// A plan of these steps that wants nothing; no more steps than a plan may have.
fn plan_of(alloc: Global, steps: StepList) -> Result<Plan, CaseFault> {
    if steps.as_slice().len() > 65536 {
        return Err(CaseFault::WrongWords);
    }
    Ok(Plan::new(alloc, steps, PathList::new(alloc), PathList::new(alloc))?)
}

/// `maker PATH OUT .. > OUT ..`: which of the steps with these outputs makes the path, from 1 on.
fn maker(alloc: Global, words: &[Word]) -> Result<Answer, CaseFault> {
    let (asked, outs) = first(words)?;
    let asked = path(alloc, asked)?;
    let plan = ManuallyDrop::new(plan_of(alloc, steps_of(alloc, outs)?)?);
    match plan.maker(&asked) {
        None => Answer::line(alloc, "none"),
        Some(step) => Answer::number(alloc, step as u64),
    }
}

/// Carries out a command on plans, or another one.
pub fn plan_command(
    alloc: Global,
    host: &mut MemoryHost,
    command: &Command,
) -> Result<Answer, CaseFault> {
    match command.name() {
        "maker" => maker(alloc, command.words()),
        _ => scan_command(alloc, host, command),
    }
}
