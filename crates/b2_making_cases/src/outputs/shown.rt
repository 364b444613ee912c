//! Answers as lines.
use crate::answers::{push_happened, push_too_many};
use b2_base::path::Path;
use b2_plan::step::Step;
use b2_virtual::fault::VirtualFault;
use std::alloc::Global;
use transcript::answer::Answer;
use transcript::case_fault::CaseFault;

/// A refusal in its words.
pub fn refused(alloc: Global, fault: &VirtualFault) -> Result<Answer, CaseFault> {
    let mut answer = Answer::new(alloc);
    match fault {
        VirtualFault::PathClash { path } => {
            push_happened(&mut answer, "path clash", path.as_str());
        }
        VirtualFault::LocationOutside { path } => {
            push_happened(&mut answer, "location outside", path.as_str());
        }
        VirtualFault::TooManySteps { count } => push_too_many(&mut answer, *count),
        VirtualFault::OutOfMemory => answer.cut(),
    }
    Ok(answer)
}

/// The number of a step, or why it is refused.
pub fn number_answer(
    alloc: Global,
    added: &Result<u32, VirtualFault>,
) -> Result<Answer, CaseFault> {
    match added {
        Ok(number) => Answer::number(alloc, u64::from(*number)),
        Err(fault) => refused(alloc, fault),
    }
}

/// A path, or why there is none.
pub fn path_answer(alloc: Global, path: &Result<Path, VirtualFault>) -> Result<Answer, CaseFault> {
    match path {
        Ok(path) => Answer::line(alloc, path.as_str()),
        Err(fault) => refused(alloc, fault),
    }
}

/// Steps with their numbers and outputs.
pub fn steps_answer(alloc: Global, steps: &[Step]) -> Result<Answer, CaseFault> {
    let mut answer = Answer::new(alloc);
    for (place, step) in steps.iter().enumerate() {
        answer.put_number((place + 1) as u64);
        answer.put_space();
        answer.put(step.name.as_str());
        answer.put_paths(step.outs.as_slice());
        answer.end_line();
    }
    Ok(answer)
}
