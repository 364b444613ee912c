//! What calls of a host and a sink answer, as answers.
use b2_host::fault::{Failed, IoFault};
use std::alloc::Global;
use transcript::answer::Answer;
use transcript::case_fault::CaseFault;

/// The answer to a call that failed; out of memory is no answer.
pub fn fault_answer(alloc: Global, fault: IoFault) -> Result<Answer, CaseFault> {
    match fault {
        IoFault::Failed => Answer::line(alloc, "Failed"),
        IoFault::OutOfMemory => Err(CaseFault::OutOfMemory),
    }
}

/// The answer to a call that has nothing to tell but whether it failed.
pub fn io_answer(alloc: Global, done: Result<(), IoFault>) -> Result<Answer, CaseFault> {
    match done {
        Ok(()) => Answer::line(alloc, "Ok"),
        Err(fault) => fault_answer(alloc, fault),
    }
}

/// Shows the step of a child process that has ended, and how.
pub fn push_ended(answer: &mut Answer, step: u32, well: bool) {
    answer.put_number(step as u64);
    answer.push_line(if well { " well" } else { " badly" });
}

/// Which child process has ended, and how.
pub fn ended_answer(
    alloc: Global,
    ended: Result<(u32, bool), Failed>,
) -> Result<Answer, CaseFault> {
    let mut answer = Answer::new(alloc);
    match ended {
        Ok((step, well)) => push_ended(&mut answer, step, well),
        Err(Failed) => answer.push_line("Failed"),
    }
    Ok(answer)
}

/// A line of bytes.
pub fn bytes_answer(alloc: Global, bytes: &[u8]) -> Result<Answer, CaseFault> {
    let mut answer = Answer::new(alloc);
    answer.put_bytes(bytes);
    answer.end_line();
    Ok(answer)
}
