//! Answers, and lines of answers, of more than one part.
use std::alloc::Global;
use transcript::answer::Answer;
use transcript::case_fault::CaseFault;

/// Adds what happened, and the text that it happened to.
pub fn push_happened(answer: &mut Answer, what: &str, text: &str) {
    answer.put(what);
    answer.put(": ");
    answer.push_line(text);
}

/// Adds the number of steps that there would be.
pub fn push_too_many(answer: &mut Answer, count: u32) {
    answer.put_number(u64::from(count));
    answer.push_line(" steps");
}
