//! The program over the system.
use crate::real::system::System;
use b2_base::text::Text;
use b2_program::program::run_program;
use b2_realhost::real_host::RealHost;
use b2_realhost::real_sink::RealSink;
use std::alloc::Global;
use transcript::answer::Answer;
use transcript::case_fault::CaseFault;

/// `b2 WORDS`: one command of the program in the folder, with its status; what it prints comes before.
pub fn program<R: System>(alloc: Global, rt: R, words: &[Text]) -> Result<Answer, CaseFault> {
    let mut host = RealHost::new(rt);
    let mut out = RealSink::new(rt);
    let status = run_program(alloc, words, &mut host, &mut out);
    let mut answer = Answer::new(alloc);
    answer.put("status ");
    answer.put_number(u64::from(status));
    answer.end_line();
    Ok(answer)
}
