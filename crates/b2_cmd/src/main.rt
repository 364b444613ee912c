//! The program `b2`.
//!
//! # What is proved
//!
//! `main` is safe and meets the conditions of what it calls. Nothing else is proved of it.
#![tactic(auto)]

use b2_program::command_line::words_of;
use b2_program::program::run_program;
use b2_realhost::real_host::RealHost;
use b2_realhost::real_sink::RealSink;
use std::process::ExitCode;

/// Carries out the words of the command line over the system, and ends with the status of the answer.
fn main(rt: HostRuntime) -> ExitCode {
    match words_of(&rt) {
        Ok(words) => {
            let mut host = RealHost::new(rt);
            let mut out = RealSink::new(rt);
            ExitCode::from(run_program(rt.alloc(), words.as_slice(), &mut host, &mut out))
        }
        Err(fault) => ExitCode::from(fault.status()),
    }
}
