//! The commands of two parts of a transcript, on the whole program: its builds and looks over a host and a sink in memory
//! ([`memory`]); and real files and child processes, with looks and a build over these ([`real`]). The head of each part of the
//! transcript tells its commands.
#![tactic(auto)]

pub mod memory;
pub mod real;
