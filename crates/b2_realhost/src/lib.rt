//! The system as a host: its files, and child processes of `sh`. Its standard output as a sink.
//!
//! Both keep the runtime that they are made with. What is proved is that they meet the traits: the count of faults rises
//! where a call fails and nowhere else, each child that was started and has not ended runs, and a listing is in byte order
//! without repeats. Neither tells what it holds: that files and child processes behave as the traits say is trusted.
//!
//! A caller of files alone needs a runtime with files and memory. One that starts children also needs processes, the clock and
//! waiting, and one that prints needs printing.
#![tactic(auto)]

mod fault_count;
mod listing;
mod real_files;
pub mod real_host;
pub mod real_sink;
mod system_files;
mod system_job;
mod waiting;
