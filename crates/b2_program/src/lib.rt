//! The program: the words of the command line, the command that they are for, and the status that it ends with.
//!
//! # What is proved
//!
//! - `run_program` keeps what docs/PROMISES.md promises of it: which command is called, and what each status says.
//! - The words of the command line are handed on as they are.
#![tactic(auto)]

pub mod command_line;
mod commands;
pub mod program;
