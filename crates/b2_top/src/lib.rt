//! The commands of the program, from the words of the command line to the answer: a build, whose plan is carried out; a look, which
//! prints the steps or the table of a plan; an explanation, which tells why steps are to run; and cleaning, which removes what they
//! have made.
//!
//! # What is proved
//!
//! - `run_b2`, `run_jam`, `show_b2`, `explain_b2` and `clean_b2` keep what docs/PROMISES.md promises of them.
//! - The status of each answer is exact.
#![tactic(auto)]

pub mod answer;
mod asked;
mod build;
mod build_command;
pub mod clean;
pub mod explain;
pub mod jam;
mod jam_command;
pub mod laws;
pub mod lines;
mod look;
mod look_end;
mod look_lines;
pub mod mode;
pub mod run;
pub mod show;
pub mod tell;
mod verdicts;
