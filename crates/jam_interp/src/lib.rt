//! Evaluation of the statements of build files.
//!
//! # What is proved
//!
//! `run`, `call_rolled` and `step_text`, over any native rules whose meaning is told and any files that are visible:
//!
//! - They give what evaluation is defined to give, unless the host failed or memory ran out.
//! - The turns, and the file and line of each fault, are exact.
//! - Where the host failed, each list of texts to which natives only add begins the one that it is defined to have.
//!
//! After any end:
//!
//! - The frames are those of entry and bind the same names.
//! - Files and child processes are untouched.
//! - A call from outside and a step's text leave the world of entry.
//! - That memory ran out is told by itself, and never within a fault at a line.
#![tactic(auto)]

mod arguments;
mod calls;
mod conditions;
pub mod rolled;
pub mod run;
mod statements;
pub mod step;

pub use jam_effects::{fault, turns};
