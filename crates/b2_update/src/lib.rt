//! The update: what is stale is built, and nothing else.
//!
//! # What is proved
//!
//! - An update of any plan whose outputs are apart keeps what `run_b2` promises.
//! - Where a wait failed a child is left, since the wait was not tried again.
#![tactic(auto)]

mod answering;
mod hearing;
pub mod options;
pub mod run;
mod starting;
pub mod stop;
pub mod update;
pub mod update_answer;
mod working;
