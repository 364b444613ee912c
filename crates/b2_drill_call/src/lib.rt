//! The drill command: the session of a generated project, over a host in memory, and one line that sums it up.
//!
//! # What is proved
//!
//! - What each answer of `run_drill` says is exact.
#![tactic(auto)]

mod asked;
pub mod drill;
mod session;
mod summary;
