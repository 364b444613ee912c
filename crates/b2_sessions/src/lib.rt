//! Sessions over a host in memory: files are edited, updates are made, and updates are stopped, one after another.
//!
//! # What is proved
//!
//! - `run_session` runs edits, updates and stops, each exactly as it is defined for the host in memory, with one answer for
//!   each update and stop.
//! - They are a session. A true log stays true.
//! - After a last update with Ok the wanted files are clean.
#![tactic(auto)]

mod call;
mod change;
pub mod fault;
mod happen;
pub mod session;
