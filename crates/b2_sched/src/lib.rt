//! The scheduler of an update, over numbers of steps alone.
//!
//! # What is proved
//!
//! - Each call gives the lowest step that can be looked at or started, exactly.
//! - The failed and skipped steps, and the cycle of those that are stuck, are exact.
//! - Laws join what a scheduler was told to the runs of b2_runs.
#![tactic(auto)]

mod cycles;
pub mod laws;
mod needs;
mod number_set;
mod numbers;
pub mod reach;
pub mod sched;
mod skips;
pub mod state;
