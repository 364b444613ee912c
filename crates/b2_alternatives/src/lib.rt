//! The alternatives of a main target: which one a set of properties chooses, what its requirements make of the set, what it
//! depends on, and what it asks of those that use it.
//!
//! # What is proved
//!
//! - The alternative of a main target for a set, and what its requirements make of the set, are exact, or why there is none.
//!   The definition allows one answer at most.
//! - What a main target depends on is exact, in order.
//! - The first usage requirements that do not go together are found.
//! - Its own usage requirements, and those that an alias hands on, are exact.
//!
//! Worked examples stand in `crates/b2_transcript`.
#![tactic(auto)]

pub mod asker;
pub mod choosing;
mod conditions;
pub mod conflict;
pub mod dependencies;
pub mod fault;
pub mod known;
pub mod laws;
pub mod need;
mod need_list;
mod reading;
pub mod usage;
