//! The groups of the first match of a regular expression in a text.
//!
//! # What is proved
//!
//! - The groups of the first match are exact, for each pattern that `regex` takes.
#![tactic(auto)]

pub mod groups;
pub mod laws;
pub mod native_fault;
pub mod refusal;
