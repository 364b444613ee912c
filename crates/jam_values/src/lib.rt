//! What evaluation does without evaluating further: lists joined, arguments taken by parameters, conditions on lists, the
//! case of a `switch`, and files read.
//!
//! # What is proved
//!
//! - Joining stays within the limit.
//! - The bindings of a call, or that it cannot take its arguments, are exact.
//! - Conditions on lists, and the chosen case of a `switch`, are exact.
//! - How a file reads is exact.
#![tactic(auto)]

pub mod bindings;
pub mod cases;
pub mod conditions;
pub mod files;
pub mod joining;
pub mod laws;
pub mod lists;
pub mod params;
pub mod paths;
