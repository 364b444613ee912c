//! What the declaring calls of a load make of it: features, types and generators, projects and main targets.
//!
//! # What is proved
//!
//! - What the recorded calls of a load make is exact: the tables, then the projects and main targets with the properties of
//!   their texts.
//! - Else the first call that is refused is answered, with its file, line and cause.
//!
//! Worked examples of whole loads stand in `crates/b2_transcript`.
#![tactic(auto)]

mod directories;
pub mod fault;
mod gathered;
pub mod ids;
mod lists;
mod numbers;
pub mod outcome;
pub mod place;
pub mod tables;
pub mod visit;
pub mod whole;
