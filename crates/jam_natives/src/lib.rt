//! The native and declaring rules of the language.
//!
//! # What is proved
//!
//! Where files are visible:
//!
//! - Each call of a native or declaring rule answers, changes and keeps exactly what a table of rows says.
//!
//! Everywhere:
//!
//! - A pattern that `regex` refuses though it reads as one is an input of that table.
//! - Nothing is kept while a mark stands.
//!
//! Worked examples, as evaluation calls the rules, stand in `crates/b2_transcript`.
#![tactic(auto)]

pub mod decl;
mod declaring;
pub mod glob;
mod importing;
pub mod laws;
pub mod native;
pub mod natives;
mod noting;
pub mod output_dirs;
pub mod pattern_match;
mod reading;
pub mod target;
pub mod texts;
