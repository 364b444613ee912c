//! The world of a running build file: variables in dynamic scopes, rules, own values of targets, the notes of an open step, and
//! what they were at marks.
//!
//! # What is proved
//!
//! - Definitions, names, own values, output roots and the notes of a step are those of plain data.
//! - Rolling back gives the world of the mark, whole.
#![tactic(auto)]

pub mod body;
pub mod mark;
pub mod notes;
mod parents;
mod roots;
pub mod rule;
pub mod rule_ref;
mod steps;
pub mod world;
