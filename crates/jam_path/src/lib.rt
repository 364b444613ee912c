//! The five parts of a file name, and patterns on names.
//!
//! # What is proved
//!
//! - The parts of a file name are exact, and so is the name that parts make.
//! - A pattern matches a name exactly where its relation holds.
#![tactic(auto)]

pub mod cut;
pub mod glob;
pub mod laws;
pub mod name;
pub mod name_parts;
mod piece;
mod walk;
