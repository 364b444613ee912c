//! The property texts of project files: how they are read, completed and checked, and what a list of pairs does not name.
//!
//! # What is proved
//!
//! - What each property text of a project file says in its directory is exact, and so is each fault, with its word.
//! - Two values of one feature are found.
#![tactic(auto)]

pub mod clashes;
pub mod completion;
pub mod cuts;
pub mod lists;
pub mod missing;
pub mod properties;
pub mod reading;
