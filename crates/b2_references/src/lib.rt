//! What texts name in a loaded project: sources, values of dependency properties, target words; and what a request asks for.
//!
//! # What is proved
//!
//! - What a source, a value of a dependency property or a target word names is exact: a file, main targets in order, or
//!   nothing.
//! - The main targets that a project stands for are exact.
//! - The sets that a set of a request stands for are exact, and so is what a request asks for.
#![tactic(auto)]

pub mod asked;
pub mod default_sets;
mod entries;
mod groups;
mod hashed_text;
pub mod index;
mod lookups;
pub mod meaning;
pub mod name;
mod products;
mod project_search;
pub mod projects;
pub mod references;
mod request_word;
pub mod requests;
mod text_table;
mod written;
