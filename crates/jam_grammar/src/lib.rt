//! The grammar of the language of build files: its trees, what derives them, and how they are spelled.
//!
//! # What is proved
//!
//! - The grammar, the trees and what each tree asks of the tokens are definitions.
//! - A machine that reads marks stops exactly at the first fault.
#![tactic(auto)]

pub mod examples;
pub mod laws;
pub mod mark;
pub mod tree;
