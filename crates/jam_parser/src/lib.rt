//! The tree of tokens, or the first token at which there is none.
//!
//! # What is proved
//!
//! - The tree of a file, or its first syntax error, is exactly that of the grammar.
#![tactic(auto)]

mod args;
mod exprs;
pub mod fault;
mod heading;
mod params;
pub mod parse;
mod reading;
mod simple;
mod start;
mod stmts;
