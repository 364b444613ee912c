//! Words with variables, and the texts that they stand for.
//!
//! # What is proved
//!
//! - What a word or a body expands to is exact, with each fault.
#![tactic(auto)]

pub mod body;
mod change;
mod cut;
pub mod expand;
mod gather;
mod glue;
mod index;
pub mod laws;
pub mod limit;
mod modifiers;
mod piece;
mod plain;
mod product;
mod reference;
pub mod word;
