//! Types of files, generators between them, and chains of generators.
//!
//! # What is proved
//!
//! - The table of types of files and generators is exact.
//! - The chain from one type to another is exact. It is the only shortest one, or there is none, or the two shortest are named
//!   that come first by registration.
#![tactic(auto)]

pub mod chain;
pub mod fault;
pub mod generator;
mod generator_table;
mod givers;
pub mod laws;
mod layers;
mod paths;
mod places;
mod type_table;
pub mod types;
mod walk;
