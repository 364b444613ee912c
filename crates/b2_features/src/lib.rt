//! The table of features: what each is called, which values and attributes it has, and what its values are composed of.
//!
//! # What is proved
//!
//! - The table of features is exact, and so is each fault, with its word.
#![tactic(auto)]

pub mod attribute;
mod checks;
pub mod fault;
pub mod feature;
mod implicit;
pub mod registry;
pub mod text_places;
