//! The gcc toolset: the features, types and generators that it declares, and the build text with its rules and actions.
//!
//! # What is proved
//!
//! - The gcc toolset is declared exactly by its tables.
//! - The first refused declaration is answered. Nothing is refused where nothing else is there.
//! - The build text is exact, with any command.
#![tactic(auto)]

pub mod features;
mod owned;
pub mod text;
pub mod types;
