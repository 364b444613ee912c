//! The commands of two parts of a transcript, on features and sets of properties, and on what they decide. A property is written
//! `<feature>value` in both.
//!
//! - [`properties`]: features, sets of properties, requests, property texts of project files.
//! - [`refinement`]: requirements and their rounds, choices among alternatives, types, generators and chains, the gcc toolset.
#![tactic(auto)]

mod declaring;
mod pairs;
pub mod properties;
pub mod refinement;
mod shown;
