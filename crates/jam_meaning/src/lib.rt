//! What it means to evaluate the language of build files: definitions, laws and examples; and what native rules promise of a call.
//!
//! # What is proved
//!
//! The crate is definitions and laws of evaluation; jam_interp carries evaluation out.
//!
//! - Every form of statement is defined with exact turns, levels and faults.
//! - Turns never rise.
//! - Frames are closed, and those that stood bind the names that they bound, also after a fault.
//! - What is rolled back leaves no trace in the world.
#![tactic(auto)]

pub mod examples;
pub mod laws;
pub mod native_answer;
pub mod natives;
pub mod step;
