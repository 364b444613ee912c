//! Laws of generation and of plans.
#![tactic(auto)]

pub mod laws;
