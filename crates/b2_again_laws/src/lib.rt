//! Laws of sessions: a call that asks for the same again is of the same plan.
#![tactic(auto)]

pub mod laws;
