//! Laws of the plan of a drill: what generation gives for its main targets. They stand apart from the program.
#![tactic(auto)]

pub mod laws;
