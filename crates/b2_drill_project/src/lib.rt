//! Laws of the project of a drill: what its load comes to. They stand apart from the program.
#![tactic(auto)]

pub mod laws;
