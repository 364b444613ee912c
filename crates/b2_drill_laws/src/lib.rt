//! Laws of drills: each update answers Ok or out of memory. They stand apart from the program.
#![tactic(auto)]

pub mod laws;
