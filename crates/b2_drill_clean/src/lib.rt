//! Laws of the plan of a drill: its clean build is defined, and no file of it is large. They stand apart from the program.
#![tactic(auto)]

pub mod laws;
