//! Laws of the project file of a drill: its tokens, its tree and its size. They stand apart from the program.
#![tactic(auto)]

pub mod laws;
