//! Laws of the load of a drill: what its project file does and declares. They stand apart from the program.
#![tactic(auto)]

pub mod laws;
