//! Laws of what the files of a drill come to: a plan, whatever pattern is refused. They stand apart from the program.
#![tactic(auto)]

pub mod laws;
