//! Laws of sessions, over builds of projects and of Jam files: what was done is not done again, and what a stop keeps. They stand
//! apart from the program, whose calls are proved to be such calls.
#![tactic(auto)]

pub mod calls;
pub mod neighbours;
pub mod stops;
