//! What the program refuses, what it writes of a refusal, and the lines of its looks at a project.
//!
//! # What is proved
//!
//! - The line of each refusal, of a project as of a Jam file, of each row of a table and of each step is exact.
//! - Laws: why an evaluation has no value, or a load no project, is a refusal, unless the host failed or memory ran out.
#![tactic(auto)]

mod evaluations;
pub mod fault;
mod generations;
mod jam;
pub mod laws;
pub mod lines;
mod lists;
mod loads;
mod pieces;
