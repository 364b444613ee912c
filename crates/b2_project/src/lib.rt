//! Loading: the projects that a request names, their files, and what these declare.
//!
//! # What is proved
//!
//! Where files are visible:
//!
//! - `load` gives the projects, main targets and tables that a load is defined to give, or its first refusal, unless the host
//!   failed or memory ran out.
//! - The lines of ECHO and the turns left are told too.
//! - Where the host failed, the lines of ECHO begin those of the whole load.
//!
//! Over every host:
//!
//! - What is declared is what calls of projects declare that were all visited. A refusal of declaring is theirs.
//! - The lines of ECHO are those that the project's natives recorded.
//! - Each number is a place. A parent stands before its project.
//! - No frame, mark or step is left.
//! - No fault holds another one of the host or out of memory.
//!
//! Worked examples stand in `crates/b2_transcript`.
#![tactic(auto)]

pub mod laws;
pub mod load;
pub mod project;
mod toolset;
