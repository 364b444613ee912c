//! The walk over the directories of projects: in which order they are visited, which project files a load runs, and what these
//! record and name.
//!
//! # What is proved
//!
//! Always:
//!
//! - The way to a directory, the project files of each, modules and parents are exact.
//! - Which of the named directories is the next, and what the recorded calls are and name, is exact.
//!
//! Where files are visible:
//!
//! - The walk ends as `specs/Walks` says, or with its first refusal, unless the host failed or memory ran out.
//! - The world, the turns and the recorded calls that stand then are told too.
//! - Where the host failed, the lines that were recorded begin those of the whole walk.
//!
//! Over every host:
//!
//! - Each directory that the calls or the words name was visited, once, with the nearest project above it as its parent. A
//!   parent stands before its project.
//! - No frame, mark or step is left.
//! - A fault of the host comes only where one of its calls failed.
//!
//! The calls of a walk are those that its natives recorded, in order. Worked examples of whole loads stand in
//! `crates/b2_transcript`.
#![tactic(auto)]

mod calls;
mod directories;
pub mod fault;
pub mod laws;
mod project_file;
mod queue;
mod running;
mod text;
mod visits;
pub mod walk;
