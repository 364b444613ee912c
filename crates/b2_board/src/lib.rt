//! What an update knows of its steps: a schedule, and the work on each step that was looked at.
//!
//! [`board::Board::look`] goes on with the work on a step as far as files are settled, and tells the schedule what it finds:
//! which steps the step needs, and whether it lacks a file. It says whether all that the step reads is settled; such a step is
//! then judged.
//!
//! # What is proved
//!
//! Over every host:
//!
//! - The schedule was told what the work on each step has found.
//! - A step that cannot be looked at was seen. A step that is judged has all that it reads settled.
//!
//! In a run in which what is known is true:
//!
//! - What the schedule was told is so. At rest it is all.
#![tactic(auto)]

pub mod board;
pub mod laws;
mod needs;
pub mod steps;
pub mod waiting;
pub mod work;
