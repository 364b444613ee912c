//! A loaded project's own text, evaluated: what its rules return, and the texts of steps.
//!
//! # What is proved
//!
//! Where files are visible:
//!
//! - What a rule of a project returns, and the text of a step, are those of evaluation in the world that loading left, with
//!   100,000 turns each. The host may fail, memory may run out, or a pattern may be refused instead.
//! - A question that is asked by itself ends with a refused pattern only as evaluation does in which that pattern is refused.
//! - The same text with that fault given is told too.
//!
//! Over every host:
//!
//! - The world, files and child processes are as before.
//! - No count of faults falls.
//!
//! Laws:
//!
//! - The setting by which answers are told is right.
//! - A fault that is given changes the answer of its question alone.
#![tactic(auto)]

mod evaluating;
pub mod laws;
pub mod lending_moment;
pub mod lent_host;
pub mod loaded_world;
pub mod own_text;
pub mod question;
pub mod refused;
pub mod refusing;
