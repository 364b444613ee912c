//! The graph that a plain Jam file declares: the file is run, its calls are recorded, and they make the graph.
//!
//! # What is proved
//!
//! - The answer of `jam_load` is what the file comes to by `specs/Loads`: the lines of ECHO, and the graph or the first refusal.
//! - Each graph that is answered can be planned: no frame is open in its world, and each act has a target and actions that stand.
//! - A load changes no file and starts no process. A fault of the host is answered only where a call of the host failed.
//! - No refusal holds that the host failed or that memory ran out. These two are told by themselves.
#![tactic(auto)]

mod declaring;
pub mod fault;
pub mod graph;
pub mod load;
pub mod natives;
mod ready;
pub mod rule;
pub mod said;
