//! What single statements do: names that are looked up, assigned and appended to, frames, included files, native calls, words and
//! turns.
//!
//! # What is proved
//!
//! - What each function promises holds over any native rules whose meaning is told.
//! - No fault at a line holds that memory ran out. That is told by itself.
#![tactic(auto)]

pub mod actions;
pub mod at;
pub mod calling;
pub mod fault;
pub mod flow;
pub mod frames;
pub mod including;
pub mod lending;
pub mod naming;
pub mod natives;
pub mod turns;
pub mod words;
