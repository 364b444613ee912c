//! The build text of the rules that run tests: its tree, and what it defines.
//!
//! # What is proved
//!
//! - `make_definitions` leaves what a run of the text leaves, and changes rules and actions alone. Where memory ran out, a first
//!   part of the definitions was made.
//! - Laws: the text reads as one tree.
//! - Laws: with eight turns or more its statements run to their end in any worlds, and leave its six definitions.
#![tactic(auto)]

pub mod defining;
pub mod laws;
pub mod text;
