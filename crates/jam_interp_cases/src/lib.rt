//! The commands of two parts of a transcript: the world of a build file, with names, rules, marks and native rules ([`world`]), and
//! statements that are run over files in memory ([`evaluation`]).
//!
//! What a command puts in place of a world, of native rules or of a host lets them be, until the process ends: a crate that takes
//! them apart proves the drop of all that they hold, which costs more than the proof of its commands.
#![tactic(auto)]

pub mod evaluation;
mod host_files;
mod shown;
pub mod world;
