//! The commands of four parts of a transcript, on what stands between the calls of project files and a plan: what calls declare
//! ([`declarations`]), what texts of a load name ([`references`]), how steps join a plan ([`outputs`]), and what main targets make
//! ([`conversions`]).
//!
//! What is put in place of a load, of tables or of steps lets them be, until the process ends: a crate that takes them apart proves
//! the drop of all that they hold, which costs more than the proof of its commands.
#![tactic(auto)]

mod answers;
pub mod conversions;
pub mod declarations;
pub mod outputs;
pub mod references;
mod words;
