//! The commands of three parts of a transcript, on what a build stands on: texts, paths and makers of a plan, with the host and the
//! sink in memory ([`host`]), the log of actions ([`log`]), and the words of the command line ([`words`]).
#![tactic(auto)]

pub mod answers;
pub mod host;
pub mod host_calls;
pub mod log;
pub mod words;
