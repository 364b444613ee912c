//! From a Jam file and words to a plan: the file is run, and the targets that the words name are planned in the graph that it
//! declares.
//!
//! # What is proved
//!
//! - Where files are visible, the lines of ECHO and the plan, or the first refusal, are those that the file and the words are
//!   defined to come to.
//! - Where the host failed, the lines begin those of the load.
//! - The outputs of a plan are apart. No fault of the host and no out of memory is within a refusal.
//! - Law: a file and words come to one thing.
#![tactic(auto)]

pub mod laws;
pub mod prepare;
