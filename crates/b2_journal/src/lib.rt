//! The log's file: as it stands, at the start of an update, and while lines are appended.
//!
//! [`reading::read`] tells how the file stands and changes nothing. [`journal::Journal::open`] reads it and replaces it where
//! it is torn, long or too large; [`journal::Journal::note`] appends a line.
//!
//! # What is proved
//!
//! Over every host:
//!
//! - Opening the log and appending to it change nothing but its file, the reads and the count of faults.
//! - Each line is good.
//!
//! Where files are visible:
//!
//! - The lines to begin with are those that the bytes at entry call for.
//! - The file has them, and each line that was appended.
//! - Where a call fails, the file has a front of what was being written.
#![tactic(auto)]

pub mod journal;
pub mod laws;
pub mod log_reading;
mod opening;
pub mod opening_rule;
