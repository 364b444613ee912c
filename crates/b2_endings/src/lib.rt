//! How an update ends that no fault has stopped: what it names, and what it says at the end of its report.
//!
//! # What is proved
//!
//! - The failed and skipped steps, the missing files and the cycle are those of the run, exactly.
//! - The lines of the report are exact.
#![tactic(auto)]

mod distinct;
pub mod ending;
pub mod failed_lists;
pub mod laws;
pub mod lines;
pub mod lists;
mod missing;
pub mod number_list;
