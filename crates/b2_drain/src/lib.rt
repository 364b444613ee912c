//! Waits for the children that an update has left.
//!
//! # What is proved
//!
//! - Each child is waited for once. A wait that failed is not tried again, so for each child that is left a wait failed.
//! - Where files are visible, an update that has stopped still has: its log, its reads and what it made stand as they stood,
//!   and more of its steps have ended.
#![tactic(auto)]

pub mod drain;
