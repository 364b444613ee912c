//! What an update has found of files, by their numbers. What was asked is kept, until a step that makes the file starts.
//!
//! # What is proved
//!
//! Over every host:
//!
//! - What is known of a file grows and is never changed, but for the outputs of a step that starts or fails.
//! - Each call looks at one file, or at places of its includes outside the output roots.
//!
//! Where files are visible:
//!
//! - All that is known is true of the files as they stand, as long as the files of which something is known do not change.
#![tactic(auto)]

pub mod digests;
pub mod facts;
pub mod fault;
pub mod file_facts;
pub mod finds;
mod found_map;
pub mod laws;
mod list_table;
pub mod scans;
pub mod stamps;
pub mod stop;
