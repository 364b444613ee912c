//! What each step is known to read so far, by the numbers of files, and how that grows as files settle.
//!
//! [`reach::Reach::open`] begins with the inputs of a step. [`reach::Reach::go_on`] takes in each file that is settled: it is
//! scanned, and the files that its includes are found at come in too. A file whose maker is not settled waits, and is taken in
//! by a later call.
//!
//! # What is proved
//!
//! Over every host:
//!
//! - The members of a step are reached from its inputs.
//! - Each member at a place that is done was scanned, waits for its maker, or is missing.
//! - Nothing changes on the host but the log's file.
//!
//! Where files are visible and a run is under way:
//!
//! - The members are known to be read. They are all that is known to be read where nothing waits.
//! - Each read is called for, and leaves its line.
#![tactic(auto)]

mod due;
pub mod laws;
pub mod reach;
pub mod sights;
