//! Whether a step is fresh or stale, whose closure is all settled, and the record that is appended of it.
//!
//! [`verdict::by_stamps`] and [`verdict::verdict`] name the first point of staleness that holds, and [`record::record_of`] makes
//! the record of a step by the files as they stand.
//!
//! # What is proved
//!
//! - The first point of staleness that holds is named, by time stamps or by digests, or none.
//! - Where what is known is true of the files, a step without a point is fresh and a step with one is stale.
//! - The record that is made is the one that an update appends.
//! - A file is read only by digests, and at most once.
#![tactic(auto)]

mod comparing;
mod digests;
pub mod judging_mode;
pub mod laws;
mod older;
pub mod point;
pub mod record;
mod stamps;
pub mod step_numbers;
pub mod verdict;
