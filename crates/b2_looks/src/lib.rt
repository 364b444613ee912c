//! Which steps of a plan are stale: each step is looked at as its inputs settle, and judged once all that it reads is
//! settled.
//!
//! [`looks::Looks::look_all`] looks at steps until none can be looked at. It starts nothing.
//!
//! # What is proved
//!
//! Over every host:
//!
//! - Steps are looked at until none can be.
//! - Each is judged once all that it reads is settled.
//!
//! Where files are visible, an update that is under way is so after each look:
//!
//! - What counts as settled is settled in the run, and what counts as stale is stale there.
//! - Each scanned file whose includes are known has its line in the log.
//! - By digests each fresh step has its record.
//! - Of each step that was judged stale and is to have a record, the members were asked for, and by digests digested.
#![tactic(auto)]

pub mod laws;
pub mod looks;
pub mod step_files;
