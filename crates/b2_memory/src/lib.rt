//! The outside in memory: a host whose files, children and reads are visible and whose calls fail where they are told to,
//! and a sink of the same kind.
//!
//! # What is proved
//!
//! - Each call of the host in memory is a function of all that the host is.
//! - The host tells everything.
//! - A call fails exactly where it was told to fail.
#![tactic(auto)]

mod child_table;
mod made;
pub mod memory;
pub mod memory_job;
pub mod memory_sink;
mod read_notes;
pub mod result_laws;
pub mod running_child;
mod script;
