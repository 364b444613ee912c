//! Files as data, in memory: what stands at each path, and all that ever stood, with stamps that count from 1. Nothing
//! here is a call of a host: b2_memory makes the calls of these.
//!
//! # What is proved
//!
//! - What a store does to its files is exact: what stands at each path, and all that ever stood, with its stamps.
#![tactic(auto)]

pub mod contents;
pub mod file_bytes;
mod names;
pub mod places;
pub mod store;
pub mod version;
