//! Laws that join evaluation to the host: what is seen of each consistent disk.
//!
//! # What is proved
//!
//! Contracts of other crates say something for every right setting. This crate proves that there is one, so they are not empty.
//!
//! - Over each host whose files are visible there is a right sight of them.
//! - There is a right setting for each evaluation and each load.
#![tactic(auto)]

pub mod laws;
