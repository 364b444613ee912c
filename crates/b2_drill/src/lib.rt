//! What can happen in a session: files are edited, updates are made, and updates are stopped. A drill is such a session of a
//! generated project.
//!
//! # What is proved
//!
//! - The events of a drill are exactly those of the definition.
#![tactic(auto)]

pub mod drill;
pub mod event;
mod project;
