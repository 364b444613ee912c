//! Tests: the main targets that they become, and what an update made of them.
//!
//! # What is proved
//!
//! - What tests become is what the definition says, behind the main targets of the load. The world is what the build text of the
//!   rules leaves, whose run cannot fault.
//! - Where memory ran out as they were added, a first part of the text's definitions stands, and a first part of their main targets.
//! - The tests that are asked for are those of the rows whose marker is a wanted file.
//! - Each of them has the verdict that the lists of the update give, exactly.
//! - Laws: a test has one verdict at most, and one where the update came to its end.
//! - Laws: the marker of a test that passed stands with its clean bytes, where its step is needed.
//! - Laws: each test that is asked for has a row, and its step is needed.
#![tactic(auto)]

mod adding;
pub mod laws;
pub mod pass_list;
pub mod requested;
pub mod tests;
pub mod verdict;
