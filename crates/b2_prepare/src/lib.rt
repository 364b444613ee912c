//! From the free words of a command and the files of a folder to a plan: the projects are loaded, the request is read by what they
//! declare, and what it asks for is planned.
//!
//! # What is proved
//!
//! - Where files are visible, the lines of ECHO and the plan, or the first refusal, are those that the files and the words are
//!   defined to come to.
//! - Where the host failed, the lines begin those of the load. Where it failed in generation, they are all of them.
//! - Beside a plan stand the tests that it asks for, exactly.
//! - Laws: files and words come to one thing, and a plan asks for its tests in one way.
#![tactic(auto)]

mod again;
pub mod laws;
mod planning;
pub mod prepare;
pub mod refusal;
