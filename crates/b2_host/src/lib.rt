//! What a build needs of the outside: files, child processes and a place to write to.
//!
//! # What is proved
//!
//! The traits of files, child processes and output say what each host keeps. A law here holds for each host that meets them.
//!
//! - Each call is a relation on all that a host is, before and after.
//! - What every call keeps is said once, and it composes.
//! - A call fails only where one may fail. A host that may not fail never does.
//! - It is said which calls change the log alone.
#![tactic(auto)]

pub mod children;
pub mod fault;
pub mod files;
pub mod log_file;
pub mod sink;
