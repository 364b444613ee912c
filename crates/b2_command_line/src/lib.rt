//! The words of the command line: which command they ask for, with which options, and the words that are no options.
//!
//! `reader::read_words` answers `Usage` exactly where the words are not of the grammar, which `specs/Words` defines apart
//! from the code; else it answers what the grammar gives. `jam::read_jam_words` does so for plain Jam mode, by `specs/JamWords`.
//!
//! # What is proved
//!
//! - The words of the command line are refused exactly where they are not of the grammar, which is defined apart from clap.
//! - Else they give the command, its options, and the other words in order.
//! - Words that begin with `-f` are refused exactly where no FILE follows, it is empty, or the words after it are not those of a
//!   build. Else they give FILE, the options of the build, and the targets in order.
#![tactic(auto)]

pub mod fault;
mod grouped;
pub mod jam;
pub mod lead;
mod number;
mod parser;
pub mod reader;
mod values;
pub mod words;
