//! The log of actions: how its lines are written and read, and what it tells.
//!
//! # The lines
//!
//! A line is a list of fields. A tab stands between two of them, and a line feed at the end. In a field a backslash, a tab
//! and a line feed are written `\\`, `\t` and `\n`, and no other backslash stands. Numbers are decimal, below 2^64, without
//! leading zeros. Paths are in normal form. Texts are UTF-8 without zero bytes.
//!
//! | Line | Fields |
//! |---|---|
//! | a record | `+1`, text, number of outputs, path and stamp of each, number of inputs, path and stamp of each, `.` |
//! | a record with digests | `+2`, text, number of outputs, path, stamp and digest of each, number of inputs, path, stamp and digest of each, `.` |
//! | a drop | `-1`, number of outputs, their paths, `.` |
//! | a scan | `s1`, path, stamp, number of includes, for each of them `q` (in quotes) or `a` and its name, `.` |
//!
//! There is at least one output. Outputs stand in the step's order, inputs in byte order of path, each once. A digest is 64
//! lower-case hexadecimal digits. A log is read up to its first line of another form, or without its line feed.
//!
//! # What a log tells
//!
//! The subject of a line is its list of outputs, or the path that was scanned. Of each subject the last line counts, and
//! where that line is a drop, the log tells nothing of it. The kept lines are, in order, those that the log tells.
//!
//! # What is proved
//!
//! - The lines that are read are the longest good prefix of the bytes.
//! - A line that is written reads as what it was written from.
//! - What a log tells of a subject, and what is kept of it, is exact.
#![tactic(auto)]

mod field;
mod latest;
pub mod laws;
pub mod line;
mod line_fault;
mod list;
pub mod log;
pub mod proper;
mod read;
mod subject;
mod tag;
pub mod write;
