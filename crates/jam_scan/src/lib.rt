//! Which files a C or C++ source includes, where an include is looked for, and what a step is known to read.
//!
//! # Include lines
//!
//! A line ends at a line feed, or at the end of the file. It is an include where it has blanks, `#`, blanks, `include`,
//! blanks, and a name in quotes or in angle brackets; a blank is a space or a tab. The name ends at the first closing sign,
//! and what follows in the line does not count. A name is UTF-8, is not empty, and has no zero byte; a line with another
//! one is no include. Comments and conditional parts are not looked at. Only files with the suffixes of C and C++ are scanned.
//!
//! # Where an include is looked for
//!
//! A name in quotes is looked for in the directory of the including file first, and every name in the directories of the
//! step, in order. A name that begins with a slash is looked for at that path alone. The first of these places at which an
//! output of the plan or a source stands is the file that is included; finding it is the caller's part.
//!
//! # What a step is known to read
//!
//! Its inputs, and what is included by members that were scanned. So it grows, and an output that is not built yet is passed
//! over and scanned later.
//!
//! # What is proved
//!
//! - The includes of a file are those of its lines, exactly by what an include line is. Each has a name.
//! - Which files are scanned is exact.
//! - The places of an include are exact, in order and in normal form.
//! - The members of a closure are all that the step is known to read, by the values of the members that were scanned.
#![tactic(auto)]

pub mod closure;
pub mod include;
pub mod laws;
mod line;
pub mod places;
pub mod scan;
