//! Tables from pairs of texts to values, and variables in frames, which can be marked and rolled back.
//!
//! # What is proved
//!
//! - Looking up, assigning, appending and frames are those of plain data.
//! - Rolling back gives what stood at the mark, whole.
#![tactic(auto)]

pub mod name;
pub mod names;
mod others;
pub mod past;
pub mod past_lists;
mod registers;
pub mod saved;
pub mod sized_list;
mod slots;
pub mod table;
pub mod variables;
