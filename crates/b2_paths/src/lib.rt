//! The key by which a path is hashed; numbers for paths, and what is kept by number: a table, a map from pairs, and marks.
//!
//! # What is proved
//!
//! - A number is the place of its path, and stays so as the table grows.
//! - What a pair was given is found there, and nowhere else.
//! - A number is marked exactly where it was marked since the marks began.
#![tactic(auto)]

pub mod hashed_path;
pub mod laws;
pub mod marks;
pub mod pair_map;
pub mod path_table;
