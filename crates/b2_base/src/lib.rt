//! Texts, paths, tokens and maps from texts and paths, and how many texts a call's lists have, each seen by contracts as the value that it stands for.
//!
//! # What is proved
//!
//! - A path is in normal form exactly where no single step of simplification is left.
//! - `under` means a proper prefix of segments.
//! - A text, a list of texts and a map from texts or from paths is seen as the value that it stands for.
//! - The number of texts that the lists of a call have is exact.
#![tactic(auto)]

pub mod decimal;
pub mod expand_fault;
pub mod fault;
mod held;
pub mod hexadecimal;
pub mod laws;
pub mod list;
pub mod look;
pub mod path;
pub mod path_list;
pub mod path_map;
pub mod rooted;
pub mod segments;
pub mod shape;
mod short_text;
pub mod text;
pub mod text_list;
pub mod text_map;
pub mod token;
pub mod white;
