//! Sets of properties: what stands in them, how they are made whole and refined, and how a request is read.
//!
//! # What is proved
//!
//! - Sets of properties and requests are exact, and so is each fault, with its word.
#![tactic(auto)]

mod clashes;
mod draft;
pub mod elements;
pub mod laws;
pub mod lookups;
pub mod membership;
mod numbered_pairs;
pub mod pair_index;
pub mod pair_list;
mod product;
pub mod property_texts;
pub mod props;
pub mod refinement;
pub mod request;
pub mod request_fault;
pub mod requirement;
mod ways;
mod word_choice;
pub mod words;
