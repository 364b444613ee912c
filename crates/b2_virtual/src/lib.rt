//! The steps of a plan as they are joined, and the paths of their outputs; and what files and main targets give to those that need
//! them: their entries, and the libraries that they carry on.
//!
//! # What is proved
//!
//! - Equal steps get one number, and no step is renumbered.
//! - Each refusal is exact. What is joined is apart as a plan asks.
//! - Tails and paths of outputs are exact.
//! - The entries and libraries that files and main targets supply together are exact, each path once, and so are the
//!   directories of made headers.
#![tactic(auto)]

pub mod builder;
pub mod directory;
mod distinct;
pub mod entry;
pub mod fault;
pub mod laws;
mod own_spots;
pub mod paths;
mod same;
mod spot;
mod spot_map;
pub mod supplies;
pub mod tails;
