//! Plans, and what a clean build of a plan is.
//!
//! # What is proved
//!
//! - The maker of a path is found exactly.
//! - Whether a path lies under an output root is answered exactly.
//! - The definitions of sources, dependency closures and the clean build stand in `specs/`.
#![tactic(auto)]

mod maker_map;
mod makers;
pub mod plan;
pub mod roots;
pub mod step;
