//! The requirements of a target evaluated for a request, and the choice among its alternatives.
//!
//! # What is proved
//!
//! - The properties of a target are exact: requirements are evaluated in rounds, over any rules that answer.
//! - The choice among alternatives is exact. Their order changes nothing but the numbers.
#![tactic(auto)]

pub mod ask;
pub mod choice;
pub mod evaluate;
pub mod fault;
mod giving;
pub mod laws;
