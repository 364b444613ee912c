//! The plan of a request, from what was generated for it, and the table of main targets.
//!
//! # What is proved
//!
//! - Where the project's own text is told, the plan of a request and its table are those that generation is defined to give, or
//!   its first refusal.
//! - Over every evaluator the outputs are apart, as an update asks, and lie in the output roots.
//! - Over every evaluator what the evaluator keeps is as before.
#![tactic(auto)]

pub mod plan;
pub mod planned;
mod table;
