//! Generation: what main targets give with sets of properties, and the steps that make it.
//!
//! # What is proved
//!
//! - Where the project's own text is told, the pieces of a request give what generation is defined to give, or its first
//!   refusal.
//! - Over every evaluator the steps lie in the output roots, and what the evaluator keeps is as before.
//! - Remembered answers are used only where that changes nothing.
//! - Laws: one outcome, one plan, steps that stay, the same again.
#![tactic(auto)]

mod clear;
pub mod completing;
pub mod fault;
mod frame;
pub mod generation;
pub mod laws;
pub mod making;
pub mod name_table;
pub mod node;
mod opening;
pub mod pieces;
mod stack;
mod supplies;
mod taking;
