//! What a main target of each kind makes: its entries, and the steps that make them.
//!
//! # What is proved
//!
//! - Where the texts of steps are told, the entries, carried libraries and steps of a main target of each kind are exact, or
//!   its first refusal.
//! - Over every evaluator the steps before stay. Each new one has an output, and all its outputs lie in the output roots.
//! - There is one outcome at most.
//! - Where its steps stand already, the same is made and none is new.
//!
//! Worked examples stand in `crates/b2_transcript`.
#![tactic(auto)]

mod along;
mod copies;
pub mod fault;
pub mod laws;
pub mod make;
mod named;
mod output;
mod place;
mod run;
mod set_texts;
pub mod setting;
pub mod site;
mod step;
