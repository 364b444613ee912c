//! What calls of declaring rules declare, by their lists, and which directories they name.
//!
//! # What is proved
//!
//! - What a call of a declaring rule declares, or that it declares nothing, is exact.
//! - Which directories a call names is exact, in order.
//! - Trailing empty lists change nothing.
//! - The names of main targets lie below their project. Ids begin with a slash.
#![tactic(auto)]

mod attributes;
pub mod declaration;
mod declaring_rule;
pub mod laws;
mod lists;
pub mod naming;
mod places;
pub mod reading;
mod references;
mod target;
pub mod testing;
