//! Laws of loads and plans: files under the output roots are not seen. What cleaning leaves to the next build is a clause of the
//! program; the others stand apart from it.
#![tactic(auto)]

pub mod after_cleaning;
pub mod laws;
pub mod next_calls;
pub mod next_plans;
