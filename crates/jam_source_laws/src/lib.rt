//! Laws of evaluation: files under the output roots are not seen.
#![tactic(auto)]

pub mod laws;
