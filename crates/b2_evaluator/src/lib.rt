//! What generation asks of a loaded project's own text: what its rules return, and the texts of steps.
//!
//! # What is proved
//!
//! The crate is definitions and a trait. They say what is promised of each rule that a loaded project answers with, and of each
//! text of a step.
#![tactic(auto)]

pub mod evaluate;
