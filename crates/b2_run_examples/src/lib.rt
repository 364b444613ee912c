//! Small updates for which the definitions of runs say what they should, and for which all holds that their laws ask for.
#![tactic(auto)]

pub mod examples;
