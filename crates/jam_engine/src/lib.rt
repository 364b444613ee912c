//! Plain Jam mode: the plan of targets in the graph that a file declares.
//!
//! # What is proved
//!
//! - The answer of `jam_plan` is the plan that `specs/Plans` defines for these targets and the files that stand, or its first
//!   refusal.
//! - The outputs of a plan are apart. The graph stays as it is.
//! - A plan changes no file. A fault of the host is answered only where a call of the host failed.
//! - No refusal holds that the host failed or that memory ran out. These two are told by themselves.
//! - Laws: one plan or refusal, each act in a step that makes its targets, each requested target that is made is wanted, and a list
//!   meets what it leads to, each once.
#![tactic(auto)]

mod index;
mod joining;
pub mod laws;
mod links;
mod looking;
pub mod plan;
mod scene;
mod spread;
mod steps;
mod texts;
