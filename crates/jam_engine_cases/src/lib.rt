//! The commands of the part `graph` of a transcript: files whose rules declare a graph themselves, over files in memory, and the plans
//! of targets in it. There are files, none at first, and the graph that was loaded last.
//!
//! - `new` starts over: no files, nothing loaded, 1,000,000 turns for each load.
//! - `edit`, `turns`, `fail_calls`: as in the part `loads`.
//! - `jam_load FILE` loads a file. It shows the lines of ECHO, and then why there is no graph, or `ok`.
//! - `graph` shows the graph that was loaded last: its targets, each pair of `depends` and of `includes` on a line, its flags, and each act
//!   with the module and the name of its actions, its line, its targets and its sources. Lists without texts are left out.
//! - `jam_plan WORD ..` loads that file again and shows the plan of these targets in it, or why there is none: the number and the name of each step, and below them
//!   its outputs, inputs, directories of headers, flags and text; then the wanted files.
//!
//! What takes the place of a graph lets it be, until the process ends: a crate that takes it apart proves the drop of all that it holds,
//! which costs more than the proof of its commands.
#![tactic(auto)]

mod faults;
mod graph;
mod plan;
pub mod session;
