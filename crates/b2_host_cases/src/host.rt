//! Texts, paths and makers of a plan, and the host and the sink in memory. There are a current map from texts, host and sink; `new`
//! makes all three new. The other commands stand each with their words in the files of host/: the map and the sink (`session`),
//! texts, paths, plans, includes (`scan_commands`), files of the host, child processes, what is told to the host of calls to come
//! (`script_commands`), and looks at it; those that make one call of a host or a sink in `host_calls.rt`.

mod child_commands;
mod file_commands;
mod free;
mod look_commands;
mod path_commands;
mod plan_commands;
mod scan_commands;
mod script_commands;
pub mod session;
mod text_commands;
