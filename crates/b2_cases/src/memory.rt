//! The whole program over files, child processes and a sink in memory.

mod case_host;
mod case_sink;
mod claims;
pub mod session;
mod sessions;
mod shown;
mod stops;
