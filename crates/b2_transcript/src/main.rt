//! The transcript of b2, from texts, paths and the host in memory over the language of project files to the whole program.
//! `part NAME` says which part carries out the commands that follow; at first it is `host`. A part keeps what it holds while another
//! one is current; the crate that carries out the commands of a part tells them.
//!
//! - `host`, `log`, `words`: b2_host_cases.
//! - `language`: jam_cases.
//! - `world`, `evaluation`: jam_interp_cases.
//! - `properties`, `refinement`: b2_props_cases.
//! - `declarations`, `references`, `outputs`, `conversions`: b2_making_cases.
//! - `loads`: b2_project_cases.
//! - `graph`: jam_engine_cases.
//! - `memory`, `real`: b2_cases. The part `real` works in the folder that begins with the files of `data/`.
#![tactic(auto)]

mod part;
mod parts;

use crate::parts::Parts;
use std::io;
use std::process::ExitCode;
use transcript::session::run;

fn main(rt: HostRuntime) -> io::Result<ExitCode> {
    match Parts::new(rt) {
        Ok(mut parts) => run(&rt, &mut parts),
        Err(_error) => Err(io::Error::from(io::ErrorKind::OutOfMemory)),
    }
}
