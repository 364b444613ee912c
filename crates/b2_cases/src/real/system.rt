//! What the examples ask of the runtime.
use std::process::{Processes, SystemProcess};
use std::rt::{Clock, Files};
use std::sync::Wait;

/// All that the real host and the real sink ask of the runtime.
pub trait System: Files
    + AllocGlobal
    + Print
    + Copy
    + Processes<Started = SystemProcess>
    + Wait
    + Clock {}

impl<R> System for R
where
    R: Files + AllocGlobal + Print + Copy + Processes<Started = SystemProcess> + Wait + Clock,
{}
