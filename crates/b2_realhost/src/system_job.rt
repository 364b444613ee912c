//! A step that runs as a child process.
ghost use Rattle.std.specs.Prelude.{◌≡◌, IfOk};

use b2_base::fault::OutOfMemory;
use b2_base::path::Path;
use b2_base::path_list::{PathList, copy_paths};
use std::alloc::Global;

/// A step that runs, with what it reads and what it writes.
#[derive(Drop)]
pub struct SystemJob {
    pub step: u32,
    pub ins: PathList,
    pub outs: PathList,
}

impl SystemJob {
    pub fn new(
        alloc: Global,
        step: u32,
        ins: &[Path],
        outs: &[Path],
    ) -> Result<SystemJob, OutOfMemory>
        ensures step { IfOk result (λ job. job.step ≡ step) }
        ensures ins { IfOk result (λ job. job.ins ≡ ins.now) }
        ensures outs { IfOk result (λ job. job.outs ≡ outs.now) }
    {
        Ok(SystemJob {
            step,
            ins: copy_paths(alloc, ins)?,
            outs: copy_paths(alloc, outs)?,
        })
    }
}
