//! A child in memory.
ghost use Rattle.b2_memory.specs.Jobs.{IsLeft};

use crate::memory_job::MemoryJob;
use b2_files::file_bytes::FileBytes;
use std::rc::Rc;

/// A child that runs, whether it is to end well, and what it is to write by its end.
#[derive(Drop)]
pub struct RunningChild {
    pub job: Rc<MemoryJob>,
    pub well: bool,
    pub entries: Vec<FileBytes>,
    ghost settled: { IsLeft job.value well entries.items },
}
