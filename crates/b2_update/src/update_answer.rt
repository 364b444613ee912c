//! The answers of an update.
use b2_base::path::Path;
use b2_endings::failed_lists::FailedLists;
use b2_endings::number_list::NumberList;

/// How an update ended.
#[derive(Drop)]
pub enum UpdateAnswer {
    /// Each wanted file is up to date.
    Done,
    /// Something failed, was skipped or is missing.
    Failed(FailedLists),
    /// Steps need one another: the cycle, by the numbers of its steps.
    StepCycle(NumberList),
    /// A file that is to be scanned, or digested, has this many bytes, which is more than may be.
    TooBig { path: Path, size: u64 },
    /// The host failed.
    HostFault,
    /// The sink failed.
    SinkFault,
    /// No memory was left.
    OutOfMemory,
}
