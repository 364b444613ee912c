//! How a call of the program ended, and its exit status.
ghost use Rattle.std.specs.Prelude.{◌≡◌};
ghost use Rattle.b2_top.specs.Statuses.{status_of};

use b2_endings::failed_lists::FailedLists;
use b2_refusals::fault::Fault;

/// How a call of the program ended.
#[derive(Drop)]
pub enum Answer {
    /// Each requested file is up to date, or what was asked for was shown: status 0.
    Ok,
    /// A step failed or was skipped, or a file is missing: status 1.
    Failed(FailedLists),
    /// What was asked for is refused: status 2.
    Refused(Fault),
    /// The words are not those of the command: status 3.
    Usage,
    /// The host failed: status 4.
    HostFault,
    /// No memory was left, or generation came to something else when it was carried out again after a refused pattern: status 5.
    OutOfMemory,
    /// The sink failed: status 6.
    SinkFault,
}

impl Answer {
    /// The exit status, from 0 to 6. Takes no memory.
    pub fn status(&self) -> u8
        ensures { result ≡ status_of self.now }
    {
        match self {
            Answer::Ok => 0,
            Answer::Failed(_) => 1,
            Answer::Refused(_) => 2,
            Answer::Usage => 3,
            Answer::HostFault => 4,
            Answer::OutOfMemory => 5,
            Answer::SinkFault => 6,
        }
    }
}
