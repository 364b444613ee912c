//! How often the system failed.
ghost use Rattle.std.specs.Prelude.{◌≡◌};
ghost use Rattle.b2_base.specs.Counts.{Rose};
ghost use Rattle.b2_realhost.specs.Failures.{FaultCounted};

use b2_host::fault::{Failed, IoFault};
use std::io;
use std::io::ErrorKind;

/// The count of faults, which stops at the greatest number.
#[derive(Drop)]
pub struct FaultCount {
    pub count: u64,
}

impl FaultCount {
    pub fn new() -> FaultCount
        ensures { result.count ≡ 0 }
    {
        FaultCount { count: 0 }
    }

    /// Counts a fault.
    pub fn fail(&mut self) -> Failed
        ensures { Rose self.old.count self.new.count }
    {
        self.count = self.count.saturating_add(1);
        Failed
    }

    /// Counts a fault after which the outside may have changed, whatever the system says of it.
    pub fn fail_within(&mut self) -> IoFault
        ensures { FaultCounted self.old.count self.new.count result }
    {
        let _failed = self.fail();
        IoFault::Failed
    }

    /// Counts the fault of a call that has changed nothing, unless no memory was left.
    pub fn fault(&mut self, error: &io::Error) -> IoFault
        ensures { FaultCounted self.old.count self.new.count result }
    {
        match error.kind() {
            ErrorKind::OutOfMemory => IoFault::OutOfMemory,
            _ => self.fail_within(),
        }
    }
}
