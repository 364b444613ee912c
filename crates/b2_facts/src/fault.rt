//! Why a file was not read.
use b2_base::fault::OutOfMemory;
use b2_host::fault::{Failed, IoFault};

/// Why a file was not read.
#[derive(Clone, Copy, Debug)]
pub enum ReadFault {
    /// The host failed.
    Failed,
    /// No memory was left.
    OutOfMemory,
    /// The file has this many bytes, which are too many.
    TooBig { size: u64 },
}

impl From<OutOfMemory> for ReadFault {
    ghost use Rattle.std.specs.Prelude.{◌≡◌};
    ghost use Rattle.b2_facts.specs.declared.fault.ReadFault.TheVariants as faults;

    ghost from_gives = { λ _ fault. fault ≡ faults.OutOfMemory };

    fn from(_error: OutOfMemory) -> ReadFault {
        ReadFault::OutOfMemory
    }
}

impl From<Failed> for ReadFault {
    ghost use Rattle.std.specs.Prelude.{◌≡◌};
    ghost use Rattle.b2_facts.specs.declared.fault.ReadFault.TheVariants as faults;

    ghost from_gives = { λ _ fault. fault ≡ faults.Failed };

    fn from(_error: Failed) -> ReadFault {
        ReadFault::Failed
    }
}

impl From<IoFault> for ReadFault {
    ghost use Rattle.std.specs.Prelude.{◌≡◌};
    ghost use Rattle.b2_facts.specs.ReadFaults.{of_io};

    ghost from_gives = { λ error fault. fault ≡ of_io error };

    fn from(error: IoFault) -> ReadFault {
        match error {
            IoFault::Failed => ReadFault::Failed,
            IoFault::OutOfMemory => ReadFault::OutOfMemory,
        }
    }
}
