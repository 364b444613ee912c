//! Why nothing could be explained, or cleaning stopped.
use b2_base::fault::OutOfMemory;
use b2_base::path::Path;
use b2_host::fault::{Failed, IoFault};

/// Why nothing could be explained.
#[derive(Drop)]
pub enum ExplainFault {
    /// The host failed.
    Host,
    /// The file at this path, which is scanned for includes, has so many bytes, which are more than are scanned.
    TooBig { path: Path, size: u64 },
    /// No memory was left.
    OutOfMemory,
}

impl From<OutOfMemory> for ExplainFault {
    ghost use Rattle.std.specs.Prelude.{◌≡◌};
    ghost use Rattle.b2_explain.specs.declared.fault.ExplainFault.TheVariants as faults;

    ghost from_gives = { λ _ fault. fault ≡ faults.OutOfMemory };

    fn from(_error: OutOfMemory) -> ExplainFault {
        ExplainFault::OutOfMemory
    }
}

/// Why cleaning stopped.
#[derive(Clone, Copy, Debug)]
pub enum CleanFault {
    /// The host failed.
    Host,
    /// The sink failed.
    Sink,
    /// No memory was left.
    OutOfMemory,
}

impl From<OutOfMemory> for CleanFault {
    ghost use Rattle.std.specs.Prelude.{◌≡◌};
    ghost use Rattle.b2_explain.specs.declared.fault.CleanFault.TheVariants as faults;

    ghost from_gives = { λ _ fault. fault ≡ faults.OutOfMemory };

    fn from(_error: OutOfMemory) -> CleanFault {
        CleanFault::OutOfMemory
    }
}

impl From<Failed> for CleanFault {
    ghost use Rattle.std.specs.Prelude.{◌≡◌};
    ghost use Rattle.b2_explain.specs.declared.fault.CleanFault.TheVariants as faults;

    ghost from_gives = { λ _ fault. fault ≡ faults.Host };

    fn from(_error: Failed) -> CleanFault {
        CleanFault::Host
    }
}

/// A fault of the host as one of cleaning. A fault of the sink has the same type, and is never converted by `?`.
impl From<IoFault> for CleanFault {
    ghost use Rattle.std.specs.Prelude.{◌≡◌};
    ghost use Rattle.b2_explain.specs.Faults.{clean_fault_of};

    ghost from_gives = { λ error fault. fault ≡ clean_fault_of error };

    fn from(error: IoFault) -> CleanFault {
        match error {
            IoFault::Failed => CleanFault::Host,
            IoFault::OutOfMemory => CleanFault::OutOfMemory,
        }
    }
}
