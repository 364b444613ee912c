//! The faults of the outside.
use b2_base::fault::OutOfMemory;
use std::alloc::{AllocError, AllocFailed};
use thiserror::Error;

/// The outside failed. Each such answer raises the count of faults of the object that was called.
#[derive(Clone, Copy, Debug, Error)]
#[error("the host failed")]
pub struct Failed;

/// The outside failed, or no memory was left. Where no memory was left, the call has changed nothing.
#[derive(Clone, Copy, Debug, Error)]
pub enum IoFault {
    #[error("the host failed")]
    Failed,
    #[error("out of memory")]
    OutOfMemory,
}

impl From<OutOfMemory> for IoFault {
    ghost use Rattle.b2_host.specs.declared.fault.IoFault.TheVariants as faults;
    ghost use Rattle.std.specs.Prelude.{◌≡◌};

    ghost from_gives = { λ _ fault. fault ≡ faults.OutOfMemory };

    fn from(_error: OutOfMemory) -> IoFault {
        IoFault::OutOfMemory
    }
}

impl From<AllocError> for IoFault {
    ghost use Rattle.b2_host.specs.declared.fault.IoFault.TheVariants as faults;
    ghost use Rattle.std.specs.Prelude.{◌≡◌};

    ghost from_gives = { λ _ fault. fault ≡ faults.OutOfMemory };

    fn from(_error: AllocError) -> IoFault {
        IoFault::OutOfMemory
    }
}

impl<T: Drop> From<AllocFailed<T>> for IoFault {
    ghost use Rattle.b2_host.specs.declared.fault.IoFault.TheVariants as faults;
    ghost use Rattle.std.specs.Prelude.{◌≡◌};

    ghost from_gives = { λ _ fault. fault ≡ faults.OutOfMemory };

    fn from(_error: AllocFailed<T>) -> IoFault {
        IoFault::OutOfMemory
    }
}
