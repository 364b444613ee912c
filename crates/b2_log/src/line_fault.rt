//! Why a line is not taken.
ghost use Rattle.std.specs.Prelude.{◌≡◌};
ghost use Rattle.b2_log.specs.declared.line_fault.LineFault.TheVariants as refusals;

use b2_base::fault::OutOfMemory;
use std::alloc::{AllocError, AllocFailed};

/// Why bytes give no line, or no part of one.
#[derive(Drop)]
pub enum LineFault {
    /// No good line has these bytes.
    NotGood,
    /// No memory was left.
    OutOfMemory,
}

impl From<AllocError> for LineFault {
    ghost from_gives = { λ _ refusal. refusal ≡ refusals.OutOfMemory };

    fn from(_error: AllocError) -> LineFault {
        LineFault::OutOfMemory
    }
}

impl<T: Drop> From<AllocFailed<T>> for LineFault {
    ghost from_gives = { λ _ refusal. refusal ≡ refusals.OutOfMemory };

    fn from(_error: AllocFailed<T>) -> LineFault {
        LineFault::OutOfMemory
    }
}

impl From<OutOfMemory> for LineFault {
    ghost from_gives = { λ _ refusal. refusal ≡ refusals.OutOfMemory };

    fn from(_error: OutOfMemory) -> LineFault {
        LineFault::OutOfMemory
    }
}
