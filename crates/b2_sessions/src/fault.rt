//! The faults of a session.
ghost use Rattle.std.specs.Prelude.{◌≡◌};

use b2_base::fault::OutOfMemory;
use thiserror::Error;

/// Why a session came to no end.
#[derive(Clone, Copy, Debug, Error)]
pub enum SessionFault {
    /// An edit would write the log; this is the place of its event, counted from 0.
    #[error("event {index} writes the log")]
    LogEdit {
        /// The place of the event.
        index: usize,
    },
    /// No memory was left.
    #[error("out of memory")]
    OutOfMemory,
}

impl From<OutOfMemory> for SessionFault {
    ghost use Rattle.b2_sessions.specs.declared.fault.SessionFault.TheVariants as faults;

    ghost from_gives = { λ _ fault. fault ≡ faults.OutOfMemory };

    fn from(_error: OutOfMemory) -> SessionFault {
        SessionFault::OutOfMemory
    }
}
