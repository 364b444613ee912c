//! Why work on files stopped.
ghost use Rattle.std.specs.Prelude.{◌≡◌};
ghost use Rattle.b2_facts.specs.Stops.{stop_of_read};

use crate::fault::ReadFault;
use b2_base::fault::OutOfMemory;
use b2_host::fault::{Failed, IoFault};

/// Why work on files stopped.
#[derive(Clone, Copy, Debug)]
pub enum FilesStop {
    /// The host failed.
    Host,
    /// No memory was left.
    OutOfMemory,
    /// The file with this number has so many bytes, which are more than are scanned, or digested.
    TooBig { number: u32, size: u64 },
}

impl From<Failed> for FilesStop {
    ghost use Rattle.std.specs.Prelude.{◌≡◌};
    ghost use Rattle.b2_facts.specs.declared.stop.FilesStop.TheVariants as stops;

    ghost from_gives = { λ _ stop. stop ≡ stops.Host };

    fn from(_error: Failed) -> FilesStop {
        FilesStop::Host
    }
}

impl From<OutOfMemory> for FilesStop {
    ghost use Rattle.std.specs.Prelude.{◌≡◌};
    ghost use Rattle.b2_facts.specs.declared.stop.FilesStop.TheVariants as stops;

    ghost from_gives = { λ _ stop. stop ≡ stops.OutOfMemory };

    fn from(_error: OutOfMemory) -> FilesStop {
        FilesStop::OutOfMemory
    }
}

impl From<IoFault> for FilesStop {
    ghost use Rattle.std.specs.Prelude.{◌≡◌};
    ghost use Rattle.b2_facts.specs.Stops.{stop_of_io};

    ghost from_gives = { λ error stop. stop ≡ stop_of_io error };

    fn from(error: IoFault) -> FilesStop {
        match error {
            IoFault::Failed => FilesStop::Host,
            IoFault::OutOfMemory => FilesStop::OutOfMemory,
        }
    }
}

/// What work stops with where the file with a number was not read.
pub fn stop_of_read(fault: ReadFault, number: u32) -> FilesStop
    ensures { result ≡ stop_of_read fault number }
{
    match fault {
        ReadFault::Failed => FilesStop::Host,
        ReadFault::OutOfMemory => FilesStop::OutOfMemory,
        ReadFault::TooBig { size } => FilesStop::TooBig { number, size },
    }
}
