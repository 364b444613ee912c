//! Why an update stopped.
ghost use Rattle.std.specs.Prelude.{◌≡◌};
ghost use Rattle.b2_update.specs.Stops.{host_stop_of, sink_stop_of};

use b2_base::fault::OutOfMemory;
use b2_facts::stop::FilesStop;
use b2_host::fault::{Failed, IoFault};

/// Why an update stopped.
#[derive(Clone, Copy)]
pub enum UpdateStop {
    /// Work on files or children stopped.
    Files(FilesStop),
    /// The sink failed.
    Sink,
}

/// What a fault of the host stops an update with.
pub fn host_stop(fault: IoFault) -> UpdateStop
    ensures { result ≡ host_stop_of fault }
{
    match fault {
        IoFault::Failed => UpdateStop::Files(FilesStop::Host),
        IoFault::OutOfMemory => UpdateStop::Files(FilesStop::OutOfMemory),
    }
}

/// What a fault of the sink stops an update with.
pub fn sink_stop(fault: IoFault) -> UpdateStop
    ensures { result ≡ sink_stop_of fault }
{
    match fault {
        IoFault::Failed => UpdateStop::Sink,
        IoFault::OutOfMemory => UpdateStop::Files(FilesStop::OutOfMemory),
    }
}

impl From<FilesStop> for UpdateStop {
    ghost use Rattle.b2_update.specs.declared.stop.UpdateStop.TheVariants as stops;
    ghost use Rattle.std.specs.Prelude.{◌≡◌};

    ghost from_gives = { λ stop made. made ≡ stops.Files stop };

    fn from(stop: FilesStop) -> UpdateStop {
        UpdateStop::Files(stop)
    }
}

impl From<OutOfMemory> for UpdateStop {
    ghost use Rattle.b2_update.specs.declared.stop.UpdateStop.TheVariants as stops;
    ghost use Rattle.b2_facts.specs.declared.stop.FilesStop.TheVariants as files;
    ghost use Rattle.std.specs.Prelude.{◌≡◌};

    ghost from_gives = { λ _ made. made ≡ stops.Files files.OutOfMemory };

    fn from(_error: OutOfMemory) -> UpdateStop {
        UpdateStop::Files(FilesStop::OutOfMemory)
    }
}
