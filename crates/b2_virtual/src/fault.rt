//! Why a step or a path is refused.
use b2_base::fault::OutOfMemory;
use b2_base::path::Path;

/// Why a step does not join a plan, or an output has no path.
#[derive(Drop)]
pub enum VirtualFault {
    /// An output of the step that has this path cannot stand beside the others.
    PathClash { path: Path },
    /// This path would lie outside the output roots.
    LocationOutside { path: Path },
    /// The step would have this number, and there are at most 65,536.
    TooManySteps { count: u32 },
    OutOfMemory,
}

impl From<OutOfMemory> for VirtualFault {
    ghost use Rattle.std.specs.Prelude.{◌≡◌};
    ghost use Rattle.b2_virtual.specs.declared.fault.VirtualFault.TheVariants as faults;

    ghost from_gives = { λ _ fault. fault ≡ faults.OutOfMemory };

    fn from(_error: OutOfMemory) -> VirtualFault {
        VirtualFault::OutOfMemory
    }
}
