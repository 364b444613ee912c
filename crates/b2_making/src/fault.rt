//! Why a main target has no steps.
use b2_base::fault::OutOfMemory;
use b2_base::path::Path;
use b2_base::text::Text;
use b2_base::text_list::TextList;
use b2_generators::fault::ChainFault;
use b2_virtual::fault::VirtualFault;

/// Why the steps of a main target are not made.
#[derive(Drop)]
pub enum MakingFault<F: Drop> {
    /// No chain of generators leads from the one type to the other.
    NoChain {
        from: Text,
        to: Text,
    },
    /// Two or more chains are the shortest. These are the ids of the two that come first by registration.
    TwoChains {
        from: Text,
        to: Text,
        first: TextList,
        second: TextList,
    },
    /// This output of a step cannot stand beside the others.
    PathClash {
        path: Path,
    },
    /// This path would lie outside the output roots.
    LocationOutside {
        path: Path,
    },
    /// A step would have this number, and there are at most 65,536.
    TooManySteps {
        count: u32,
    },
    /// A step has no text for this reason.
    Eval(F),
    OutOfMemory,
}

impl<F: Drop> From<OutOfMemory> for MakingFault<F> {
    ghost use Rattle.std.specs.Prelude.{◌≡◌};
    ghost use Rattle.b2_making.specs.declared.fault.MakingFault.TheVariants as faults;

    ghost from_gives = { λ _ fault. fault ≡ faults.OutOfMemory };

    fn from(_error: OutOfMemory) -> MakingFault<F> {
        MakingFault::OutOfMemory
    }
}

impl<F: Drop> From<VirtualFault> for MakingFault<F> {
    ghost use Rattle.std.specs.Prelude.{◌≡◌};
    ghost use Rattle.b2_making.specs.MakingParts.{of_virtual};

    ghost from_gives = { λ error fault. fault ≡ of_virtual error };

    fn from(error: VirtualFault) -> MakingFault<F> {
        match error {
            VirtualFault::PathClash { path } => MakingFault::PathClash { path },
            VirtualFault::LocationOutside { path } => MakingFault::LocationOutside { path },
            VirtualFault::TooManySteps { count } => MakingFault::TooManySteps { count },
            VirtualFault::OutOfMemory => MakingFault::OutOfMemory,
        }
    }
}

impl<F: Drop> From<ChainFault> for MakingFault<F> {
    ghost use Rattle.std.specs.Prelude.{◌≡◌};
    ghost use Rattle.b2_making.specs.MakingParts.{of_chain};

    ghost from_gives = { λ error fault. fault ≡ of_chain error };

    fn from(error: ChainFault) -> MakingFault<F> {
        match error {
            ChainFault::NoChain { from, to } => MakingFault::NoChain { from, to },
            ChainFault::TwoChains {
                from,
                to,
                first,
                second,
            } => MakingFault::TwoChains {
                from,
                to,
                first,
                second,
            },
            ChainFault::OutOfMemory => MakingFault::OutOfMemory,
        }
    }
}
