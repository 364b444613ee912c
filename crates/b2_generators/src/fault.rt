//! Why there is no chain.
use b2_base::fault::OutOfMemory;
use b2_base::text::Text;
use b2_base::text_list::TextList;

/// Why no chain of generators is taken.
#[derive(Drop)]
pub enum ChainFault {
    /// There is none.
    NoChain {
        from: Text,
        to: Text,
    },
    /// Two or more are the shortest. These are the ids of the two that come first by registration: by that of their first
    /// generators, then by that of the second, and so on.
    TwoChains {
        from: Text,
        to: Text,
        first: TextList,
        second: TextList,
    },
    OutOfMemory,
}

impl From<OutOfMemory> for ChainFault {
    ghost use Rattle.std.specs.Prelude.{◌≡◌};
    ghost use Rattle.b2_generators.specs.declared.fault.ChainFault.TheVariants as faults;

    ghost from_gives = { λ _ fault. fault ≡ faults.OutOfMemory };

    fn from(_error: OutOfMemory) -> ChainFault {
        ChainFault::OutOfMemory
    }
}
