//! Why a word has no expansion.
use crate::fault::OutOfMemory;
use crate::text::Text;

/// Why a word has no expansion.
#[derive(Debug, Drop)]
pub enum ExpandFault {
    /// The index of a variable is not of its form; `text` is what stands there.
    BadIndex { text: Text },
    /// A modifier is unknown or not of its form; `text` is the rest from there.
    BadModifier { text: Text },
    /// Variables are nested too deep.
    TooDeep,
    /// The elements have this many bytes, counted with one more for each element.
    TooLarge { bytes: u64 },
    /// No memory was left.
    OutOfMemory,
}

impl From<OutOfMemory> for ExpandFault {
    ghost use Rattle.std.specs.Prelude.{◌≡◌};
    ghost use Rattle.b2_base.specs.declared.expand_fault.ExpandFault.TheVariants as faults;

    ghost from_gives = { λ _ fault. fault ≡ faults.OutOfMemory };

    fn from(_error: OutOfMemory) -> ExpandFault {
        ExpandFault::OutOfMemory
    }
}
