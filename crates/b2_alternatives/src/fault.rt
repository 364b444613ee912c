//! Why no alternative of a main target is settled on.
use b2_base::fault::OutOfMemory;
use b2_base::text::Text;
use b2_props::props::Props;

/// Why no alternative of a main target is settled on. Targets are texts `directory//name`; alternatives are numbered from 1.
#[derive(Drop)]
pub enum ChoiceFault<F: Drop> {
    /// No alternative is viable for the full set.
    NoAlternative {
        target: Text,
        set: Props,
    },
    /// Both alternatives are viable for the full set, and neither is better: the first two of this kind.
    AmbiguousAlternative {
        target: Text,
        set: Props,
        i: usize,
        k: usize,
    },
    /// No round of the requirements leaves its set as it is. These are the sets of the last round and of the one after it.
    Unstable {
        target: Text,
        first: Props,
        second: Props,
    },
    /// The rule of an indirect requirement returned a text that is no property.
    BadAnswer {
        target: Text,
        rule: Text,
        word: Text,
    },
    /// The call of the rule of an indirect requirement ended with this fault.
    Eval(F),
    OutOfMemory,
}

impl<F: Drop> From<OutOfMemory> for ChoiceFault<F> {
    ghost use Rattle.std.specs.Prelude.{◌≡◌};
    ghost use Rattle.b2_alternatives.specs.declared.fault.ChoiceFault.TheVariants as faults;

    ghost from_gives = { λ _ fault. fault ≡ faults.OutOfMemory };

    fn from(_error: OutOfMemory) -> ChoiceFault<F> {
        ChoiceFault::OutOfMemory
    }
}
