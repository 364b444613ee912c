//! Why requirements have no set.
use b2_base::fault::OutOfMemory;
use b2_props::props::Props;

/// Why requirements are not evaluated.
#[derive(Drop)]
pub enum RefineFault<F: Drop> {
    /// No round leaves its set as it is. These are the sets of the last round and of the one after it.
    Unstable { first: Props, second: Props },
    /// A rule was asked, and answered with this fault.
    Asked(F),
    OutOfMemory,
}

impl<F: Drop> From<OutOfMemory> for RefineFault<F> {
    ghost use Rattle.std.specs.Prelude.{◌≡◌};
    ghost use Rattle.b2_refine.specs.declared.fault.RefineFault.TheVariants as faults;

    ghost from_gives = { λ _ fault. fault ≡ faults.OutOfMemory };

    fn from(_error: OutOfMemory) -> RefineFault<F> {
        RefineFault::OutOfMemory
    }
}
