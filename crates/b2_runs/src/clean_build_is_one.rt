//! Laws of closures and of the clean build.
ghost use Rattle.std.specs.Prelude.{ℕ, List, Option};
ghost use Rattle.b2_runs.specs.ClosureLaws.{KnownGrows, MissingIsInput, ClosureStays, ClosureIsOne, KnownIsLocal, ClosureIsLocal};
ghost use Rattle.b2_runs.specs.CleanLaws.{CleanIsOne, RoundsAreEnough, CleanIsMade};

use std::marker::Brand;

/// What is known of the values of paths.
pub trait Worth {
    ghost worth: { List ℕ → Option (List ℕ) → Type 0 };
}

impl Worth for Brand {
    ghost worth = { λ path value. ⊥ };
}

/// Where more is known of values, no less is known of what a step reads.
pub fn known_grows<V: Worth, W: Worth>()
    ensures { KnownGrows V.worth W.worth }
{}

/// A missing path that a step is known to read is one of its inputs.
pub fn missing_is_input<V: Worth>()
    ensures { MissingIsInput V.worth }
{}

/// A closure that is defined stays the same, where more is known of values.
pub fn closure_stays<V: Worth, W: Worth>()
    ensures { ClosureStays V.worth W.worth }
{}

/// The closure of a step is one list.
pub fn closure_is_one<V: Worth>()
    ensures { ClosureIsOne V.worth }
{}

/// What a step is known to read depends on the values of what it is known to read alone.
pub fn known_is_local<V: Worth, W: Worth>()
    ensures { KnownIsLocal V.worth W.worth }
{}

/// So does its closure.
pub fn closure_is_local<V: Worth, W: Worth>()
    ensures { ClosureIsLocal V.worth W.worth }
{}

/// A path has at most one value in the clean build.
pub fn clean_is_one()
    ensures { CleanIsOne }
{}

/// As many rounds as there are steps are enough.
pub fn rounds_are_enough()
    ensures { RoundsAreEnough }
{}

/// What a step makes of a closure that is defined by the clean build is the clean build's.
pub fn clean_is_made()
    ensures { CleanIsMade }
{}
