//! Laws of sets, each the contract of a function that does nothing.
//!
//! A whole set made whole again need not be the same: a default may be a composite value, whose components come in the
//! second time alone. So there is no such law.
ghost use Rattle.b2_props.specs.Laws.{NoPairsAreSet, RefiningTwice};

/// A set that is refined twice by the same list is as it is after the first time.
pub fn refining_twice()
    ensures { RefiningTwice }
{}

/// The empty list of pairs is a set, whatever is declared.
pub fn no_pairs_are_set()
    ensures { NoPairsAreSet }
{}
