//! Laws of joining steps, each the contract of a function that does nothing.
ghost use Rattle.b2_virtual.specs.Laws.{SameIsEqual, NumberIsItsOwn, NumbersStay, AgainIsSame, AgainHasNumber, StaysDistinct, NothingElse, FirstIsOne, FittingHasNone};

/// Two steps count as equal exactly where all that they are is equal.
pub fn same_is_equal()
    ensures { SameIsEqual }
{}

/// The number of a step is its own, and stays its own whatever joins after it.
pub fn numbers()
    ensures own { NumberIsItsOwn }
    ensures stay { NumbersStay }
{}

/// A step that joins again changes nothing, and has its number; no step stands twice. Nothing else comes in with a step.
pub fn again()
    ensures same { AgainIsSame }
    ensures number { AgainHasNumber }
    ensures once { StaysDistinct }
    ensures nothing_else { NothingElse }
{}

/// A step has one first output that cannot stand, and none exactly where it fits.
pub fn one_answer()
    ensures first { FirstIsOne }
    ensures none { FittingHasNone }
{}
