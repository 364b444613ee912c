//! Laws of the choice of an alternative and of what it depends on, each the contract of a function that does nothing.
ghost use Rattle.b2_alternatives.specs.Laws.{OneChoice, NamesItself, DueIsNew};

/// A main target has one choice for a set at most.
pub fn one_choice<E>()
    ensures { OneChoice E }
{}

/// What is chosen for a main target is of this main target.
pub fn names_itself<E>()
    ensures { NamesItself E }
{}

/// A main target that is due was not generated before.
pub fn due_is_new()
    ensures { DueIsNew }
{}
