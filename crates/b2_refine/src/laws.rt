//! Laws of requirements and of alternatives, each the contract of a function that does nothing.
ghost use Rattle.b2_refine.specs.Laws.{SettlesOnOne, SettledIsStable, SettledHasNoFault, UnstableHasNoFault, MeetsOneFault, OneIsChosen, OneChoice, OrderChangesNumbers};

/// An evaluation has one result: it settles on one set, or is unstable, or meets one fault.
pub fn one_result<F>()
    ensures settled { SettlesOnOne F }
    ensures stable { SettledIsStable F }
    ensures settled_alone { SettledHasNoFault F }
    ensures unstable_alone { UnstableHasNoFault F }
    ensures asked { MeetsOneFault F }
{}

/// At most one alternative is chosen, and there is one choice at most.
pub fn one_choice()
    ensures chosen { OneIsChosen }
    ensures choice { OneChoice }
{}

/// The order of the alternatives changes nothing but their numbers.
pub fn order_changes_numbers()
    ensures { OrderChangesNumbers }
{}
