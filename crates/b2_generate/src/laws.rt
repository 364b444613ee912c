//! Laws of generation and of plans, each the contract of a function that does nothing.
ghost use Rattle.b2_generate.specs.Laws.{OneOutcome, StepsStay, OpensClosed, MayBeRemembered, OnePlan};

/// A main target that is asked for with a set has one outcome at most.
pub fn one_outcome<E>()
    ensures { OneOutcome E }
{}

/// The steps before stay as they are, and new ones stand after them.
pub fn steps_stay<E>()
    ensures { StepsStay E }
{}

/// None of the main targets that were opened for an answer was open.
pub fn opens_closed<E>()
    ensures { OpensClosed E }
{}

/// An answer may be remembered where its steps stand and none of the main targets that were opened for it is open.
pub fn again<E>()
    ensures { MayBeRemembered E }
{}

/// A request has one plan at most, or one first refusal.
pub fn one_plan<E>()
    ensures { OnePlan E }
{}
