//! Laws of what main targets make, each the contract of a function that does nothing.
ghost use Rattle.b2_making.specs.Laws.{OneOutcome, MadeStepsStay, MakesAgain};

/// What a main target makes, or why it makes nothing, is one thing at most.
pub fn one_outcome<F>()
    ensures { OneOutcome F }
{}

/// The steps before stay as they are, and new ones stand after them.
pub fn steps_stay<F>()
    ensures { MadeStepsStay F }
{}

/// Where all steps that stood after making a main target stand among others, making it over those gives the same and adds no step.
pub fn again<F>()
    ensures { MakesAgain F }
{}
