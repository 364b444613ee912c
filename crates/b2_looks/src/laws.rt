//! Laws of what an update knows of its steps and their files.
ghost use Rattle.b2_looks.specs.Laws.{SightStaysTrue};

/// What is known stays true while steps that run or failed change their outputs.
pub fn sight_stays_true()
    ensures { SightStaysTrue }
{}
