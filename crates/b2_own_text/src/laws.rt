//! Laws of answers.
ghost use Rattle.b2_own_text.specs.Laws.{IsRightlySeen, OneFaultIsGiven};

/// Over each consistent disk the setting by which answers are told is a right one.
pub fn rightly_seen()
    ensures { IsRightlySeen }
{}

/// Where a fault is given of one question, that question ends with it, and every other one ends as before.
pub fn one_fault_is_given()
    ensures { OneFaultIsGiven }
{}
