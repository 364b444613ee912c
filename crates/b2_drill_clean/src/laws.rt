//! What the clean build of a drill is.
ghost use Rattle.b2_drill_clean.specs.Laws.{DrillIsDefined, DrillHasNoneLarge};

/// Where its sources stand, the clean build of a drill has a value for each output.
pub fn drill_is_defined()
    ensures { DrillIsDefined }
{}

/// No file of a drill is scanned, so that none is too big.
pub fn drill_has_none_large()
    ensures { DrillHasNoneLarge }
{}
