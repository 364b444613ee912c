//! What the load of a drill comes to.
ghost use Rattle.b2_drill_load.specs.Laws.{DrillRuns, StepsHaveTexts};

/// The file of a drill runs to its end, whatever is seen of the outside, and records a call of `make` for each target.
pub fn drill_runs()
    ensures { DrillRuns }
{}

/// Each step of a drill has its text.
pub fn steps_have_texts()
    ensures { StepsHaveTexts }
{}
