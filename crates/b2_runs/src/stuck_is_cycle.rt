//! Laws of stuck steps: each needs another, so they go in a circle.
ghost use Rattle.b2_runs.specs.StuckLaws.{StuckByStuck, StuckNeedsStuck, StartsAreDone, StepCycleIsOne, StepCycleIsThere, StuckIsCycle};

/// Where a stuck step needs an output of a step that is not settled, that step is stuck too.
pub fn stuck_by_stuck()
    ensures { StuckByStuck }
{}

/// A stuck step needs a stuck step, where a list has all that it is known to read.
pub fn stuck_needs_stuck()
    ensures { StuckNeedsStuck }
{}

/// Where nothing is open, as many steps are done as were started.
pub fn starts_are_done()
    ensures { StartsAreDone }
{}

/// The list of a step cycle is one.
pub fn step_cycle_is_one()
    ensures { StepCycleIsOne }
{}

/// Where each stuck step has a lowest stuck step that it needs, there is a step cycle.
pub fn step_cycle_is_there()
    ensures { StepCycleIsThere }
{}

/// Where a step is stuck there is a step cycle, if for each stuck step a list has all that it is known to read.
pub fn stuck_is_cycle()
    ensures { StuckIsCycle }
{}
