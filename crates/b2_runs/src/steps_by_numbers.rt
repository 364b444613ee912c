//! Laws of steps by their numbers: what is said of them without paths.
ghost use Rattle.b2_runs.specs.NumberLaws.{NeededByNumbers, CanStartByNumbers, SkippedByNumbers, StuckByNumbers, ClosedByNumbers, CannotStartByNeed, CannotStartWithout, CannotStartFresh, ClosedBySettled, NeedsGrow, LacksGrow, StaleStepStays, FreshStepStays, FreshStepSettles};

/// Needed steps are those that make wanted files, and those that they need.
pub fn needed_by_numbers()
    ensures { NeededByNumbers }
{}

/// A step can start where it is needed, not started and found stale, there is room, and the update goes on.
pub fn can_start_by_numbers()
    ensures { CanStartByNumbers }
{}

/// Skipped steps are those that are left and lack a source, or need a failed or skipped step.
pub fn skipped_by_numbers()
    ensures { SkippedByNumbers }
{}

/// That a step needs a stuck one is that it needs that one, which is stuck.
pub fn stuck_by_numbers()
    ensures { StuckByNumbers }
{}

/// Where the closure of a step is defined on what is settled, each step that it needs is settled.
pub fn closed_by_numbers()
    ensures { ClosedByNumbers }
{}

/// A step that needs a step which is not settled cannot start.
pub fn cannot_start_by_need()
    ensures { CannotStartByNeed }
{}

/// A step that lacks a source cannot start.
pub fn cannot_start_without()
    ensures { CannotStartWithout }
{}

/// A fresh step cannot start.
pub fn cannot_start_fresh()
    ensures { CannotStartFresh }
{}

/// Where all that a step is known to read is listed and settled, its closure is defined.
pub fn closed_by_settled()
    ensures { ClosedBySettled }
{}

/// What a step needs it needs as a run goes on.
pub fn needs_grow()
    ensures { NeedsGrow }
{}

/// What a step lacks it lacks as a run goes on.
pub fn lacks_grow()
    ensures { LacksGrow }
{}

/// A step that was found stale stays so as events come.
pub fn stale_step_stays()
    ensures { StaleStepStays }
{}

/// A step that was found fresh stays so as events come.
pub fn fresh_step_stays()
    ensures { FreshStepStays }
{}

/// The outputs of a fresh step that was not started are settled.
pub fn fresh_step_settles()
    ensures { FreshStepSettles }
{}
