//! What holds over any list of calls, and where a scheduler was told what a run has.
ghost use Rattle.b2_sched.specs.Histories.{LooksByCalls, NeedsByCalls, EndsByCalls};
ghost use Rattle.b2_sched.specs.Joins.{SettledJoins, NeededJoins, LeftJoins, SkippedJoins, StuckJoins, NoneStuckJoins, QuitsStuckNone, CycleJoins, CanStartJoins, NextJoins, NoneJoins};

/// A step can be looked at where it is needed and not judged, and was not looked at yet or has a need that settled since.
pub fn looks_by_calls()
    ensures { LooksByCalls }
{}

/// A step needs those that were told.
pub fn needs_by_calls()
    ensures { NeedsByCalls }
{}

/// A step is settled, or has failed, where that was told.
pub fn ends_by_calls()
    ensures { EndsByCalls }
{}

/// A needed step that is settled in a run, done well or fresh, is settled where nothing is to be looked at or judged.
pub fn settled_joins()
    ensures { SettledJoins }
{}

/// The needed steps are those of a run.
pub fn needed_joins()
    ensures { NeededJoins }
{}

/// The steps that are left are those of a run.
pub fn left_joins()
    ensures { LeftJoins }
{}

/// The skipped steps are those of a run.
pub fn skipped_joins()
    ensures { SkippedJoins }
{}

/// The stuck steps are those of a run, unless it quits.
pub fn stuck_joins()
    ensures { StuckJoins }
{}

/// Where none is stuck, none is in a run.
pub fn none_stuck_joins()
    ensures { NoneStuckJoins }
{}

/// Where a run quits, none is stuck in it.
pub fn quits_stuck_none()
    ensures { QuitsStuckNone }
{}

/// The cycle is that of a run, unless it quits.
pub fn cycle_joins()
    ensures { CycleJoins }
{}

/// The steps that can start are those of a run.
pub fn can_start_joins()
    ensures { CanStartJoins }
{}

/// The step that is started next may start in a run, unless it quits.
pub fn next_joins()
    ensures { NextJoins }
{}

/// Where none is started, or the run quits, none can start in it.
pub fn none_joins()
    ensures { NoneJoins }
{}
