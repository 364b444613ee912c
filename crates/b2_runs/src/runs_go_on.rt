//! Laws of runs: how they go on, and what stays as they do.
ghost use Rattle.b2_runs.specs.RunLaws.{RunGoesOn, RunHasBegun, SettledAfterStart, SettledAfterEnd, NeededGrows, NeededThroughEnd, ClosureOnSettled, StartedHasClosure, DoneWasStarted, DoneOnce, EachEventOnce, SettledHasValue, VerdictStays, ClosureOnSettledStays, RunIsPrefix};

/// A run goes on by each event that may come.
pub fn run_goes_on()
    ensures { RunGoesOn }
{}

/// The beginning of a run is one.
pub fn run_has_begun()
    ensures { RunHasBegun }
{}

/// What is settled stays settled as a step starts.
pub fn settled_after_start()
    ensures { SettledAfterStart }
{}

/// What is settled stays settled as a step ends.
pub fn settled_after_end()
    ensures { SettledAfterEnd }
{}

/// What is needed stays needed as a run goes on.
pub fn needed_grows()
    ensures { NeededGrows }
{}

/// So it does as an open step ends, though others could start.
pub fn needed_through_end()
    ensures { NeededThroughEnd }
{}

/// A closure by what is settled is one by the clean build with all members settled, and the other way round.
pub fn closure_on_settled()
    ensures { ClosureOnSettled }
{}

/// A step that was started has its closure on what is settled.
pub fn started_has_closure()
    ensures { StartedHasClosure }
{}

/// A step that is done was started.
pub fn done_was_started()
    ensures { DoneWasStarted }
{}

/// A step is done once.
pub fn done_once()
    ensures { DoneOnce }
{}

/// No step starts twice, and none ends twice.
pub fn each_event_once()
    ensures { EachEventOnce }
{}

/// What is settled has a value in the clean build.
pub fn settled_has_value()
    ensures { SettledHasValue }
{}

/// A step is judged once: while all of its closure is settled, the verdict on it stays as events come.
pub fn verdict_stays()
    ensures { VerdictStays }
{}

/// A closure that is defined on what is settled stays as events come.
pub fn closure_on_settled_stays()
    ensures { ClosureOnSettledStays }
{}

/// Each run so far is a prefix of a run.
pub fn run_is_prefix()
    ensures { RunIsPrefix }
{}
