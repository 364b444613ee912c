//! Laws of whole runs: what may come next is one, and where the clean build is defined and nothing fails all is built.
ghost use Rattle.b2_runs.specs.CompleteLaws.{NothingIsLeft, NothingIsMissed, StartIsOne, StartsComeFirst, FailedIsNotSettled};

/// Where the clean build is defined and nothing failed, no needed step is left, so none is skipped or stuck.
pub fn nothing_is_left()
    ensures { NothingIsLeft }
{}

/// Where the clean build is defined, no path is missing.
pub fn nothing_is_missed()
    ensures { NothingIsMissed }
{}

/// One start at most may come.
pub fn start_is_one()
    ensures { StartIsOne }
{}

/// Where a start may come, no end may.
pub fn starts_come_first()
    ensures { StartsComeFirst }
{}

/// No output of a failed step is settled.
pub fn failed_is_not_settled()
    ensures { FailedIsNotSettled }
{}
