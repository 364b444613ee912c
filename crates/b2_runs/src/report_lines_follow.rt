//! Laws of the report of an update.
ghost use Rattle.b2_runs.specs.ReportLaws.{LinesFollow, UnnamedStartsSilently, AllIsTold, ToldThroughEnds, StoppedAtLine, StoppedThroughEnds};

/// The lines of more events follow those of the first.
pub fn lines_follow()
    ensures { LinesFollow }
{}

/// A step with an empty name has no start line.
pub fn unnamed_starts_silently()
    ensures { UnnamedStartsSilently }
{}

/// Where the lines of all events were written, each start is told.
pub fn all_is_told()
    ensures { AllIsTold }
{}

/// It stays told as a step ends.
pub fn told_through_ends()
    ensures { ToldThroughEnds }
{}

/// Where a first part of the line of the last event was written, the writing stopped there.
pub fn stopped_at_line()
    ensures { StoppedAtLine }
{}

/// There it stopped, as steps end.
pub fn stopped_through_ends()
    ensures { StoppedThroughEnds }
{}
