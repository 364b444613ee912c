//! Laws of causes and of cleaning.
ghost use Rattle.b2_explain.specs.Laws.{LogIsProper, CauseIsOne, ExplanationIsOne, CauseTellsStart, FreshIsSettled, FirstStarts, FoundIsExplained, CheckedIsWhy, CleanedIsStale};

/// The records that a log's file tells are proper.
pub fn log_is_proper()
    ensures { LogIsProper }
{}

/// A step has one cause.
pub fn cause_is_one()
    ensures { CauseIsOne }
{}

/// The needed steps are explained in one way.
pub fn explanation_is_one()
    ensures { ExplanationIsOne }
{}

/// The cause of a needed step calls for a start exactly where the step can start.
pub fn cause_tells_start()
    ensures { CauseTellsStart }
{}

/// A needed step is fresh, by its cause, exactly where it is settled.
pub fn fresh_is_settled()
    ensures { FreshIsSettled }
{}

/// The steps whose causes call for a start are those that an update with 64 jobs starts before the first one is done.
pub fn first_starts()
    ensures { FirstStarts }
{}

/// What is found by true facts is so where the update begins.
pub fn found_is_explained()
    ensures { FoundIsExplained }
{}

/// A claim is right exactly where it is by true facts.
pub fn checked_is_why()
    ensures { CheckedIsWhy }
{}

/// After cleaning each step is to run by the first or the second point of staleness.
pub fn cleaned_is_stale()
    ensures { CleanedIsStale }
{}
