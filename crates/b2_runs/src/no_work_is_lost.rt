//! Laws of updates that stop anywhere: what was done in the run so far is not done again.
ghost use Rattle.b2_runs.specs.StopLaws.{RunIsBegun, BegunGoesOn, BegunUpToStart, SoundBeforeEnds, NotedThroughEnds, NotedThoughTorn, FinishedIsRecorded, FreshThoughStopped, NotStartedAgain, NoWorkIsLost, BegunHoldsEarlier};

/// A run so far has begun, without ends after it.
pub fn run_is_begun()
    ensures { RunIsBegun }
{}

/// What has begun still has where one more step that is open ends.
pub fn begun_goes_on()
    ensures { BegunGoesOn }
{}

/// What has begun is, up to any start, a run so far.
pub fn begun_up_to_start()
    ensures { BegunUpToStart }
{}

/// A disk that is sound after the events is sound after the run so far in them.
pub fn sound_before_ends()
    ensures { SoundBeforeEnds }
{}

/// What was noted in the run so far stays so, whatever the children do that end after it.
pub fn noted_through_ends()
    ensures { NotedThroughEnds }
{}

/// What is noted with a line and without it is noted after a torn append of it.
pub fn noted_though_torn()
    ensures { NotedThoughTorn }
{}

/// Of a finished step the log has a record that agrees with the files.
pub fn finished_is_recorded()
    ensures { FinishedIsRecorded }
{}

/// Wherever an update stopped, a step whose outputs were settled in its run so far is fresh to the next update, where the
/// log and the files have it noted and no always-step and no step without files reaches it.
pub fn fresh_though_stopped()
    ensures { FreshThoughStopped }
{}

/// The next update starts no such step.
pub fn not_started_again()
    ensures { NotStartedAgain }
{}

/// So the next update starts no step that was done well in the run so far.
pub fn no_work_is_lost()
    ensures { NoWorkIsLost }
{}

/// What came before a start of an update that stopped is in the run so far.
pub fn begun_holds_earlier()
    ensures { BegunHoldsEarlier }
{}
