//! Laws of judging: it does not look at how many children may be open, nor at whether the update is to quit.
ghost use Rattle.b2_runs.specs.JudgeLaws.{FreshHoweverRun, SettledHoweverRun, KnownHoweverRun, NeededHoweverRun};

/// The same steps are fresh, however an update is run.
pub fn fresh_however_run()
    ensures { FreshHoweverRun }
{}

/// The same paths are settled.
pub fn settled_however_run()
    ensures { SettledHoweverRun }
{}

/// The same is known of what a step reads.
pub fn known_however_run()
    ensures { KnownHoweverRun }
{}

/// The same steps are needed.
pub fn needed_however_run()
    ensures { NeededHoweverRun }
{}
