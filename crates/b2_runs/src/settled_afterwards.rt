//! Laws of the next update: what it finds settled and fresh, and what it starts.
ghost use Rattle.b2_runs.specs.AfterLaws.{CleanBySources, JudgedByPresent, SeenIsClean, ClosureByPresent, KnownByPresent, SettledAfterwards, FreshAfterwards, NoneCanStartAfterwards, NothingStartsAfterwards};

/// The clean build depends on files outside the roots alone.
pub fn clean_by_sources()
    ensures { CleanBySources }
{}

/// A step that was not started is judged by the present files as by those at entry.
pub fn judged_by_present()
    ensures { JudgedByPresent }
{}

/// Of what is settled the disk shows the values of the clean build, and no others.
pub fn seen_is_clean()
    ensures { SeenIsClean }
{}

/// The closure that the present disk shows on what is settled is that by the clean build there.
pub fn closure_by_present()
    ensures { ClosureByPresent }
{}

/// What a step is known to read by the present disk is what it is known to read by the clean build.
pub fn known_by_present()
    ensures { KnownByPresent }
{}

/// What was settled is settled to the next update, but for what an always-step or a notfile step reaches.
pub fn settled_afterwards()
    ensures { SettledAfterwards }
{}

/// A step whose outputs were settled is fresh to the next update, but for those that an always-step or a notfile step reaches.
pub fn fresh_afterwards()
    ensures { FreshAfterwards }
{}

/// Where all went well, the next update can at no moment of its run start any other step.
pub fn none_can_start_afterwards()
    ensures { NoneCanStartAfterwards }
{}

/// Where all went well, the run of the next update holds the start of no other step.
pub fn nothing_starts_afterwards()
    ensures { NothingStartsAfterwards }
{}
