//! Two calls of a session, one after the other. Of the second one it is said where it is of the same plan, is not to run all, and
//! finds a log within its limit.
ghost use Rattle.b2_session_laws.specs.Neighbours.{NextIsFresh, NoWorkIsLost, StopLosesNoWork, UpdatesAreNeighbours, StopAndUpdateAreNeighbours};

/// After a call that answered Ok, the next one of the same plan starts no step but those that an always-step or a notfile step reaches.
pub fn next_is_fresh()
    ensures { NextIsFresh }
{}

/// Whatever a call answered, the next one of the same plan starts no step that was done well before its last start, with
/// the same exceptions.
pub fn no_work_is_lost()
    ensures { NoWorkIsLost }
{}

/// Nor does it where the first one was stopped, and the host was opened again.
pub fn stop_loses_no_work()
    ensures { StopLosesNoWork }
{}

/// An update of a session and the update right after it are such calls.
pub fn updates_are_neighbours()
    ensures { UpdatesAreNeighbours }
{}

/// So are an update that was stopped and the update right after it.
pub fn stop_and_update_are_neighbours()
    ensures { StopAndUpdateAreNeighbours }
{}
