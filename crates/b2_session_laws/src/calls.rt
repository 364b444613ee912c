//! Calls of the program are calls of a session. So the laws of sessions hold of them.
ghost use Rattle.b2_session_laws.specs.Calls.{BuildsAreCalls, JamBuildsAreCalls};

/// A call of the build command that keeps its promises is a call of a session.
pub fn builds_are_calls()
    ensures { BuildsAreCalls }
{}

/// So is a call of plain Jam mode.
pub fn jam_builds_are_calls()
    ensures { JamBuildsAreCalls }
{}
