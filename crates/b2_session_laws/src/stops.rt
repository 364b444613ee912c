//! What a stop keeps, and what a call leaves true.
ghost use Rattle.b2_session_laws.specs.Stops.{StopKeeps, CallsLeaveTrue};

use b2_prepare::laws::one_meaning;
use jam_prepare::laws::one_meaning as one_jam_meaning;

/// After a stop the log has a record of each step that was done well before the last start.
pub fn stop_keeps()
    ensures { StopKeeps }
{
    one_meaning();
    one_jam_meaning();
}

/// A call leaves a true log true, and so does a stop.
pub fn calls_leave_true()
    ensures { CallsLeaveTrue }
{}
