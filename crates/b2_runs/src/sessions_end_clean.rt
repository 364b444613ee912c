//! Laws of sessions: the log stays true, and what an update leaves is the clean build.
ghost use Rattle.std.specs.Prelude.{ℕ, List};
ghost use Rattle.b2_host.specs.Disks.{Past};
ghost use Rattle.b2_runs.specs.Moments.{Moment};
ghost use Rattle.b2_runs.specs.SessionLaws.{TrueThroughEdit, TrueThroughStop, UpdatesLeaveTrue, PastGrowsThroughSession, TrueThroughSession, SessionSplits, SessionEndsWith, UpdateLeavesClean, SessionEndsClean, NotedThroughReopen, UpdateCountsFault, StopCountsFault, UpdateLeavesNone, StopLeavesNone};

use std::marker::Brand;

/// What is asked for in a session, what it needs of all that stood, and what follows on it: an answer, and another moment.
pub trait Follow {
    ghost Asked: { Type 0 };

    ghost Answer: { Type 0 };

    ghost needs: { Asked → List Past → Type 0 };

    ghost follows: { Asked → Answer → Moment → Moment → Type 0 };
}

impl Follow for Brand {
    ghost Asked = { ℕ };

    ghost Answer = { ℕ };

    ghost needs = { λ asked past. ⊥ };

    ghost follows = { λ asked answer before after. ⊥ };
}

/// An edit leaves a true log true.
pub fn true_through_edit()
    ensures { TrueThroughEdit }
{}

/// So does an update that is stopped, with the host opened again after it.
pub fn true_through_stop()
    ensures { TrueThroughStop }
{}

/// Updates of plans do, whose steps make the same of bytes, and they do where they are stopped.
pub fn updates_leave_true()
    ensures { UpdatesLeaveTrue }
{}

/// Through a whole session of what forgets nothing that stood nothing is forgotten.
pub fn past_grows_through_session<F: Follow>()
    ensures { PastGrowsThroughSession F.follows }
{}

/// A whole session of what leaves a true log true does so.
pub fn true_through_session<F: Follow>()
    ensures { TrueThroughSession F.needs F.follows }
{}

/// A session is one of its first events, followed by one of the others.
pub fn session_splits<F: Follow>()
    ensures { SessionSplits F.follows }
{}

/// Where a session ends with something that is asked for, it follows between some moment and the last one.
pub fn session_ends_with<F: Follow>()
    ensures { SessionEndsWith F.follows }
{}

/// An update that answers that all went well leaves the clean build of the sources as they stand then.
pub fn update_leaves_clean()
    ensures { UpdateLeavesClean }
{}

/// So does a session whose last event is such an update.
pub fn session_ends_clean()
    ensures { SessionEndsClean }
{}

/// What the log's last lines were on when an update was stopped they still are when the host is opened again.
pub fn noted_through_reopen()
    ensures { NotedThroughReopen }
{}

/// An update of a session that answers a fault of the host has raised the host's count of faults, unless it is at the greatest.
pub fn update_counts_fault()
    ensures { UpdateCountsFault }
{}

/// So has one that was stopped, with the same exception.
pub fn stop_counts_fault()
    ensures { StopCountsFault }
{}

/// No child runs after an update of a session.
pub fn update_leaves_none()
    ensures { UpdateLeavesNone }
{}

/// Nor does one after an update that was stopped and whose host was opened again.
pub fn stop_leaves_none()
    ensures { StopLeavesNone }
{}
