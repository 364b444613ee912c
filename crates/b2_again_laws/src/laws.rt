//! Two calls of a session, one after the other, of which the second one asks for the same again. What it starts is said where
//! the log between them is within its limit.
ghost use Rattle.b2_again_laws.specs.Laws.{NextAtOnceIsOfOnePlan, NextAfterStopIsOfOnePlan, AgainStartsNone, AgainRepeatsNone, AfterStopRepeatsNone};

use b2_prepare::laws::one_meaning;

/// They are of one plan: no premise on plans is left.
pub fn next_at_once()
    ensures { NextAtOnceIsOfOnePlan }
{
    one_meaning();
}

/// So they are where the first one was stopped.
pub fn next_after_stop()
    ensures { NextAfterStopIsOfOnePlan }
{
    one_meaning();
}

/// After a call that answered Ok, one that asks for the same again, with no edit between them, starts no step but those that an
/// always-step or a notfile step reaches.
pub fn again_starts_none()
    ensures { AgainStartsNone }
{
    one_meaning();
}

/// Whatever a call answered, one that asks for the same again starts no step that was done well before its last start, with the
/// same exceptions.
pub fn again_repeats_none()
    ensures { AgainRepeatsNone }
{
    one_meaning();
}

/// Nor does it where the first one was stopped, and the host was opened again.
pub fn after_stop_repeats_none()
    ensures { AfterStopRepeatsNone }
{
    one_meaning();
}
