//! The plan of a call that comes after an update, with no edit between them.
ghost use Rattle.b2_source_laws.specs.NextPlans.{UpdatesLeaveSources, HostUpdatesLeaveSources, StopsLeaveSources, PlanComesAgain, NextIsOfSamePlan};

use b2_prepare::laws::one_meaning;

/// An update changes no source: the log and all outputs lie under output roots.
pub fn updates_leave_sources()
    ensures { UpdatesLeaveSources }
{}

/// Nor has an update changed one that has come to its end on a host, or was cut off there.
pub fn host_updates_leave_sources()
    ensures { HostUpdatesLeaveSources }
{}

/// Nor has a stop, nor the children that end when the host is opened again.
pub fn stops_leave_sources()
    ensures { StopsLeaveSources }
{}

/// Where the sources stay, the same free words come to the same plan again, with the same lines of ECHO.
pub fn plan_comes_again()
    ensures { PlanComesAgain }
{}

/// The update of a call that asks for the same again is of the same plan, where the sources stay.
pub fn next_is_of_same_plan()
    ensures { NextIsOfSamePlan }
{
    one_meaning();
}
