//! Laws of children beside a run: what they are given, and which of them are at work.
ghost use Rattle.b2_runs.specs.ChildLaws.{StartGivesClosure, StartMayBegin, AtWorkAtEntry, AtWorkAfterStart, AtWorkAfterEnd, EndIsOpen, GivenAfterStart, GivenAfterEnd, OpenStepsAtEntry, OpenStepsAfterStart, OpenStepsAfterEnd, OpenStepsAfterFailedWait, EndsOpenStep, PlanChildrenAtEntry, PlanChildMayStart, PlanChildrenAfterStart, PlanChildrenAfterEnd, PlanChildrenAsOneSettles};

/// The child of a step that can start is given its closure, where it is handed the members that have bytes.
pub fn start_gives_closure()
    ensures { StartGivesClosure }
{}

/// A step that can start may start beside the children that are at work.
pub fn start_may_begin()
    ensures { StartMayBegin }
{}

/// Before any event no child is at work.
pub fn at_work_at_entry()
    ensures { AtWorkAtEntry }
{}

/// After a start one child more is at work.
pub fn at_work_after_start()
    ensures { AtWorkAfterStart }
{}

/// After an end one child less is at work.
pub fn at_work_after_end()
    ensures { AtWorkAfterEnd }
{}

/// A child that ends is that of an open step.
pub fn end_is_open()
    ensures { EndIsOpen }
{}

/// Each start has its entry in what was given, as one more starts.
pub fn given_after_start()
    ensures { GivenAfterStart }
{}

/// Each start has its entry in what was given, as one ends.
pub fn given_after_end()
    ensures { GivenAfterEnd }
{}

/// Over every host: before any event no child runs and no step is open.
pub fn open_steps_at_entry()
    ensures { OpenStepsAtEntry }
{}

/// After the start of a step that was not started one child more runs.
pub fn open_steps_after_start()
    ensures { OpenStepsAfterStart }
{}

/// After the end of any child one less runs.
pub fn open_steps_after_end()
    ensures { OpenStepsAfterEnd }
{}

/// After a wait that failed the same children run.
pub fn open_steps_after_failed_wait()
    ensures { OpenStepsAfterFailedWait }
{}

/// A child that ends is that of an open step.
pub fn ends_open_step()
    ensures { EndsOpenStep }
{}

/// Before any start no child runs.
pub fn plan_children_at_entry()
    ensures { PlanChildrenAtEntry }
{}

/// A step that was not started and is not settled may start beside those that run, where it reads what settled steps make.
pub fn plan_child_may_start()
    ensures { PlanChildMayStart }
{}

/// After its start one such child more runs.
pub fn plan_children_after_start()
    ensures { PlanChildrenAfterStart }
{}

/// After the end of any of them one child less runs.
pub fn plan_children_after_end()
    ensures { PlanChildrenAfterEnd }
{}

/// They stay such as a step that was not started is judged fresh.
pub fn plan_children_as_one_settles()
    ensures { PlanChildrenAsOneSettles }
{}
