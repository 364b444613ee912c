//! What is to be done with a member.
ghost use Rattle.std.specs.Prelude.{◌≡◌, ◌+◌, ℕ, List as Items, IfOk, OnErr, IsTrue, true, false, length, Some};
ghost use Rattle.b2_host.specs.Outside.{Looks};
ghost use Rattle.b2_plan.specs.declared.step.Step.{Step};
ghost use Rattle.b2_plan.specs.Plans.{step_at};
ghost use Rattle.b2_sched.specs.Schedules.{IsSettled, IsStep};
ghost use Rattle.b2_facts.specs.declared.file_facts.FileFacts.{FileFacts};
ghost use Rattle.b2_facts.specs.Facts.{IsAbout, IsNumber, file_at};
ghost use Rattle.b2_facts.specs.Asks.{IsToldGiven};
ghost use Rattle.b2_reach.specs.Dues.{IsDue, IsOwing, IsMadeDue};

use b2_facts::file_facts::FileFacts;
use b2_plan::plan::Plan;
use b2_sched::sched::Sched;

/// What is to be done with a member.
#[derive(Clone, Copy)]
pub enum Due {
    /// Nothing: it has no bytes that are scanned.
    Nothing,
    /// It is missing, which is to be told.
    Lack,
    /// It is to wait for its maker.
    Wait,
    /// It is at hand, and to be scanned.
    Read,
}

/// Whether a step owes a file at each of its outputs.
fn owes_files(plan: &Plan, number: u32) -> bool
    requires { (step : Step) × (step_at plan.now.steps number ≡ Some step) }
    ensures { IsOwing plan.now.steps number result }
{
    let step = &plan.steps.as_slice()[number as usize - 1];
    !step.notfile
}

/// What is to be done with a scanned output of a step.
fn made_due(plan: &Plan, sched: &Sched, number: u32) -> Due
    requires at { (step : Step) × (step_at plan.now.steps number ≡ Some step) }
    requires step { IsStep sched.now number }
    ensures { IsMadeDue plan.now.steps (IsSettled sched.now) number result }
{
    if !owes_files(plan, number) {
        return Due::Nothing;
    }
    if sched.settled(number) {
        Due::Read
    } else {
        Due::Wait
    }
}

/// What is to be done with a member of which is known whether it is given. Takes no memory.
pub fn due_of(plan: &Plan, sched: &Sched, file: &FileFacts, given: bool) -> Due
    requires given { IsToldGiven file.now given }
    requires at { (number : ℕ) → file.now.maker ≡ Some number → (step : Step) × (step_at plan.now.steps number ≡ Some step) }
    requires step { (number : ℕ) → file.now.maker ≡ Some number → IsStep sched.now number }
    ensures { IsDue plan.now.steps (IsSettled sched.now) file.now result }
{
    if !given {
        return Due::Lack;
    }
    if !file.scanned {
        return Due::Nothing;
    }
    match file.maker {
        None => Due::Read,
        Some(number) => made_due(plan, sched, number),
    }
}
