//! What the schedule is told of a step's needs.
ghost use Rattle.std.specs.Prelude.{◌≡◌, ◌⊎◌, ℕ, OnOk};
ghost use Rattle.std.specs.List.{Contains};
ghost use Rattle.b2_sched.specs.Schedules.{IsStep, IsNeeded, IsSettled};
ghost use Rattle.b2_sched.specs.SchedulerCalls.{with_need};
ghost use Rattle.b2_board.specs.Needs.{IsEven, TellsNeeds};

use b2_base::fault::OutOfMemory;
use b2_sched::sched::Sched;

/// Tells that a step needs another one, unless that is settled.
fn tell_need(sched: &mut Sched, step: u32, on: u32) -> Result<(), OutOfMemory>
    requires step { IsNeeded sched.old step }
    requires on { IsStep sched.old on }
    ensures { OnOk result ((IsSettled sched.old on × (sched.new ≡ sched.old))
        ⊎ ((IsSettled sched.old on → ⊥) × (sched.new ≡ with_need sched.old step on))) }
{
    if !sched.settled(on) {
        sched.add_need(step, on)?;
    }
    Ok(())
}

/// Tells that a step needs these steps, as far as they are not settled.
pub fn tell_needs(sched: &mut Sched, step: u32, on: &[u32]) -> Result<(), OutOfMemory>
    requires step { IsNeeded sched.old step }
    requires on { (k : ℕ) → Contains on.now k → IsStep sched.old k }
    requires even { IsEven sched.old }
    ensures { OnOk result (TellsNeeds step on.now sched.old sched.new) }
{
    for need in on {
        tell_need(sched, step, *need)?;
    }
    Ok(())
}
