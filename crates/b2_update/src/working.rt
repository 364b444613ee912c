//! The loop of an update.
ghost use Rattle.std.specs.Prelude.{◌≡◌, ◌≤◌, ◌<◌, OnOk, MatchResult};
ghost use Rattle.b2_host.specs.OutsideLaws.{Keeps};
ghost use Rattle.b2_plan.specs.Plans.{Apart};
ghost use Rattle.b2_runs.specs.Moments.{Moment};
ghost use Rattle.b2_update.specs.Moments.{moment};
ghost use Rattle.b2_update.specs.Going.{IsGoing, Halts, SameWay, Rests, NoneStarts, unended};
ghost use Rattle.b2_update.specs.InRun.{Tells};

use crate::hearing::hear;
use crate::run::Run;
use crate::starting::start_all;
use crate::stop::UpdateStop;
use b2_host::children::Children;
use b2_host::sink::Sink;
use b2_plan::plan::Plan;
use std::alloc::Global;

/// Looks at steps until none can be looked at, and starts steps until none can start.
fn go_on<H: Children, S: Sink>(
    alloc: Global,
    plan: &Plan,
    run: &mut Run,
    host: &mut H,
    out: &mut S,
) -> Result<(), UpdateStop>
    requires apart { Apart plan.now.steps plan.now.roots }
    requires going { (entry : Moment) × IsGoing plan.now entry (moment (H.outside host.old) (S.output out.old)) run.old }
    ensures way { OnOk result (SameWay run.old run.new) }
    ensures kept { Keeps (H.outside host.old) (H.outside host.new) }
    ensures going { (entry : Moment) → IsGoing plan.now entry (moment (H.outside host.old) (S.output out.old)) run.old
        → MatchResult result
        (λ x. IsGoing plan.now entry (moment (H.outside host.new) (S.output out.new)) run.new)
        (Halts plan.now run.old.looks.board.sched.jobs run.new.waits entry
        (moment (H.outside host.new) (S.output out.new))) }
    ensures rests { OnOk result (Rests run.new) }
    ensures none { OnOk result (NoneStarts run.new) }
    ensures unended { OnOk result (unended run.new.looks.board.sched ≤ unended run.old.looks.board.sched) }
    ensures told { Tells plan.now H.made (moment (H.outside host.old) (S.output out.old)) run.old
        (moment (H.outside host.new) (S.output out.new)) run.new result }
{
    run.looks.look_all(alloc, plan, &mut run.sights, host)?;
    start_all(alloc, plan, run, host, out)
}

/// Waits for a child, and goes on.
fn turn<H: Children, S: Sink>(
    alloc: Global,
    plan: &Plan,
    run: &mut Run,
    host: &mut H,
    out: &mut S,
) -> Result<(), UpdateStop>
    requires apart { Apart plan.now.steps plan.now.roots }
    requires going { (entry : Moment) × IsGoing plan.now entry (moment (H.outside host.old) (S.output out.old)) run.old }
    requires rests { Rests run.old }
    requires none_starts { NoneStarts run.old }
    requires some_open { 0 < run.old.waits }
    ensures way { OnOk result (SameWay run.old run.new) }
    ensures kept { Keeps (H.outside host.old) (H.outside host.new) }
    ensures going { (entry : Moment) → IsGoing plan.now entry (moment (H.outside host.old) (S.output out.old)) run.old
        → MatchResult result
        (λ x. IsGoing plan.now entry (moment (H.outside host.new) (S.output out.new)) run.new)
        (Halts plan.now run.old.looks.board.sched.jobs run.new.waits entry
        (moment (H.outside host.new) (S.output out.new))) }
    ensures rests { OnOk result (Rests run.new) }
    ensures none { OnOk result (NoneStarts run.new) }
    ensures fewer { OnOk result (unended run.new.looks.board.sched < unended run.old.looks.board.sched) }
    ensures told { Tells plan.now H.made (moment (H.outside host.old) (S.output out.old)) run.old
        (moment (H.outside host.new) (S.output out.new)) run.new result }
{
    hear(alloc, plan, run, host, out)?;
    go_on(alloc, plan, run, host, out)
}

/// Runs steps until none runs, and none can start.
pub fn work<H: Children, S: Sink>(
    alloc: Global,
    plan: &Plan,
    run: &mut Run,
    host: &mut H,
    out: &mut S,
) -> Result<(), UpdateStop>
    requires apart { Apart plan.now.steps plan.now.roots }
    requires going { (entry : Moment) × IsGoing plan.now entry (moment (H.outside host.old) (S.output out.old)) run.old }
    ensures way { OnOk result (SameWay run.old run.new) }
    ensures kept { Keeps (H.outside host.old) (H.outside host.new) }
    ensures going { (entry : Moment) → IsGoing plan.now entry (moment (H.outside host.old) (S.output out.old)) run.old
        → MatchResult result
        (λ x. IsGoing plan.now entry (moment (H.outside host.new) (S.output out.new)) run.new)
        (Halts plan.now run.old.looks.board.sched.jobs run.new.waits entry
        (moment (H.outside host.new) (S.output out.new))) }
    ensures rests { OnOk result (Rests run.new) }
    ensures none { OnOk result (NoneStarts run.new) }
    ensures idle { OnOk result (run.new.waits ≡ 0) }
    ensures told { Tells plan.now H.made (moment (H.outside host.old) (S.output out.old)) run.old
        (moment (H.outside host.new) (S.output out.new)) run.new result }
{
    go_on(alloc, plan, run, host, out)?;
    while run.waits > 0 {
        turn(alloc, plan, run, host, out)?;
    }
    Ok(())
}
