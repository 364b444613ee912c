//! What is done as a child ends.
ghost use Rattle.std.specs.Prelude.{◌≡◌, ◌<◌, Bool, true, false, IfOk, OnOk, MatchResult};
ghost use Rattle.b2_host.specs.Output.{Output};
ghost use Rattle.b2_host.specs.OutsideLaws.{Keeps};
ghost use Rattle.b2_plan.specs.Plans.{Apart};
ghost use Rattle.b2_runs.specs.Moments.{Moment};
ghost use Rattle.b2_runs.specs.Reports.{failed_line};
ghost use Rattle.b2_endings.specs.Writings.{Says};
ghost use Rattle.b2_update.specs.Moments.{moment};
ghost use Rattle.b2_update.specs.Going.{IsGoing, HasHeard, EndsAs, Halts, SameWay, Rests, NoneStarts, unended};
ghost use Rattle.b2_update.specs.InRun.{Tells, WaitTells, SettleTells};

use crate::run::Run;
use crate::stop::{UpdateStop, sink_stop};
use b2_board::steps::step_of;
use b2_endings::lines::failed_text;
use b2_endings::lists::write_line;
use b2_facts::stop::FilesStop;
use b2_host::children::Children;
use b2_host::fault::IoFault;
use b2_host::sink::Sink;
use b2_plan::plan::Plan;
use b2_plan::step::Step;
use b2_turns::ends::{clear_failed, finish, note_made};
use b2_turns::laws::end_comes;
use std::alloc::Global;

/// Waits for a child. A wait that failed is not tried again.
fn wait<H: Children>(_plan: &Plan, run: &mut Run, host: &mut H) -> Result<(u32, bool), UpdateStop>
    requires apart { Apart _plan.now.steps _plan.now.roots }
    requires going { (entry here : Moment) × (here.host ≡ H.outside host.old) × IsGoing _plan.now entry here run.old }
    requires rests { Rests run.old }
    requires none_starts { NoneStarts run.old }
    requires some_open { 0 < run.old.waits }
    ensures same { run.new ≡ record run.old { waits = run.new.waits } }
    ensures keeps { Keeps (H.outside host.old) (H.outside host.new) }
    ensures heard { (entry : Moment) (output : Output)
        → IsGoing _plan.now entry (moment (H.outside host.old) output) run.old → MatchResult result
        (λ ended. HasHeard _plan.now ended.0 ended.1 entry (moment (H.outside host.new) output) run.new)
        (Halts _plan.now run.new.looks.board.sched.jobs run.new.waits entry (moment (H.outside host.new) output)) }
    ensures told { (output : Output) → WaitTells _plan.now H.made (moment (H.outside host.old) output) run.old
        (moment (H.outside host.new) output) run.new result }
{
    // Laws: no step can start in the run, so an end may come.
    run.looks.board.sched.sound();
    end_comes();

    run.waits -= 1;
    match host.wait_one() {
        Ok(ended) => Ok(ended),
        Err(_failed) => Err(UpdateStop::Files(FilesStop::Host)),
    }
}

/// Writes the line of a step that failed.
fn tell_failure<S: Sink>(alloc: Global, out: &mut S, step: &Step) -> Result<(), IoFault>
    ensures { Says (failed_line step.now) (S.output out.old) (S.output out.new) result }
{
    let line = failed_text(alloc, step)?;
    write_line(out, line.as_str())
}

/// Leaves nothing of a step whose child has ended, and writes its line. It was not updated.
fn fail<H: Children, S: Sink>(
    alloc: Global,
    plan: &Plan,
    run: &mut Run,
    host: &mut H,
    out: &mut S,
    number: u32,
) -> Result<bool, UpdateStop>
    requires apart { Apart plan.now.steps plan.now.roots }
    requires heard { (entry : Moment) × (well : Bool)
        × HasHeard plan.now number well entry (moment (H.outside host.old) (S.output out.old)) run.old }
    ensures same { run.new ≡ record run.old { sights = run.new.sights } }
    ensures keeps { Keeps (H.outside host.old) (H.outside host.new) }
    ensures bad { IfOk result (λ updated. updated ≡ false) }
    ensures heard { (entry : Moment) (well : Bool)
        → HasHeard plan.now number well entry (moment (H.outside host.old) (S.output out.old)) run.old
        → EndsAs plan.now number well entry false
        → MatchResult result
        (λ updated. HasHeard plan.now number well entry (moment (H.outside host.new) (S.output out.new)) run.new)
        (Halts plan.now run.new.looks.board.sched.jobs run.new.waits entry
        (moment (H.outside host.new) (S.output out.new))) }
    ensures told { SettleTells plan.now H.made number false (moment (H.outside host.old) (S.output out.old)) run.old
        (moment (H.outside host.new) (S.output out.new)) run.new result }
{
    clear_failed(alloc, plan, &run.looks, &mut run.sights, host, number)?;
    match tell_failure(alloc, out, step_of(plan.steps.as_slice(), number)) {
        Ok(()) => Ok(false),
        Err(fault) => Err(sink_stop(fault)),
    }
}

/// Notes the record of a step whose child has ended well, where it left its outputs. Else it has failed. Answers whether it
/// was updated.
fn settle_good<H: Children, S: Sink>(
    alloc: Global,
    plan: &Plan,
    run: &mut Run,
    host: &mut H,
    out: &mut S,
    number: u32,
) -> Result<bool, UpdateStop>
    requires apart { Apart plan.now.steps plan.now.roots }
    requires heard { (entry : Moment)
        × HasHeard plan.now number true entry (moment (H.outside host.old) (S.output out.old)) run.old }
    ensures same { run.new ≡ record run.old { sights = run.new.sights } }
    ensures keeps { Keeps (H.outside host.old) (H.outside host.new) }
    ensures heard { (entry : Moment)
        → HasHeard plan.now number true entry (moment (H.outside host.old) (S.output out.old)) run.old
        → MatchResult result (λ updated. EndsAs plan.now number true entry updated
        × HasHeard plan.now number true entry (moment (H.outside host.new) (S.output out.new)) run.new)
        (Halts plan.now run.new.looks.board.sched.jobs run.new.waits entry
        (moment (H.outside host.new) (S.output out.new))) }
    ensures told { SettleTells plan.now H.made number true (moment (H.outside host.old) (S.output out.old)) run.old
        (moment (H.outside host.new) (S.output out.new)) run.new result }
{
    if note_made(alloc, plan, &run.looks, &mut run.sights, host, number)? {
        return Ok(true);
    }
    fail(alloc, plan, run, host, out, number)
}

/// Notes the record of a step whose child has ended, where it ended well and left its outputs. Else leaves nothing of the
/// step, and writes its line. Answers whether the step was updated.
fn settle<H: Children, S: Sink>(
    alloc: Global,
    plan: &Plan,
    run: &mut Run,
    host: &mut H,
    out: &mut S,
    number: u32,
    well: bool,
) -> Result<bool, UpdateStop>
    requires apart { Apart plan.now.steps plan.now.roots }
    requires heard { (entry : Moment)
        × HasHeard plan.now number well entry (moment (H.outside host.old) (S.output out.old)) run.old }
    ensures same { run.new ≡ record run.old { sights = run.new.sights } }
    ensures keeps { Keeps (H.outside host.old) (H.outside host.new) }
    ensures heard { (entry : Moment)
        → HasHeard plan.now number well entry (moment (H.outside host.old) (S.output out.old)) run.old
        → MatchResult result (λ updated. EndsAs plan.now number well entry updated
        × HasHeard plan.now number well entry (moment (H.outside host.new) (S.output out.new)) run.new)
        (Halts plan.now run.new.looks.board.sched.jobs run.new.waits entry
        (moment (H.outside host.new) (S.output out.new))) }
    ensures told { SettleTells plan.now H.made number well (moment (H.outside host.old) (S.output out.old)) run.old
        (moment (H.outside host.new) (S.output out.new)) run.new result }
{
    if well {
        settle_good(alloc, plan, run, host, out, number)
    } else {
        fail(alloc, plan, run, host, out, number)
    }
}

/// Waits for a child, and does what its end calls for.
pub fn hear<H: Children, S: Sink>(
    alloc: Global,
    plan: &Plan,
    run: &mut Run,
    host: &mut H,
    out: &mut S,
) -> Result<(), UpdateStop>
    requires apart { Apart plan.now.steps plan.now.roots }
    requires going { (entry : Moment) × IsGoing plan.now entry (moment (H.outside host.old) (S.output out.old)) run.old }
    requires rests { Rests run.old }
    requires none_starts { NoneStarts run.old }
    requires some_open { 0 < run.old.waits }
    ensures way { SameWay run.old run.new }
    ensures kept { Keeps (H.outside host.old) (H.outside host.new) }
    ensures going { (entry : Moment) → IsGoing plan.now entry (moment (H.outside host.old) (S.output out.old)) run.old
        → MatchResult result
        (λ x. IsGoing plan.now entry (moment (H.outside host.new) (S.output out.new)) run.new)
        (Halts plan.now run.new.looks.board.sched.jobs run.new.waits entry
        (moment (H.outside host.new) (S.output out.new))) }
    ensures fewer { OnOk result (unended run.new.looks.board.sched < unended run.old.looks.board.sched) }
    ensures told { Tells plan.now H.made (moment (H.outside host.old) (S.output out.old)) run.old
        (moment (H.outside host.new) (S.output out.new)) run.new result }
{
    let (number, well) = wait(plan, run, host)?;
    let updated = settle(alloc, plan, run, host, out, number, well)?;
    finish(&mut run.looks, number, updated);
    run.updated += updated as usize;
    Ok(())
}
