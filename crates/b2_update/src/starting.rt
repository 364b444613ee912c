//! How steps are started.
ghost use Rattle.std.specs.Prelude.{◌≡◌, ◌≢◌, ◌<◌, ◌+◌, ◌^◌, ℕ, List as Items, [], ◌∷◌, ◌++◌, length, true, false, Some, IfSome, OnSome, Err, IfOk, OnOk, OnErr, MatchResult};
ghost use Rattle.std.specs.Option.{IfNone};
ghost use Rattle.std.specs.Result.{IfErr};
ghost use Rattle.std.specs.List.{AllZip};
ghost use Rattle.b2_host.specs.declared.children.ChildEvent.{ChildEvent};
ghost use Rattle.b2_host.specs.declared.children.ChildEvent.TheVariants.{Start};
ghost use Rattle.b2_host.specs.declared.fault.IoFault.{IoFault};
ghost use Rattle.b2_host.specs.ChildProcesses.{MayStart};
ghost use Rattle.b2_host.specs.ChildCalls.{started};
ghost use Rattle.b2_host.specs.Outside.{IoLooks};
ghost use Rattle.b2_host.specs.OutsideLaws.{Keeps};
ghost use Rattle.b2_host.specs.Output.{with_written};
ghost use Rattle.b2_plan.specs.Plans.{Apart};
ghost use Rattle.b2_runs.specs.Moments.{Moment};
ghost use Rattle.b2_sched.specs.Schedules.{QuitsNow};
ghost use Rattle.b2_sched.specs.SchedulerCalls.{StartsNext};
ghost use Rattle.b2_sched.specs.Sound.{IsSound};
ghost use Rattle.b2_facts.specs.Facts.{IsAbout, path_at};
ghost use Rattle.b2_verdicts.specs.Sights.{AreNumbers};
ghost use Rattle.b2_verdicts.specs.declared.step_numbers.StepNumbers.{StepNumbers};
ghost use Rattle.b2_looks.specs.Looks.{ready_at, AreLooks, Follows};
ghost use Rattle.b2_turns.specs.Starts.{Begins};
ghost use Rattle.b2_endings.specs.Writings.{Says};
ghost use Rattle.b2_update.specs.Stops.{host_stop_of, sink_stop_of};
ghost use Rattle.b2_update.specs.Moments.{moment};
ghost use Rattle.b2_update.specs.Going.{IsGoing, Halts, SameWay, Rests, NoneStarts, unended, stale};
ghost use Rattle.b2_update.specs.InRun.{Tells};

use crate::run::Run;
use crate::stop::{UpdateStop, host_stop, sink_stop};
use b2_base::fault::OutOfMemory;
use b2_base::path::Path;
use b2_board::steps::step_of;
use b2_endings::lists::write_line;
use b2_facts::facts::Facts;
use b2_host::children::Children;
use b2_host::sink::Sink;
use b2_plan::plan::Plan;
use b2_plan::step::Step;
use b2_runs::steps::start_line;
use b2_turns::starts::take_start;
use std::alloc::Global;

/// The paths of files, in order.
fn paths_of(alloc: Global, facts: &Facts, numbers: &[u32]) -> Result<Vec<Path>, OutOfMemory>
    requires { AreNumbers facts.now numbers.now }
    ensures { IfOk result (λ paths. AllZip (λ n path. path_at facts.now n ≡ Some path) numbers.now paths.items) }
{
    let mut paths = Vec::new(alloc);
    paths.reserve_exact(numbers.len())?;
    for number in numbers {
        paths.push(facts.path(*number).copy()?)?;
    }
    Ok(paths)
}

/// Takes the next step that is to start: none where the update quits.
fn take_next(plan: &Plan, run: &mut Run) -> Option<u32>
    requires apart { Apart plan.now.steps plan.now.roots }
    requires about { IsAbout plan.now.steps plan.now.roots run.old.sights.facts }
    requires looks { AreLooks plan.now 0 run.old.sights.facts run.old.looks }
    ensures sound { IsSound run.old.looks.board.sched }
    ensures none { IfNone result (NoneStarts run.old) }
    ensures left { IfNone result (run.new ≡ run.old) }
    ensures next { IfSome result (StartsNext run.old.looks.board.sched) }
    ensures goes_on { OnSome result (QuitsNow run.old.looks.board.sched run.old.quit → ⊥) }
    ensures begins { IfSome result (λ number. Begins number run.old.looks run.old.sights run.new.looks run.new.sights) }
    ensures about { IsAbout plan.now.steps plan.now.roots run.new.sights.facts }
    ensures looks { AreLooks plan.now 0 run.new.sights.facts run.new.looks }
    ensures follows { IfSome result (λ number. (events : Items ChildEvent) → Follows events run.old.looks
        → Follows (events ++ Start number ∷ []) run.new.looks) }
    ensures same { run.new ≡ record run.old { looks = run.new.looks; sights = run.new.sights } }
{
    run.looks.board.sched.sound();
    if run.quit && run.looks.board.sched.has_failed() {
        return None;
    }
    take_start(plan, &mut run.looks, &mut run.sights)
}

/// Starts the child of a step that was taken.
fn start_child<H: Children>(
    alloc: Global,
    step: &Step,
    run: &mut Run,
    host: &mut H,
    number: u32,
) -> Result<(), UpdateStop>
    requires within { number < length run.old.looks.ready.items }
    requires kept { (numbers : StepNumbers) × (ready_at run.old.looks number ≡ Some numbers)
        × AreNumbers run.old.sights.facts numbers.ins }
    requires may { (numbers : StepNumbers) (ins : Items (Items ℕ)) → ready_at run.old.looks number ≡ Some numbers
        → AllZip (λ n path. path_at run.old.sights.facts n ≡ Some path) numbers.ins ins
        → MayStart (H.outside host.old).children.running ins step.now.outs }
    requires fits { run.old.waits + 1 < 2 ^ 32 }
    ensures ok { OnOk result (run.new ≡ record run.old { waits = run.old.waits + 1 }) }
    ensures err { OnErr result (run.new ≡ run.old) }
    ensures started { OnOk result ((numbers : StepNumbers) × (ins : Items (Items ℕ))
        × (ready_at run.old.looks number ≡ Some numbers)
        × AllZip (λ n path. path_at run.old.sights.facts n ≡ Some path) numbers.ins ins
        × (H.outside host.new ≡ started number step.now.text ins step.now.outs (H.outside host.old))) }
    ensures stopped { IfErr result (λ stop. (fault : IoFault) × (stop ≡ host_stop_of fault)
        × IoLooks {T = Unit {0}} (H.outside host.old) (H.outside host.new) (Err fault)) }
{
    let Some(numbers) = &run.looks.ready[number as usize] else {
        unreachable!()
    };
    let ins = paths_of(alloc, &run.sights.facts, numbers.ins.as_slice())?;
    match host.start(
        number,
        step.text.as_str(),
        ins.as_slice(),
        step.outs.as_slice(),
    ) {
        Ok(()) => {
            run.waits += 1;
            Ok(())
        }
        Err(fault) => Err(host_stop(fault)),
    }
}

/// Writes the line of a start, where there is one.
fn tell_start<S: Sink>(out: &mut S, line: &str) -> Result<(), UpdateStop>
    ensures ok { OnOk result (S.output out.new ≡ with_written line.now (S.output out.old)) }
    ensures some { OnErr result (line.now ≢ []) }
    ensures stopped { IfErr result (λ stop. (fault : IoFault) × (stop ≡ sink_stop_of fault)
        × Says {T = Unit {0}} line.now (S.output out.old) (S.output out.new) (Err fault)) }
{
    if line.is_empty() {
        return Ok(());
    }
    match write_line(out, line) {
        Ok(()) => Ok(()),
        Err(fault) => Err(sink_stop(fault)),
    }
}

/// Starts the lowest step that can start, and writes its line. Answers whether there was one.
fn start_next<H: Children, S: Sink>(
    alloc: Global,
    plan: &Plan,
    run: &mut Run,
    host: &mut H,
    out: &mut S,
) -> Result<bool, UpdateStop>
    requires apart { Apart plan.now.steps plan.now.roots }
    requires going { (entry : Moment) × IsGoing plan.now entry (moment (H.outside host.old) (S.output out.old)) run.old }
    requires rests { Rests run.old }
    ensures way { SameWay run.old run.new }
    ensures going { (entry : Moment) → IsGoing plan.now entry (moment (H.outside host.old) (S.output out.old)) run.old
        → MatchResult result
        (λ more. IsGoing plan.now entry (moment (H.outside host.new) (S.output out.new)) run.new)
        (Halts plan.now run.new.looks.board.sched.jobs run.new.waits entry
        (moment (H.outside host.new) (S.output out.new))) }
    ensures rests { OnOk result (Rests run.new) }
    ensures none { IfOk result (λ more. more ≡ false → NoneStarts run.new) }
    ensures fewer { IfOk result (λ more. more ≡ true
        → stale run.new.looks.board.sched < stale run.old.looks.board.sched) }
    ensures kept { Keeps (H.outside host.old) (H.outside host.new) }
    ensures unended { OnOk result (unended run.new.looks.board.sched ≡ unended run.old.looks.board.sched) }
    ensures told { Tells plan.now H.made (moment (H.outside host.old) (S.output out.old)) run.old
        (moment (H.outside host.new) (S.output out.new)) run.new result }
{
    let Some(number) = take_next(plan, run) else {
        return Ok(false);
    };
    let step = step_of(plan.steps.as_slice(), number);
    let line = start_line(alloc, step)?;
    start_child(alloc, step, run, host, number)?;
    tell_start(out, line.as_str())?;
    Ok(true)
}

/// Starts steps until none can start.
pub fn start_all<H: Children, S: Sink>(
    alloc: Global,
    plan: &Plan,
    run: &mut Run,
    host: &mut H,
    out: &mut S,
) -> Result<(), UpdateStop>
    requires apart { Apart plan.now.steps plan.now.roots }
    requires going { (entry : Moment) × IsGoing plan.now entry (moment (H.outside host.old) (S.output out.old)) run.old }
    requires rests { Rests run.old }
    ensures way { SameWay run.old run.new }
    ensures going { (entry : Moment) → IsGoing plan.now entry (moment (H.outside host.old) (S.output out.old)) run.old
        → MatchResult result
        (λ x. IsGoing plan.now entry (moment (H.outside host.new) (S.output out.new)) run.new)
        (Halts plan.now run.new.looks.board.sched.jobs run.new.waits entry
        (moment (H.outside host.new) (S.output out.new))) }
    ensures rests { OnOk result (Rests run.new) }
    ensures none { OnOk result (NoneStarts run.new) }
    ensures kept { Keeps (H.outside host.old) (H.outside host.new) }
    ensures unended { OnOk result (unended run.new.looks.board.sched ≡ unended run.old.looks.board.sched) }
    ensures told { Tells plan.now H.made (moment (H.outside host.old) (S.output out.old)) run.old
        (moment (H.outside host.new) (S.output out.new)) run.new result }
{
    while start_next(alloc, plan, run, host, out)? {}
    Ok(())
}
