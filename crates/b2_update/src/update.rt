//! The update of a plan.
ghost use Rattle.std.specs.Prelude.{◌≡◌, ◌≤◌, [], IfOk, OnOk, MatchResult};
ghost use Rattle.b2_host.specs.Output.{Output};
ghost use Rattle.b2_host.specs.OutsideLaws.{Keeps};
ghost use Rattle.b2_host.specs.OutputLaws.{OutKeeps};
ghost use Rattle.b2_plan.specs.Plans.{Apart};
ghost use Rattle.b2_runs.specs.Moments.{Moment};
ghost use Rattle.b2_runs.specs.UpdateAnswers.{CausedBy, LeavesNone, HasHappened, LeavesOpen};
ghost use Rattle.b2_update.specs.Moments.{moment};
ghost use Rattle.b2_update.specs.Answers.{answer_of};
ghost use Rattle.b2_update.specs.Stops.{host_stop_of};
ghost use Rattle.b2_update.specs.Going.{IsGoing, Halts, SameWay};
ghost use Rattle.b2_update.specs.Endings.{HasCome, NotTriedAgain, IsAnswered, EndTells};
ghost use Rattle.b2_update.specs.Updates.{IsAskedFor, RunTells, BeginTells, UpdateTold};
ghost use Rattle.b2_drain.specs.Drains.{Made};

use crate::answering::{end_run, stopped};
use crate::options::Options;
use crate::run::Run;
use crate::stop::{UpdateStop, host_stop};
use crate::update_answer::UpdateAnswer;
use crate::working::work;
use b2_drain::drain::drain;
use b2_facts::facts::Facts;
use b2_host::children::Children;
use b2_host::fault::IoFault;
use b2_host::files::Files;
use b2_host::sink::Sink;
use b2_journal::journal::Journal;
use b2_journal::opening_rule::OpeningRule;
use b2_looks::looks::Looks;
use b2_paths::marks::Marks;
use b2_plan::plan::Plan;
use b2_reach::sights::Sights;
use b2_verdicts::judging_mode::JudgingMode;
use std::alloc::Global;
use std::mem::forget;

/// Opens the log, and begins an update.
fn begin<F: Files>(
    alloc: Global,
    plan: &Plan,
    options: Options,
    files: &mut F,
) -> Result<Run, IoFault>
    requires idle { (F.outside files.old).children.running ≡ [] }
    requires apart { Apart plan.now.steps plan.now.roots }
    ensures going { (output : Output) → MatchResult result
        (λ run. IsGoing plan.now (moment (F.outside files.old) output) (moment (F.outside files.new) output) run)
        (λ fault. Halts plan.now options.jobs 0 (moment (F.outside files.old) output)
        (moment (F.outside files.new) output) (host_stop_of fault)) }
    ensures same { (F.outside files.new).children ≡ (F.outside files.old).children }
    ensures jobs { IfOk result (λ run. run.looks.board.sched.jobs ≡ options.jobs) }
    ensures asked { IfOk result (IsAskedFor options) }
    ensures told { (output : Output) (made : Made) → BeginTells plan.now options made
        (moment (F.outside files.old) output) (moment (F.outside files.new) output) result }
{
    let way = JudgingMode {
        all: options.all,
        by_digest: options.by_digest,
    };
    let looks = Looks::new(alloc, plan, way, options.jobs)?;
    let journal = Journal::open(alloc, files, OpeningRule::Update)?;
    Ok(Run {
        looks,
        sights: Sights {
            facts: Facts::new(alloc),
            journal,
            marks: Marks::new(alloc),
            by_digest: way.by_digest,
        },
        quit: options.quit,
        updated: 0,
        waits: 0,
    })
}

/// Runs the steps, and writes the report.
fn run_steps<H: Children, S: Sink>(
    alloc: Global,
    plan: &Plan,
    run: &mut Run,
    host: &mut H,
    out: &mut S,
) -> Result<UpdateAnswer, UpdateStop>
    requires apart { Apart plan.now.steps plan.now.roots }
    requires going { (entry : Moment) × IsGoing plan.now entry (moment (H.outside host.old) (S.output out.old)) run.old }
    requires jobs { 1 ≤ run.old.looks.board.sched.jobs }
    ensures way { OnOk result (SameWay run.old run.new) }
    ensures kept { Keeps (H.outside host.old) (H.outside host.new) }
    ensures going { (entry : Moment) → IsGoing plan.now entry (moment (H.outside host.old) (S.output out.old)) run.old
        → MatchResult result
        (HasCome plan.now run.old.looks.board.sched.jobs entry (moment (H.outside host.new) (S.output out.new)))
        (Halts plan.now run.old.looks.board.sched.jobs run.new.waits entry
        (moment (H.outside host.new) (S.output out.new))) }
    ensures told { EndTells plan.now H.made (moment (H.outside host.old) (S.output out.old)) run.old
        (moment (H.outside host.new) (S.output out.new)) run.new result }
{
    work(alloc, plan, run, host, out)?;
    end_run(alloc, plan, run, host, out)
}

/// Runs the steps, and waits for what runs where something stopped the update.
fn run_to_end<H: Children, S: Sink>(
    alloc: Global,
    plan: &Plan,
    run: &mut Run,
    host: &mut H,
    out: &mut S,
) -> UpdateAnswer
    requires apart { Apart plan.now.steps plan.now.roots }
    requires going { (entry : Moment) × IsGoing plan.now entry (moment (H.outside host.old) (S.output out.old)) run.old }
    requires jobs { 1 ≤ run.old.looks.board.sched.jobs }
    ensures kept { Keeps (H.outside host.old) (H.outside host.new) }
    ensures answered { (entry : Moment) → IsGoing plan.now entry (moment (H.outside host.old) (S.output out.old)) run.old
        → IsAnswered plan.now run.old.looks.board.sched.jobs entry (moment (H.outside host.new) (S.output out.new)) result }
    ensures told { RunTells plan.now H.made (moment (H.outside host.old) (S.output out.old)) run.old
        (moment (H.outside host.new) (S.output out.new)) result }
{
    match run_steps(alloc, plan, run, host, out) {
        Ok(answer) => answer,
        Err(stop) => {
            let all_waited = drain(host, run.waits);
            stopped(run, stop, all_waited)
        }
    }
}

/// Opens the log, runs the steps, and answers how the update ended.
fn run_update<H: Children, S: Sink>(
    alloc: Global,
    plan: &Plan,
    options: Options,
    host: &mut H,
    out: &mut S,
) -> UpdateAnswer
    requires idle { (H.outside host.old).children.running ≡ [] }
    requires apart { Apart plan.now.steps plan.now.roots }
    requires some_job { 1 ≤ options.jobs }
    ensures answered { IsAnswered plan.now options.jobs (moment (H.outside host.old) (S.output out.old)) (moment (H.outside host.new) (S.output out.new)) result }
    ensures told { UpdateTold plan.now options H.made (moment (H.outside host.old) (S.output out.old))
        (moment (H.outside host.new) (S.output out.new)) result }
{
    match begin(alloc, plan, options, host) {
        Ok(mut run) => {
            let answer = run_to_end(alloc, plan, &mut run, host, out);
            // The program ends soon after; to take the tables apart, entry by entry, would cost as much as to fill them.
            forget(run);
            answer
        }
        Err(IoFault::Failed) => UpdateAnswer::HostFault,
        Err(IoFault::OutOfMemory) => UpdateAnswer::OutOfMemory,
    }
}

/// Builds what is stale, and nothing else, with up to `jobs` children at a time: the lowest step first, once all that it reads is
/// settled. Writes each start, each failure, and at the end what is missing, what was skipped and how many there are; but where
/// steps need one another, or a file is too big, the line of that refusal is the caller's. A step that reads a missing file, or an
/// output of a step that failed or was skipped, is skipped. After a step that failed its outputs are removed. Each step that was
/// updated has its record in the log `bin/b2.log` before anything else starts. After a fault nothing more starts, and the children
/// that run are waited for.
pub fn update<H: Children, S: Sink>(
    alloc: Global,
    plan: &Plan,
    options: Options,
    host: &mut H,
    out: &mut S,
) -> UpdateAnswer
    requires idle { (H.outside host.old).children.running ≡ [] }
    requires apart { Apart plan.now.steps plan.now.roots }
    requires some_job { 1 ≤ options.jobs }
    // A fault comes only where one may, and its count rose. The other's stays, but for waits that fail after a fault of the sink.
    ensures counts { CausedBy (moment (H.outside host.old) (S.output out.old)) (moment (H.outside host.new) (S.output out.new)) (answer_of result) }
    // No child is left, but for one for each wait that failed. A wait fails only where one may, and then both counts of the host rise.
    ensures none_left { LeavesNone (H.outside host.old) (H.outside host.new) }
    // A wait that failed is not tried again: for each a child is left.
    ensures not_again { NotTriedAgain (H.outside host.old) (H.outside host.new) }
    // No count falls, what may go wrong stays, visible files stay visible, and all that stood stays among the past.
    ensures keeps { Keeps (H.outside host.old) (H.outside host.new) }
    ensures out_keeps { OutKeeps (S.output out.old) (S.output out.new) }
    // The events are in order, over every host: at most so many steps are open at a time, and none starts twice. Each failed step was
    // done badly, or left an output out; where all went well none did so.
    ensures turns { HasHappened plan.now.steps options.jobs (H.outside host.old).disk (H.outside host.old).children.events
        (H.outside host.new).children.events (answer_of result) }
    // What runs afterwards are the children of the steps that were left open.
    ensures left_open { LeavesOpen plan.now.steps (H.outside host.old).children (H.outside host.new).children }
    // Where files are visible, and the lines of the log at entry are true: the events are a run, and the answer is what it says.
    ensures told { UpdateTold plan.now options H.made (moment (H.outside host.old) (S.output out.old))
        (moment (H.outside host.new) (S.output out.new)) result }
{
    run_update(alloc, plan, options, host, out)
}
