//! How an update ends.
ghost use Rattle.std.specs.Prelude.{◌≡◌, ◌≤◌, Some, OnOk, MatchResult};
ghost use Rattle.b2_host.specs.OutsideLaws.{Keeps};
ghost use Rattle.b2_plan.specs.Plans.{Apart};
ghost use Rattle.b2_runs.specs.Moments.{Moment};
ghost use Rattle.b2_runs.specs.Reports.{end_lines};
ghost use Rattle.b2_endings.specs.Endings.{lists_of, finished_by};
ghost use Rattle.b2_update.specs.Moments.{moment};
ghost use Rattle.b2_update.specs.Answers.{answer_of};
ghost use Rattle.b2_update.specs.Stops.{SinkSays};
ghost use Rattle.b2_update.specs.Going.{IsGoing, Halts, SameWay, Rests, NoneStarts};
ghost use Rattle.b2_update.specs.Endings.{HasCome, EndTells, EndingSays, IsStopAnswer};

use crate::run::Run;
use crate::stop::{UpdateStop, sink_stop};
use crate::update_answer::UpdateAnswer;
use b2_endings::ending::{Ending, ending_of};
use b2_endings::failed_lists::FailedLists;
use b2_endings::lists::{is_empty, tell_end};
use b2_facts::stop::FilesStop;
use b2_host::children::Children;
use b2_host::sink::Sink;
use b2_plan::plan::Plan;
use std::alloc::Global;

/// The answer of an update that left no step stuck.
fn finished(lists: FailedLists) -> UpdateAnswer
    ensures { answer_of result ≡ finished_by lists.failed lists.skipped lists.missing }
{
    if is_empty(&lists) {
        UpdateAnswer::Done
    } else {
        UpdateAnswer::Failed(lists)
    }
}

/// Writes the end of the report.
fn tell_lists<S: Sink>(
    alloc: Global,
    plan: &Plan,
    out: &mut S,
    updated: usize,
    lists: &FailedLists,
) -> Result<(), UpdateStop>
    ensures { SinkSays (end_lines plan.now.steps updated (lists_of lists.now)) (S.output out.old) (S.output out.new) result }
{
    match tell_end(alloc, plan.steps.as_slice(), out, updated, lists) {
        Ok(()) => Ok(()),
        Err(fault) => Err(sink_stop(fault)),
    }
}

/// The answer of an update that has come to this end. Writes the end of its report, unless steps need one another.
fn answer_ending<S: Sink>(
    alloc: Global,
    plan: &Plan,
    out: &mut S,
    updated: usize,
    ending: Ending,
) -> Result<UpdateAnswer, UpdateStop>
    ensures { EndingSays plan.now.steps updated ending (S.output out.old) (S.output out.new) result }
{
    match ending {
        Ending::StepCycle(list) => Ok(UpdateAnswer::StepCycle(list)),
        Ending::Ended(lists) => {
            tell_lists(alloc, plan, out, updated, &lists)?;
            Ok(finished(lists))
        }
    }
}

/// Says how an update ended whose steps have come to their end, and writes the end of its report, unless steps need one
/// another.
pub fn end_run<H: Children, S: Sink>(
    alloc: Global,
    plan: &Plan,
    run: &mut Run,
    host: &mut H,
    out: &mut S,
) -> Result<UpdateAnswer, UpdateStop>
    requires apart { Apart plan.now.steps plan.now.roots }
    requires going { (entry : Moment) × IsGoing plan.now entry (moment (H.outside host.old) (S.output out.old)) run.old }
    requires rests { Rests run.old }
    requires none_starts { NoneStarts run.old }
    requires idle { run.old.waits ≡ 0 }
    requires jobs { 1 ≤ run.old.looks.board.sched.jobs }
    ensures way { OnOk result (SameWay run.old run.new) }
    ensures kept { Keeps (H.outside host.old) (H.outside host.new) }
    ensures going { (entry : Moment) → IsGoing plan.now entry (moment (H.outside host.old) (S.output out.old)) run.old
        → MatchResult result
        (HasCome plan.now run.old.looks.board.sched.jobs entry (moment (H.outside host.new) (S.output out.new)))
        (Halts plan.now run.old.looks.board.sched.jobs run.new.waits entry
        (moment (H.outside host.new) (S.output out.new))) }
    ensures told { EndTells plan.now H.made (moment (H.outside host.old) (S.output out.old)) run.old
        (moment (H.outside host.new) (S.output out.new)) run.new result }
{
    run.looks.board.sched.sound();
    let ending = ending_of(alloc, plan, run.quit, &run.looks, &mut run.sights, host)?;
    answer_ending(alloc, plan, out, run.updated, ending)
}

/// The answer of an update that was stopped, and whose children were waited for. A wait that failed behind a file that is too
/// big is the first fault.
pub fn stopped(run: &Run, stop: UpdateStop, all_waited: bool) -> UpdateAnswer
    ensures { IsStopAnswer run.now.sights.facts stop all_waited result }
{
    match stop {
        UpdateStop::Sink => UpdateAnswer::SinkFault,
        UpdateStop::Files(FilesStop::Host) => UpdateAnswer::HostFault,
        UpdateStop::Files(FilesStop::OutOfMemory) => UpdateAnswer::OutOfMemory,
        UpdateStop::Files(FilesStop::TooBig { number, size }) => {
            if !all_waited {
                return UpdateAnswer::HostFault;
            }
            let Some(path) = run.sights.facts.find_path(number) else {
                return UpdateAnswer::OutOfMemory;
            };
            match path.copy() {
                Ok(path) => UpdateAnswer::TooBig { path, size },
                Err(_error) => UpdateAnswer::OutOfMemory,
            }
        }
    }
}
