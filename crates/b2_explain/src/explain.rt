//! Why each needed step is to run, or is not.
ghost use Rattle.std.specs.Prelude.{◌≡◌, ◌≤◌, ℕ, Bool, Some, length, IfOk, OnOk};
ghost use Rattle.b2_plan.specs.declared.plan.Plan.{Plan};
ghost use Rattle.b2_plan.specs.Plans.{Apart, step_at};
ghost use Rattle.b2_facts.specs.Facts.{IsAbout};
ghost use Rattle.b2_sched.specs.Schedules.{IsStep, CanLook};
ghost use Rattle.b2_sched.specs.Sound.{IsSound};
ghost use Rattle.b2_explain.specs.Faults.{ExplainCounts};
ghost use Rattle.b2_explain.specs.Surveys.{AreSurveyed, IsStill};
ghost use Rattle.b2_explain.specs.Found.{IsSurveyFault, SurveyEnds, IsNeededStep, IsOpenStep, IsFoundCause, AddsCause, AreFoundCauses};
ghost use Rattle.b2_explain.specs.Explained.{ExplainTold};

use crate::cause::{Cause, Why, WhyList};
use crate::causes::{cause_of_point, first_missing, first_unsettled};
use crate::fault::ExplainFault;
use crate::survey::{Survey, members_of};
use b2_base::fault::OutOfMemory;
use b2_board::steps::step_of;
use b2_facts::facts::Facts;
use b2_facts::stop::FilesStop;
use b2_host::files::Files;
use b2_log::log::Log;
use b2_plan::plan::Plan;
use b2_plan::step::Step;
use std::alloc::Global;

/// That the file with a number is too big to be scanned.
fn too_big(facts: &Facts, number: u32, size: u64) -> ExplainFault
    ensures { IsSurveyFault facts.now (FilesStop.TooBig number size) result }
{
    let Some(path) = facts.find_path(number) else {
        return ExplainFault::OutOfMemory;
    };
    match path.copy() {
        Ok(path) => ExplainFault::TooBig { path, size },
        Err(_error) => ExplainFault::OutOfMemory,
    }
}

/// Why a survey stopped.
fn fault_of(facts: &Facts, stop: FilesStop) -> ExplainFault
    ensures { IsSurveyFault facts.now stop result }
{
    match stop {
        FilesStop::Host => ExplainFault::Host,
        FilesStop::OutOfMemory => ExplainFault::OutOfMemory,
        FilesStop::TooBig { number, size } => too_big(facts, number, size),
    }
}

/// What is found of the steps of a plan, none of which was started.
pub fn survey<F: Files>(
    alloc: Global,
    plan: &Plan,
    log: &Log,
    all: bool,
    files: &mut F,
) -> Result<Survey, ExplainFault>
    requires apart { Apart plan.now.steps plan.now.roots }
    ensures still { IsStill (F.outside files.old) (F.outside files.new) }
    ensures counts { ExplainCounts (F.outside files.old) (F.outside files.new) result }
    ensures about { IfOk result (λ survey. IsAbout plan.now.steps plan.now.roots survey.sights.facts) }
    ensures surveyed { IfOk result (AreSurveyed plan.now all 0) }
    ensures sound { IfOk result (λ survey. IsSound survey.board.sched) }
    ensures whole { IfOk result (λ survey. (i : ℕ) → CanLook survey.board.sched i → ⊥) }
    ensures told { SurveyEnds plan.now all log.now.lines (F.outside files.old) result }
{
    let mut survey = Survey::new(alloc, plan, log)?;
    match survey.look_all(alloc, plan, all, files) {
        Ok(()) => {
            survey.board.sched.sound();
            Ok(survey)
        }
        Err(stop) => Err(fault_of(&survey.sights.facts, stop)),
    }
}

/// The cause of a needed step that was not judged: the first file that it lacks, or else the first one that it waits for.
fn open_cause(survey: &Survey, number: u32) -> Result<Cause, OutOfMemory>
    requires { (plan : Plan) × (all : Bool) × IsOpenStep plan all survey.now number }
    ensures { (plan : Plan) → IfOk result (IsFoundCause plan survey.now number) }
{
    let facts = &survey.sights.facts;
    let members = members_of(&survey.board, number);
    if let Some(missing) = first_missing(facts, members) {
        return Ok(Cause::Lacks {
            path: facts.path(missing).copy()?,
        });
    }
    let Some(unsettled) = first_unsettled(&survey.board.sched, facts, members) else {
        unreachable!()
    };
    Ok(Cause::Waits {
        path: facts.path(unsettled).copy()?,
    })
}

/// The cause of a needed step.
fn cause_of(survey: &Survey, step: &Step, number: u32) -> Result<Cause, OutOfMemory>
    requires { (plan : Plan) × (all : Bool) × IsNeededStep plan all survey.now step.now number }
    ensures { (plan : Plan) → step_at plan.steps number ≡ Some step.now → IfOk result (IsFoundCause plan survey.now number) }
{
    match &survey.judged[number as usize] {
        None => open_cause(survey, number),
        Some(judged) => {
            let facts = &survey.sights.facts;
            let last = survey.sights.journal.record(step.outs.as_slice());
            cause_of_point(facts, &judged.numbers, last, judged.point)
        }
    }
}

/// Tells the cause of a step after those before it, where the step is needed.
fn add_cause(
    plan: &Plan,
    survey: &Survey,
    number: u32,
    whys: &mut WhyList,
) -> Result<(), OutOfMemory>
    requires surveyed { (all : Bool) × AreSurveyed plan.now all 0 survey.now }
    requires about { IsAbout plan.now.steps plan.now.roots survey.now.sights.facts }
    requires whole { (i : ℕ) → CanLook survey.now.board.sched i → ⊥ }
    requires step { IsStep survey.now.board.sched number }
    ensures { OnOk result (AddsCause plan.now survey.now number whys.old whys.new) }
{
    if !survey.board.sched.needed(number) {
        return Ok(());
    }
    let step = step_of(plan.steps.as_slice(), number);
    let cause = cause_of(survey, step, number)?;
    whys.push(Why {
        step: number,
        cause,
    })?;
    Ok(())
}

/// The causes of the needed steps, in order of numbers.
fn causes_of(alloc: Global, plan: &Plan, survey: &Survey) -> Result<WhyList, OutOfMemory>
    requires few { length plan.now.steps ≤ 65536 }
    requires surveyed { (all : Bool) × AreSurveyed plan.now all 0 survey.now }
    requires about { IsAbout plan.now.steps plan.now.roots survey.now.sights.facts }
    requires whole { (i : ℕ) → CanLook survey.now.board.sched i → ⊥ }
    ensures { IfOk result (AreFoundCauses plan.now survey.now) }
{
    survey.board.sched.sound();
    let mut whys = WhyList::new(alloc);
    for place in 0..plan.steps.as_slice().len() {
        add_cause(plan, survey, place as u32 + 1, &mut whys)?;
    }
    Ok(whys)
}

/// Why each needed step is to run where an update begins that judges by stamps, or why it is not, in order of numbers. Where `all`
/// is true, all that is needed is to run.
///
/// `log` is what the log's file counts as. Nothing is written, and no step starts. Each scanned file that a needed step reads, and
/// that the log has no scan line of, is read; and the stamp of each file is asked for once.
///
/// The host fails, no memory is left, or a file that is to be scanned has more than 16,777,216 bytes.
pub fn explain<F: Files>(
    alloc: Global,
    plan: &Plan,
    log: &Log,
    all: bool,
    files: &mut F,
) -> Result<WhyList, ExplainFault>
    requires apart { Apart plan.now.steps plan.now.roots }
    // Nothing has changed but the reads and the count of faults. That count rose where the host failed, and only there.
    ensures still { IsStill (F.outside files.old) (F.outside files.new) }
    ensures counts { ExplainCounts (F.outside files.old) (F.outside files.new) result }
    // Where files are visible and the lines of the log are true, each needed step is told with its first cause, and no other step.
    // A file that is too big is one that a needed step reads.
    ensures told { ExplainTold plan.now all log.now.lines (F.outside files.old) result }
{
    let survey = survey(alloc, plan, log, all, files)?;
    Ok(causes_of(alloc, plan, &survey)?)
}
