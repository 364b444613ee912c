//! Whether a claimed cause is why a step is to run, or is not.
ghost use Rattle.std.specs.Prelude.{◌↔◌, ℕ, Bool, IsTrue};
ghost use Rattle.b2_plan.specs.declared.plan.Plan.{Plan};
ghost use Rattle.b2_plan.specs.Plans.{Apart};
ghost use Rattle.b2_facts.specs.Facts.{IsAbout};
ghost use Rattle.b2_sched.specs.Schedules.{CanLook};
ghost use Rattle.b2_explain.specs.Faults.{ExplainCounts};
ghost use Rattle.b2_explain.specs.Surveys.{AreSurveyed, IsStill};
ghost use Rattle.b2_explain.specs.Found.{IsNeededStep, IsOpenStep};
ghost use Rattle.b2_explain.specs.Checks.{IsCheckedOpen, IsCheckedCause, IsCheckedWhy};
ghost use Rattle.b2_explain.specs.Explained.{CheckTold};

use crate::cause::{Cause, Why};
use crate::checks::{StepCase, any_missing, is_closed_cause, is_first_missing, is_first_unsettled};
use crate::explain::survey;
use crate::fault::ExplainFault;
use crate::survey::{Survey, members_of};
use b2_host::files::Files;
use b2_log::log::Log;
use b2_plan::plan::Plan;
use b2_plan::step::Step;
use b2_runs::steps::find_step;
use std::alloc::Global;

/// Whether a cause is that of a needed step which lacks a file, or waits for one.
fn is_open_cause(survey: &Survey, number: u32, cause: &Cause) -> bool
    requires { (plan : Plan) × (all : Bool) × IsOpenStep plan all survey.now number }
    ensures { IsTrue result ↔ IsCheckedOpen survey.now number cause.now }
{
    let facts = &survey.sights.facts;
    let members = members_of(&survey.board, number);
    match cause {
        Cause::Lacks { path } => is_first_missing(facts, members, path),
        Cause::Waits { path } => {
            !any_missing(facts, members)
                && is_first_unsettled(&survey.board.sched, facts, members, path)
        }
        _ => false,
    }
}

/// Whether a cause is that of a needed step.
fn is_cause(all: bool, survey: &Survey, step: &Step, number: u32, cause: &Cause) -> bool
    requires { (plan : Plan) × IsNeededStep plan all survey.now step.now number }
    ensures { IsTrue result ↔ IsCheckedCause all survey.now step.now number cause.now }
{
    match &survey.judged[number as usize] {
        None => is_open_cause(survey, number, cause),
        Some(judged) => {
            let case = StepCase {
                facts: &survey.sights.facts,
                step,
                numbers: &judged.numbers,
                last: survey.sights.journal.record(step.outs.as_slice()),
            };
            is_closed_cause(all, &case, cause)
        }
    }
}

/// Whether a step is needed, and this is its cause.
fn is_why(plan: &Plan, all: bool, survey: &Survey, why: &Why) -> bool
    requires surveyed { AreSurveyed plan.now all 0 survey.now }
    requires about { IsAbout plan.now.steps plan.now.roots survey.now.sights.facts }
    requires whole { (i : ℕ) → CanLook survey.now.board.sched i → ⊥ }
    ensures { IsTrue result ↔ IsCheckedWhy plan.now all survey.now why.now }
{
    let Some(step) = find_step(plan.steps.as_slice(), why.step) else {
        return false;
    };
    survey.board.sched.needed(why.step) && is_cause(all, survey, step, why.step, &why.cause)
}

/// Whether a step is needed where an update begins that judges by stamps, and this is why it is to run, or is not. Where `all` is
/// true, all that is needed is to run. Whoever made the claim, nothing of it is taken for granted.
///
/// `log` is what the log's file counts as. Nothing is written, and no step starts. The host fails, no memory is left, or a file that
/// is to be scanned has more than 16,777,216 bytes.
pub fn check<F: Files>(
    alloc: Global,
    plan: &Plan,
    log: &Log,
    all: bool,
    why: &Why,
    files: &mut F,
) -> Result<bool, ExplainFault>
    requires apart { Apart plan.now.steps plan.now.roots }
    // Nothing has changed but the reads and the count of faults. That count rose where the host failed, and only there.
    ensures still { IsStill (F.outside files.old) (F.outside files.new) }
    ensures counts { ExplainCounts (F.outside files.old) (F.outside files.new) result }
    // Where files are visible and the lines of the log are true, the answer is true exactly where this is why. A file that is too
    // big is one that a needed step reads.
    ensures told { CheckTold plan.now all log.now.lines why.now (F.outside files.old) result }
{
    let survey = survey(alloc, plan, log, all, files)?;
    Ok(is_why(plan, all, &survey, why))
}
