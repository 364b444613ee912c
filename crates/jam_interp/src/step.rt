//! The texts of steps.
ghost use Rattle.std.specs.Prelude.{◌≡◌, ◌≤◌, None, IfErr};
ghost use Rattle.b2_host.specs.OutsideLaws.{Keeps};
ghost use Rattle.jam_meaning.specs.Refused.{TookTurn};
ghost use Rattle.jam_effects.specs.Causes.{refused_of, HoldsNoMemory};
ghost use Rattle.jam_effects.specs.Does.{TellsOn, DoesOn, DoesAsideOn, Counts};
ghost use Rattle.jam_effects.specs.Views.{value};
ghost use Rattle.jam_interp.specs.FunctionParts.{in_step_at, rule_if_at, step_text_at};
ghost use Rattle.jam_meaning.specs.StepJobs.{job_of, step_answer};
ghost use Rattle.jam_meaning.specs.Eval.{most_levels};
ghost use Rattle.jam_effects.specs.Spots.{spot_of};

use crate::calls::call;
use b2_base::text_list::TextList;
use b2_host::files::Files;
use jam_effects::actions::{actions_text, lists_of};
use jam_effects::at::{At, LEVELS};
use jam_effects::fault::EvalFault;
use jam_effects::turns::Turns;
use jam_meaning::natives::Natives;
use jam_meaning::step::{StepJob, StepText};
use jam_scope::world::World;
use std::alloc::Global;

/// Calls the step's rule, if there is one.
fn rule_if<N: Natives, F: Files>(
    alloc: Global,
    world: &mut World,
    turns: &mut Turns,
    natives: &mut N,
    files: &mut F,
    job: &StepJob,
    at: &At<'_>,
) -> Result<TextList, EvalFault>
    requires { at.now.levels ≡ most_levels }
    ensures { DoesOn N.kept N.meaning F.outside value (rule_if_at (job_of job.now) at.now) world.old turns.old natives.old files.old world.new turns.new natives.new files.new result }
{
    if world.find_rule(job.name.as_str()).is_none() {
        return Ok(TextList::new(alloc));
    }
    let lists = lists_of(alloc, job)?;
    call(
        alloc,
        world,
        turns,
        natives,
        files,
        &job.name,
        lists.as_slice(),
        at,
    )
}

/// Runs the rule of a step in its module, and then expands its text. Frames that are opened stay.
fn in_step<N: Natives, F: Files>(
    alloc: Global,
    world: &mut World,
    turns: &mut Turns,
    natives: &mut N,
    files: &mut F,
    job: &StepJob,
    at: &At<'_>,
) -> Result<StepText, EvalFault>
    requires step { world.old.now.step ≡ None }
    requires spot { spot_of at.now ≡ record { path = job.now.path; line = job.now.line } }
    requires levels { at.now.levels ≡ most_levels }
    ensures { DoesAsideOn N.kept N.meaning F.outside step_answer (in_step_at (job_of job.now)) world.old turns.old natives.old files.old world.new turns.new natives.new files.new result }
{
    world.open_step(job.outs.as_slice(), job.ins.as_slice())?;
    world.enter(job.module.as_str())?;
    let _value = rule_if(alloc, world, turns, natives, files, job, at)?;
    actions_text(alloc, world, job, at)
}

/// The text of a step: its rule is called in its module with outputs, inputs and properties, and then the actions of its name
/// are expanded. What it changed in the world is undone, after a fault too. A fault of the host comes only where its count of
/// faults rose.
pub fn step_text<N: Natives, F: Files>(
    alloc: Global,
    world: &mut World,
    job: &StepJob,
    turns: &mut Turns,
    natives: &mut N,
    files: &mut F,
) -> Result<StepText, EvalFault>
    requires { world.old.now.step ≡ None }
    ensures told { TellsOn N.kept N.meaning F.outside step_answer (step_text_at (job_of job.now)) world.old turns.old natives.old files.old world.new turns.new natives.new files.new result }
    ensures world { world.new ≡ world.old }
    ensures turns { turns.new.left ≤ turns.old.left }
    ensures budget { turns.new.budget ≡ turns.old.budget }
    ensures meaning { N.meaning natives.new ≡ N.meaning natives.old }
    ensures disk { (F.outside files.new).disk ≡ (F.outside files.old).disk }
    ensures children { (F.outside files.new).children ≡ (F.outside files.old).children }
    ensures keeps { Keeps (F.outside files.old) (F.outside files.new) }
    ensures counts { Counts result (F.outside files.old) (F.outside files.new) }
    ensures whole { IfErr result HoldsNoMemory }
    ensures took { TookTurn (refused_of result) turns.old.left turns.new.left }
{
    let at = At {
        path: &job.path,
        line: job.line,
        levels: LEVELS,
    };
    let mark = world.mark()?;
    let ended = in_step(alloc, world, turns, natives, files, job, &at);
    world.roll_back(mark);
    ended
}
