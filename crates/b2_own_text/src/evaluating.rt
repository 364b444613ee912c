//! Evaluations in the world that loading left.
ghost use Rattle.std.specs.Prelude.{◌≡◌, ◌∷◌, [], None, IfOk, OnOk};
ghost use Rattle.jam_scope.specs.Changes.{changed, set_place};
ghost use Rattle.jam_meaning.specs.StepJobs.{job_of, step_answer};
ghost use Rattle.jam_effects.specs.Causes.{HoldsNoMemory};
ghost use Rattle.jam_effects.specs.Spots.{spot_of};
ghost use Rattle.jam_interp.specs.FunctionParts.{call_value, call_rolled_at, step_text_at};
ghost use Rattle.std.specs.Option.{option_copied};
ghost use Rattle.b2_own_text.specs.EvaluationParts.{HasRule, IsPlaced, EvaluatesOn, ReturnsOn, call_at, in_project_at, entered, texts};
ghost use Rattle.b2_own_text.specs.EvaluationParts.{text_placed_at, text_in_at, text_of_at};

use b2_base::fault::OutOfMemory;
use b2_base::text::Text;
use b2_base::text_list::{TextList, copy_texts};
use b2_declared::place::Place;
use b2_host::files::Files;
use jam_effects::at::{At, LEVELS};
use jam_effects::fault::EvalFault;
use jam_effects::natives::unknown_rule;
use jam_effects::turns::Turns;
use jam_interp::rolled::{CallAnswer, call_rolled};
use jam_interp::step::step_text;
use jam_meaning::step::{StepJob, StepText};
use jam_natives::natives::JamNatives;
use jam_scope::world::World;
use jam_values::lists::TextLists;
use std::alloc::Global;

/// How many turns each evaluation has.
const TURNS: u32 = 100_000;

fn one_list(alloc: Global, properties: &[Text]) -> Result<TextLists, OutOfMemory>
    ensures { IfOk result (λ lists. lists ≡ properties.now ∷ []) }
{
    let mut lists = TextLists::new(alloc);
    lists.push(copy_texts(alloc, properties)?)?;
    Ok(lists)
}

/// The fault, which stands at this spot where no statement was being run.
fn placed(fault: EvalFault, at: &At<'_>) -> EvalFault
    requires { HoldsNoMemory fault }
    ensures { IsPlaced (spot_of at.now) fault result }
{
    match fault {
        EvalFault::Host => EvalFault::Host,
        EvalFault::OutOfMemory => EvalFault::OutOfMemory,
        EvalFault::At { path, line, cause } => {
            if path.as_str().is_empty() {
                return at.fault(cause);
            }
            EvalFault::At { path, line, cause }
        }
    }
}

/// Calls a rule with all turns.
fn call_named<F: Files>(
    alloc: Global,
    world: &mut World,
    files: &mut F,
    rule: &Text,
    lists: &[TextList],
) -> Result<CallAnswer, EvalFault>
    ensures does { EvaluatesOn F.outside call_value (call_rolled_at rule.now lists.now) world.old files.old files.new result }
    ensures world { world.new ≡ world.old }
{
    let mut natives = JamNatives::new(alloc);
    let mut turns = Turns::new(TURNS);
    call_rolled(
        alloc,
        world,
        rule.as_str(),
        lists,
        &mut turns,
        &mut natives,
        files,
    )
}

/// Calls a rule that the present module sees with one list.
fn call_there<F: Files>(
    alloc: Global,
    world: &mut World,
    files: &mut F,
    rule: &Text,
    properties: &[Text],
    at: &At<'_>,
) -> Result<TextList, EvalFault>
    requires { HasRule rule.now world.old.now }
    ensures does { EvaluatesOn F.outside texts (call_at (spot_of at.now) rule.now properties.now) world.old files.old files.new result }
    ensures world { world.new ≡ world.old }
{
    let lists = one_list(alloc, properties)?;
    match call_named(alloc, world, files, rule, lists.as_slice()) {
        Ok(answer) => Ok(answer.value),
        Err(fault) => Err(placed(fault, at)),
    }
}

/// Calls a rule with one list, if the present module sees one of this name.
fn call_found<F: Files>(
    alloc: Global,
    world: &mut World,
    files: &mut F,
    rule: &Text,
    properties: &[Text],
    at: &At<'_>,
) -> Result<TextList, EvalFault>
    ensures does { EvaluatesOn F.outside texts (call_at (spot_of at.now) rule.now properties.now) world.old files.old files.new result }
    ensures world { world.new ≡ world.old }
{
    if world.find_rule(rule.as_str()).is_none() {
        return Err(unknown_rule(rule, at));
    }
    call_there(alloc, world, files, rule, properties, at)
}

/// Goes to the directory of a project. Nothing else changes.
fn go_to(world: &mut World, project: &Place) -> Result<(), OutOfMemory>
    ensures ok { OnOk result (world.new ≡ changed (set_place project.now.dir) world.old) }
    ensures marked { world.new.marked ≡ world.old.marked }
{
    world.set_place(&project.dir)
}

/// Goes to the directory and the module of a project. Frames that are opened stay.
fn enter(world: &mut World, project: &Place) -> Result<(), OutOfMemory>
    ensures ok { OnOk result (world.new ≡ entered project.now world.old) }
    ensures marked { world.new.marked ≡ world.old.marked }
{
    go_to(world, project)?;
    world.enter(project.module.as_str())
}

/// Calls a rule in the directory and the module of a project. Frames that are opened stay.
fn call_in<F: Files>(
    alloc: Global,
    world: &mut World,
    files: &mut F,
    project: &Place,
    rule: &Text,
    line: u32,
    properties: &[Text],
) -> Result<TextList, EvalFault>
    ensures does { EvaluatesOn F.outside texts (in_project_at project.now rule.now line properties.now) world.old files.old files.new result }
    ensures marked { world.new.marked ≡ world.old.marked }
{
    enter(world, project)?;
    let at = At {
        path: project.file.as_text(),
        line,
        levels: LEVELS,
    };
    call_found(alloc, world, files, rule, properties, &at)
}

/// What a rule of a project returns for properties. What it changed in the world is undone, after a fault too.
pub(crate) fn returned<F: Files>(
    alloc: Global,
    world: &mut World,
    files: &mut F,
    project: &Place,
    rule: &Text,
    line: u32,
    properties: &[Text],
) -> Result<TextList, EvalFault>
    ensures does { ReturnsOn F.outside project.now rule.now line properties.now world.old files.old files.new result }
    ensures world { world.new ≡ world.old }
{
    let mark = world.mark()?;
    let ended = call_in(alloc, world, files, project, rule, line, properties);
    world.roll_back(mark);
    ended
}

/// The text of a step, in the directory that stands. What its rule changed in the world is undone, after a fault too.
fn text_there<F: Files>(
    alloc: Global,
    world: &mut World,
    files: &mut F,
    job: &StepJob,
) -> Result<StepText, EvalFault>
    requires { world.old.now.step ≡ None }
    ensures does { EvaluatesOn F.outside step_answer (step_text_at (job_of job.now)) world.old files.old files.new result }
    ensures world { world.new ≡ world.old }
{
    let mut natives = JamNatives::new(alloc);
    let mut turns = Turns::new(TURNS);
    step_text(alloc, world, job, &mut turns, &mut natives, files)
}

/// The text of a step, in the directory of a project, which stays.
fn text_placed<F: Files>(
    alloc: Global,
    world: &mut World,
    files: &mut F,
    project: &Place,
    job: &StepJob,
) -> Result<StepText, EvalFault>
    requires { world.old.now.step ≡ None }
    ensures does { EvaluatesOn F.outside step_answer (text_placed_at project.now (job_of job.now)) world.old files.old files.new result }
    ensures marked { world.new.marked ≡ world.old.marked }
{
    go_to(world, project)?;
    text_there(alloc, world, files, job)
}

/// The text of a step, in the directory of a project. The place is taken back, after a fault too.
fn text_in<F: Files>(
    alloc: Global,
    world: &mut World,
    files: &mut F,
    project: &Place,
    job: &StepJob,
) -> Result<StepText, EvalFault>
    requires { world.old.now.step ≡ None }
    ensures does { EvaluatesOn F.outside step_answer (text_in_at project.now (job_of job.now)) world.old files.old files.new result }
    ensures world { world.new ≡ world.old }
{
    let mark = world.mark()?;
    let ended = text_placed(alloc, world, files, project, job);
    world.roll_back(mark);
    ended
}

/// The text of a step, in the directory of its project, if it is one of a project. What its rule changed in the world is undone,
/// after a fault too.
pub(crate) fn text_of<F: Files>(
    alloc: Global,
    world: &mut World,
    files: &mut F,
    project: Option<&Place>,
    job: &StepJob,
) -> Result<StepText, EvalFault>
    requires { world.old.now.step ≡ None }
    ensures does { EvaluatesOn F.outside step_answer (text_of_at (option_copied project.entry) (job_of job.now)) world.old files.old files.new result }
    ensures world { world.new ≡ world.old }
{
    match project {
        Some(project) => text_in(alloc, world, files, project, job),
        None => text_there(alloc, world, files, job),
    }
}
