//! The file of a project, run in its module.
ghost use Rattle.std.specs.Prelude.{◌<◌, length, OnOk, OnErr};
ghost use Rattle.std.specs.Option.{option_copied};
ghost use Rattle.jam_scope.specs.Changes.{frames_at_mark};
ghost use Rattle.jam_meaning.specs.NativeCalls.{KeepsFrames};
ghost use Rattle.b2_project_walk.specs.Running.{IsPutBelow, IsPrepared, HasEntered, RunsVisit};

use b2_base::fault::OutOfMemory;
use b2_base::text::Text;
use b2_declared::visit::Visit;
use b2_host::files::Files;
use jam_effects::fault::EvalFault;
use jam_effects::turns::Turns;
use jam_grammar::tree::Tree;
use jam_interp::run::run;
use jam_natives::natives::JamNatives;
use jam_scope::world::World;
use std::alloc::Global;

/// Puts a module below that of the parent, if there is one and it may be put there. It always may in the world of a walk whose
/// files are visible.
fn put_below(world: &mut World, owner: &Text, above: Option<&Text>) -> Result<(), OutOfMemory>
    ensures ok { OnOk result (IsPutBelow owner.now (option_copied above.entry) world.old world.new) }
    ensures frames { KeepsFrames world.old world.new }
{
    let Some(parent) = above else {
        return Ok(());
    };
    if !world.may_be_above(owner.as_str(), parent.as_str()) {
        return Ok(());
    }
    world.set_parent(owner.as_str(), parent.as_str())
}

/// Makes the world in which the file of a project begins, but for its frame.
fn prepare(world: &mut World, visit: &Visit, above: Option<&Text>) -> Result<(), OutOfMemory>
    ensures ok { OnOk result (IsPrepared visit.now (option_copied above.entry) world.old world.new) }
    ensures frames { KeepsFrames world.old world.new }
{
    put_below(world, &visit.module, above)?;
    world.set_place(&visit.dir)
}

/// Makes the world in which the file of a project runs.
fn enter(world: &mut World, visit: &Visit, above: Option<&Text>) -> Result<(), OutOfMemory>
    ensures ok { OnOk result (HasEntered visit.now (option_copied above.entry) world.old world.new) }
    ensures newer { OnOk result (frames_at_mark world.new.marked < length world.new.now.scopes.frames) }
    ensures err { OnErr result (KeepsFrames world.old world.new) }
{
    prepare(world, visit, above)?;
    world.enter(visit.module.as_str())
}

/// Runs the file of a project in its module.
pub(crate) fn run_project<F: Files>(
    alloc: Global,
    world: &mut World,
    natives: &mut JamNatives,
    turns: &mut Turns,
    files: &mut F,
    visit: &Visit,
    above: Option<&Text>,
    tree: &Tree,
) -> Result<(), EvalFault>
    ensures { RunsVisit F.outside visit.now above.entry tree.now world.old turns.old natives.old files.old world.new turns.new natives.new files.new result }
{
    enter(world, visit, above)?;
    let ended = run(alloc, world, &visit.file, tree, turns, natives, files);
    world.leave();
    ended
}
