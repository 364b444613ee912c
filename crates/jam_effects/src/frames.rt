//! Opening frames. After an error the world is as before.
ghost use Rattle.std.specs.Prelude.{◌≡◌, ◌<◌, ◌≢◌, [], List, length, OnOk, OnErr};
ghost use Rattle.jam_journal.specs.Scopes.{Binding, enter, enter_call, bind_each};
ghost use Rattle.jam_scope.specs.Changes.{rescoped, frames_at_mark};
ghost use Rattle.jam_values.specs.Bindings.{bindings_of};
ghost use Rattle.jam_effects.specs.Framing.{entered, on_entered, loop_entered, call_entered};

use b2_base::fault::OutOfMemory;
use b2_base::text::Text;
use b2_base::text_list::TextList;
use jam_scope::world::World;
use jam_values::bindings::Bound;
use std::alloc::Global;

/// Opens a frame of the present module.
pub fn enter_here(alloc: Global, world: &mut World) -> Result<(), OutOfMemory>
    ensures ok { OnOk result (world.new ≡ entered world.old) }
    ensures newer { OnOk result (frames_at_mark world.new.marked < length world.new.now.scopes.frames) }
    ensures err { OnErr result (world.new ≡ world.old) }
{
    let module = String::from_str(alloc, world.module())?;
    world.enter(module.as_str())
}

/// Opens a frame of a module.
pub fn enter_module(world: &mut World, name: &str) -> Result<(), OutOfMemory>
    ensures ok { OnOk result (world.new ≡ rescoped (enter name.now) world.old) }
    ensures newer { OnOk result (frames_at_mark world.new.marked < length world.new.now.scopes.frames) }
    ensures err { OnErr result (world.new ≡ world.old) }
{
    world.enter(name)
}

/// Opens a frame of the present module in which the own values of the first of some targets are bound.
pub fn enter_target(alloc: Global, world: &mut World, targets: &[Text]) -> Result<(), OutOfMemory>
    ensures ok { OnOk result (world.new ≡ on_entered targets.now world.old) }
    ensures newer { OnOk result (frames_at_mark world.new.marked < length world.new.now.scopes.frames) }
    ensures err { OnErr result (world.new ≡ world.old) }
{
    enter_here(alloc, world)?;
    let [target, ..] = targets else {
        return Ok(());
    };
    match world.bind_own(target.as_str()) {
        Ok(()) => Ok(()),
        Err(fault) => {
            world.leave();
            Err(fault)
        }
    }
}

/// Opens a frame of the present module in which a name is bound to the empty list.
pub fn enter_loop(alloc: Global, world: &mut World, name: &Text) -> Result<(), OutOfMemory>
    ensures ok { OnOk result (world.new ≡ loop_entered name.now world.old) }
    ensures newer { OnOk result (frames_at_mark world.new.marked < length world.new.now.scopes.frames) }
    ensures err { OnErr result (world.new ≡ world.old) }
{
    enter_here(alloc, world)?;
    match world.bind(name.as_str(), TextList::new(alloc)) {
        Ok(()) => Ok(()),
        Err(fault) => {
            world.leave();
            Err(fault)
        }
    }
}

/// Binds names in the newest frame to the values themselves. After an error some are bound.
fn bind_all(world: &mut World, bindings: Vec<Bound>) -> Result<(), OutOfMemory>
    requires { world.old.now.scopes.frames ≢ [] }
    ensures ok { OnOk result (world.new ≡ rescoped (bind_each (bindings_of bindings.items)) world.old) }
    ensures err { OnErr result ((bound : List Binding) × (world.new ≡ rescoped (bind_each bound) world.old)) }
{
    for bound in bindings {
        let Bound { name, value } = bound;
        world.bind(name.as_str(), value)?;
    }
    Ok(())
}

/// Opens the frame of a call of a rule that belongs to a module. The frames below it stay, so that a called rule sees what
/// is local in its callers.
fn open_call(world: &mut World, home: &str) -> Result<(), OutOfMemory>
    ensures ok { OnOk result (world.new ≡ rescoped (enter_call home.now) world.old) }
    ensures newer { OnOk result (frames_at_mark world.new.marked < length world.new.now.scopes.frames) }
    ensures err { OnErr result (world.new ≡ world.old) }
{
    world.enter_call(home)
}

/// Opens the frame of a call of a rule that belongs to a module, with these bindings.
pub fn enter_call(world: &mut World, home: &str, bindings: Vec<Bound>) -> Result<(), OutOfMemory>
    ensures ok { OnOk result (world.new ≡ call_entered home.now (bindings_of bindings.items) world.old) }
    ensures newer { OnOk result (frames_at_mark world.new.marked < length world.new.now.scopes.frames) }
    ensures err { OnErr result (world.new ≡ world.old) }
{
    open_call(world, home)?;
    match bind_all(world, bindings) {
        Ok(()) => Ok(()),
        Err(fault) => {
            world.leave();
            Err(fault)
        }
    }
}
