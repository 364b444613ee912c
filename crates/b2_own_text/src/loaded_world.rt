//! The world that loading left.
ghost use Rattle.std.specs.Prelude.{◌≡◌, None};

use jam_scope::world::World;
use std::mem::forget;

/// A world in which no step is open.
#[derive(Drop)]
pub struct LoadedWorld {
    pub world: World,
    ghost closed: { world.now.step ≡ None },
}

impl LoadedWorld {
    /// The world is not taken apart, which would cost time. The program loads once as a rule, and a session keeps what each load
    /// left until the program ends.
    pub(crate) fn leave_world(self) {
        let LoadedWorld { world } = self;
        forget(world);
    }
}
