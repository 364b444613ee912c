//! A place in the past of a world.
use std::marker::Model;

/// A mark of a world, which is used up by rolling back to it. It is seen as the number of marks that were there before it.
#[derive(Drop)]
pub struct Mark {
    before: usize,
}

impl Model for Mark {
    ghost use Rattle.std.specs.Prelude.{ℕ};

    ghost Value = { ℕ };

    ghost view = { λ m. m.before };
}

ghost use Rattle.std.specs.Prelude.{◌≡◌};

impl Mark {
    /// The mark that so many others came before; takes no memory.
    pub(crate) fn after(before: usize) -> Mark
        ensures { result ≡ before }
    {
        Mark { before }
    }

    /// How many others came before it; takes no memory.
    pub(crate) fn before(&self) -> usize
        ensures { result ≡ self.now }
    {
        self.before
    }
}
