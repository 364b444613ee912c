//! The open main targets, one above another.
ghost use Rattle.std.specs.Prelude.{◌≡◌, ◌∷◌, ◌++◌, [], false, OnOk, reverse};
ghost use Rattle.std.specs.List.{slice_get};
ghost use Rattle.std.specs.Option.{option_map_or};
ghost use Rattle.std.proofs.Props.{props};
ghost use Rattle.b2_references.specs.Names.{is_same, is_among};
ghost use Rattle.b2_generate.specs.Machine.{names_of};
ghost use Rattle.b2_generate.specs.Waiting.{AreFound};

use crate::frame::Frame;
use crate::name_table::NameTable;
use b2_base::fault::OutOfMemory;
use b2_references::name::TargetName;
use std::alloc::Global;
use std::mem;

/// The open main targets: the newest, and those that wait below it, the oldest first.
pub(crate) struct Stack<'a> {
    pub(crate) newest: Frame<'a>,
    pub(crate) below: Vec<Frame<'a>>,
    /// The places of those below by their names. One that waits no longer may keep its place here, so that closing takes no memory.
    pub(crate) places: NameTable<usize>,
    // Each of those below is found at its place, and so no two of them have one name. None has the name of the newest.
    ghost found: { AreFound places (reverse below.items) } by { Prim.hlevel props },
    ghost closed: { is_among (names_of (reverse below.items)) newest.name ≡ false },
}

/// By hand, so that dropping the stack is one call.
impl Drop for Stack<'_> {
    fn drop(self) {
        let Stack {
            newest,
            below,
            places,
        } = self;
        drop(newest);
        drop(below);
        drop(places);
    }
}

/// Whether the open main target at a place is there and has a name; takes no memory.
fn is_at(frames: &[Frame<'_>], place: usize, name: &TargetName) -> bool
    ensures { result ≡ option_map_or (λ f. is_same name.now f.name) (slice_get frames.now place) false }
{
    match frames.get(place) {
        None => false,
        Some(frame) => name.equals(&frame.name),
    }
}

impl<'a> Stack<'a> {
    /// One open target; takes no memory.
    pub(crate) fn new(alloc: Global, newest: Frame<'a>) -> Stack<'a>
        ensures newest { result.newest ≡ newest.entry }
        ensures below { result.below.items ≡ [] }
    {
        Stack {
            newest,
            below: Vec::new(alloc),
            places: NameTable::new(alloc),
        }
    }

    /// Whether one of the main targets that wait has a name, which is looked up by a hash; takes no memory.
    fn waits(&self, name: &TargetName) -> bool
        ensures { result ≡ is_among (names_of (reverse self.now.below.items)) name.now }
    {
        match self.places.get(name).copied() {
            None => false,
            Some(place) => is_at(self.below.as_slice(), place, name),
        }
    }

    /// Whether a main target is open, which is looked up by a hash; takes no memory.
    #[tactic(auto, using(crate::proofs::OpenTargetsAreFound::one_more))]
    pub(crate) fn is_open(&self, name: &TargetName) -> bool
        ensures { result ≡ is_among (names_of (self.now.newest ∷ reverse self.now.below.items)) name.now }
    {
        self.waits(name) || name.equals(&self.newest.name)
    }

    /// Opens a further target above the newest; none of its name is open.
    #[tactic(none)]
    pub(crate) fn open(&mut self, frame: Frame<'a>) -> Result<(), OutOfMemory>
        requires closed { is_among (names_of (self.old.newest ∷ reverse self.old.below.items)) frame.name ≡ false }
        ensures newest { OnOk result (self.new.newest ≡ frame.entry) }
        ensures below { OnOk result (self.new.below.items ≡ self.old.below.items ++ self.old.newest ∷ []) }
    {
        let place = self.below.len();
        self.places.insert(&self.newest.name, place)?;
        let waiting = mem::replace(&mut self.newest, frame);
        self.below.push(waiting)?;
        Ok(())
    }
}
