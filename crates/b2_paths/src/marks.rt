//! Marks on numbers, all of which can be taken away at once.
ghost use Rattle.std.specs.Prelude.{◌≡◌, ◌↔◌, ◌⊎◌, ℕ, ◌<◌, length, slice_index_or, IsTrue, IsOk, IfOk, OnOk, OnErr};
ghost use Rattle.b2_paths.specs.MarkSets.{IsMarked, NoneMarked};

use b2_base::fault::OutOfMemory;
use std::alloc::Global;
use std::marker::Model;

/// A set of numbers, seen as their flags; beyond the last flag no number is marked. Taking all marks away costs the same
/// however many there are. Memory is taken for each number up to the highest that was ever marked.
pub struct Marks {
    stamps: Vec<u32>,
    stamp: u32,
}

/// By hand, so that dropping one is one call.
impl Drop for Marks {
    fn drop(self) {
        let Marks { stamps, stamp: _ } = self;
        drop(stamps);
    }
}

impl Model for Marks {
    ghost use Rattle.std.specs.Prelude.{List, Bool};
    ghost use Rattle.std.specs.Coded.{coded_list, coded_bool};
    ghost use Rattle.b2_paths.specs.MarkSets.{marked_by, IsStamped};

    ghost Value = { List Bool };

    ghost coded = { coded_list coded_bool };

    ghost view = { λ m. marked_by m.stamps.items m.stamp };

    ghost invariant = { λ m. IsStamped m.stamps.items m.stamp };
}

/// Makes room for the stamp of a number; further stamps are 0.
fn make_room(stamps: &mut Vec<u32>, place: usize) -> Result<(), OutOfMemory>
    requires { place < 4294967296 }
    ensures room { OnOk result (place < length stamps.new.items) }
    ensures had { place < length stamps.old.items → IsOk result }
    ensures stamps { (i : ℕ) → slice_index_or stamps.new.items i 0 ≡ slice_index_or stamps.old.items i 0 }
    ensures err { OnErr result (stamps.new.items ≡ stamps.old.items) }
{
    if place >= stamps.len() {
        stamps.resize(place + 1, 0)?;
    }
    Ok(())
}

impl Marks {
    /// No marks; takes no memory.
    pub fn new(alloc: Global) -> Marks
        ensures { NoneMarked result }
    {
        Marks {
            stamps: Vec::new(alloc),
            stamp: 1,
        }
    }

    /// Takes all marks away. Takes no memory, and the same time however many there are.
    pub fn begin(&mut self)
        ensures { NoneMarked self.new }
    {
        if self.stamp == u32::MAX {
            self.stamps.clear();
            self.stamp = 1;
        } else {
            self.stamp += 1;
        }
    }

    /// Marks a number, and answers whether it was marked. A number that has a flag, set or not, takes no memory. After an
    /// error the marks are as before.
    pub fn mark(&mut self, number: u32) -> Result<bool, OutOfMemory>
        ensures had { number < length self.old → IsOk result }
        ensures was { IfOk result (λ was. IsTrue was ↔ IsMarked self.old number) }
        ensures ok { OnOk result ((i : ℕ) → IsMarked self.new i ↔ ((i ≡ number) ⊎ IsMarked self.old i)) }
        ensures err { OnErr result (self.new ≡ self.old) }
    {
        let place = number as usize;
        make_room(&mut self.stamps, place)?;
        let was = self.stamps[place] == self.stamp;
        self.stamps[place] = self.stamp;
        Ok(was)
    }

    /// Whether a number is marked; takes no memory.
    pub fn is_marked(&self, number: u32) -> bool
        ensures { IsTrue result ↔ IsMarked self.now number }
    {
        match self.stamps.get(number as usize) {
            Some(stamp) => *stamp == self.stamp,
            None => false,
        }
    }
}
