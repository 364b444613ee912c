//! A value whose past can be marked.
ghost use Rattle.std.specs.Prelude.{◌≡◌, [], OnOk, OnErr};
ghost use Rattle.jam_journal.specs.Marks.{changed, marked, rolled};

use b2_base::fault::OutOfMemory;
use std::alloc::Global;
use std::marker::Model;
use std::mem;

/// A value, and what it was at marks. It is seen as the present value with those of the marks, the newest first; it keeps what
/// the first change since each mark replaced.
#[derive(Drop)]
pub struct Saved<T: Drop> {
    value: T,
    /// The value at the newest mark, if it has changed since.
    before: Option<T>,
    /// The same at each older mark, and before all marks, the newest last.
    older: Vec<Option<T>>,
}

impl<T: Drop> Model for Saved<T> {
    ghost use Rattle.std.specs.Prelude.{reverse};
    ghost use Rattle.std.specs.Coded.{coded_list, coded×};
    ghost use Rattle.jam_journal.specs.Marks.{Marked, saved_by};

    ghost Value = { Marked T };

    ghost coded = { coded× T.code (coded_list T.code) };

    ghost view = { λ s. (s.value, saved_by s.value s.before (reverse s.older.items)) };
}

impl<T: Drop> Saved<T> {
    /// A value without a mark; takes no memory.
    pub fn new(alloc: Global, value: T) -> Saved<T>
        ensures { result ≡ (value, []) }
    {
        Saved {
            value,
            before: None,
            older: Vec::new(alloc),
        }
    }

    /// The present value; takes no memory.
    pub fn get(&self) -> &T
        ensures { result.now ≡ self.now.0 }
    {
        &self.value
    }

    /// Replaces the present value. Takes no memory.
    #[tactic(auto, using(crate::proofs::FirstChangeSavesTheOld::saved_set))]
    pub fn set(&mut self, value: T)
        ensures { self.new ≡ changed (λ _. value) self.old }
    {
        let before = self.before.take();
        let value = mem::replace(&mut self.value, value);
        self.before = Some(before.unwrap_or(value));
    }

    /// Marks the present value. After an error all is as before.
    pub fn mark(&mut self) -> Result<(), OutOfMemory>
        ensures ok { OnOk result (self.new ≡ marked self.old) }
        ensures err { OnErr result (self.new ≡ self.old) }
    {
        self.older.reserve(1)?;
        let before = self.before.take();
        self.older.push_reserved(before);
        Ok(())
    }

    /// Goes back to the value of the newest mark, and uses that mark up; without a mark nothing changes. Takes no memory.
    pub fn roll_back(&mut self)
        ensures { self.new ≡ rolled self.old }
    {
        if let Some(older) = self.older.pop() {
            if let Some(before) = self.before.take() {
                self.value = before;
            }
            self.before = older;
        }
    }
}
