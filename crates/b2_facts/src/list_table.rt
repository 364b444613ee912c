//! Numbers for lists of directories.
ghost use Rattle.std.specs.Prelude.{◌≡◌, ℕ, ◌<◌, ◌∷◌, ◌++◌, [], Some, Ok, length, slice_get, IfOk, OnOk, OnErr, MatchOption};
ghost use Rattle.b2_facts.specs.Lists.{HasNoNumber, IsNumberOf, IsSameOrAdded};

use b2_base::fault::OutOfMemory;
use b2_base::path::Path;
use b2_base::path_list::{PathList, copy_paths};
use std::alloc::Global;
use std::collections::BTreeMap;
use std::marker::Model;

/// Lists of directories by number, seen as the list of them. A list that is asked for again has the number that it had.
pub struct ListTable {
    lists: Vec<PathList>,
    numbers: BTreeMap<Vec<Path>, u32>,
}

/// By hand, so that dropping one is one call.
impl Drop for ListTable {
    fn drop(self) {
        let ListTable { lists, numbers } = self;
        drop(lists);
        drop(numbers);
    }
}

impl Model for ListTable {
    ghost use Rattle.std.specs.Prelude.{ℕ, List};
    ghost use Rattle.b2_facts.specs.Lists.{AreNumbered};

    ghost Value = { List (List (List ℕ)) };

    ghost view = { λ t. t.lists.items };

    ghost invariant = { λ t. AreNumbered t.lists.items t.numbers };
}

impl ListTable {
    /// No list; takes no memory.
    pub fn new(alloc: Global) -> ListTable
        ensures { result ≡ [] }
    {
        ListTable {
            lists: Vec::new(alloc),
            numbers: BTreeMap::new(alloc),
        }
    }

    /// The directories of a list.
    pub fn at(&self, number: u32) -> &[Path]
        requires { number < length self.now }
        ensures { slice_get self.now number ≡ Some result.now }
    {
        self.lists[number as usize].as_slice()
    }

    /// The number of a list, if it has one; takes no memory.
    fn find(&self, dirs: &[Path]) -> Option<u32>
        ensures { MatchOption result (HasNoNumber self.now dirs.now) (IsNumberOf self.now dirs.now) }
    {
        self.numbers.get(dirs).copied()
    }

    /// Puts a list at the end, and answers its number.
    fn add(&mut self, alloc: Global, dirs: &[Path]) -> Result<u32, OutOfMemory>
        requires { HasNoNumber self.old dirs.now }
        ensures place { IfOk result (λ number. slice_get self.new number ≡ Some dirs.now) }
        ensures ok { OnOk result (self.new ≡ self.old ++ dirs.now ∷ []) }
        ensures err { OnErr result (self.new ≡ self.old) }
    {
        let place = self.lists.len();
        if place >= u32::MAX as usize {
            return Err(OutOfMemory);
        }
        let number = place as u32;
        let list = copy_paths(alloc, dirs)?;
        let copied = copy_paths(alloc, dirs)?;
        let key = copied.into_vec();
        self.lists.reserve(1)?;
        self.numbers.insert(key, number)?;
        self.lists.push_reserved(list);
        Ok(number)
    }

    /// The number of a list, which is put at the end if it has none. A list that has one takes no memory. Where 2 ^ 32 - 1
    /// lists are there the answer is that memory ran out. After an error the lists are as before.
    pub fn number_of(&mut self, alloc: Global, dirs: &[Path]) -> Result<u32, OutOfMemory>
        ensures place { IfOk result (λ number. slice_get self.new number ≡ Some dirs.now) }
        ensures once { (n : ℕ) → slice_get self.old n ≡ Some dirs.now → result ≡ Ok n }
        ensures stays { (n : ℕ) → slice_get self.old n ≡ Some dirs.now → self.new ≡ self.old }
        ensures ok { OnOk result (IsSameOrAdded self.old dirs.now self.new) }
        ensures err { OnErr result (self.new ≡ self.old) }
    {
        match self.find(dirs) {
            Some(number) => Ok(number),
            None => self.add(alloc, dirs),
        }
    }
}
