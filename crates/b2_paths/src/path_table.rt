//! A table of paths.
ghost use Rattle.std.specs.Prelude.{◌≡◌, ◌<◌, [], ◌∷◌, ◌++◌, length, IfOk, IsOk, OnOk, OnErr, MatchOption};
ghost use Rattle.std.specs.List.{Contains};
ghost use Rattle.b2_paths.specs.PathTables.{IsPlaceOf, AreDistinct, AreFew};

use crate::hashed_path::HashedPath;
use b2_base::fault::OutOfMemory;
use b2_base::path::Path;
use indexmap::IndexSet;
use std::alloc::Global;
use std::marker::Model;

/// Paths by number, seen as the list of them. No path is there twice, and the number of a path is its place, from 0. It
/// stays the path's as the table grows. There are at most 2 ^ 32 - 1 paths.
pub struct PathTable {
    paths: IndexSet<HashedPath>,
}

/// By hand, so that dropping one is one call.
impl Drop for PathTable {
    fn drop(self) {
        let PathTable { paths } = self;
        drop(paths);
    }
}

impl Model for PathTable {
    ghost use Rattle.std.specs.Prelude.{ℕ, List};
    ghost use Rattle.std.specs.Coded.{coded_ℕ, coded_list};
    ghost use Rattle.b2_paths.specs.PathTables.{AreFew};

    ghost Value = { List (List ℕ) };

    ghost coded = { coded_list (coded_list coded_ℕ) };

    ghost view = { λ t. t.paths.keys };

    ghost invariant = { λ t. AreFew t.paths.keys };
}

impl PathTable {
    /// The empty table; takes no memory.
    pub fn new(alloc: Global) -> PathTable
        ensures { result ≡ [] }
    {
        PathTable {
            paths: IndexSet::new(alloc),
        }
    }

    /// How many paths there are.
    pub fn len(&self) -> usize
        ensures { result ≡ length self.now }
    {
        self.paths.len()
    }

    /// A law of each table: no path is there twice, and there are at most 2 ^ 32 - 1. Does nothing.
    pub fn distinct(&self)
        ensures distinct { AreDistinct self.now }
        ensures few { AreFew self.now }
    {
        let _len = self.paths.len();
    }

    /// The number of a path, if it is there; takes no memory.
    pub fn find(&self, path: &Path) -> Option<u32>
        ensures { MatchOption result (Contains self.now path.now → ⊥) (IsPlaceOf self.now path.now) }
    {
        let place = self.paths.get_index_of(path.as_str())?;
        Some(place as u32)
    }

    /// The path of a number.
    pub fn at(&self, number: u32) -> &Path
        requires { number < length self.now }
        ensures { IsPlaceOf self.now result.now number }
    {
        self.paths.as_slice()[number as usize].path()
    }

    /// Puts a path that is not there at the end, and answers its number.
    fn add(&mut self, path: &Path) -> Result<u32, OutOfMemory>
        requires { Contains self.old path.now → ⊥ }
        ensures place { IfOk result (IsPlaceOf self.new path.now) }
        ensures ok { OnOk result (self.new ≡ self.old ++ path.now ∷ []) }
        ensures err { OnErr result (self.new ≡ self.old) }
    {
        let place = self.paths.len();
        if place >= u32::MAX as usize {
            return Err(OutOfMemory);
        }
        let _added = self.paths.insert(HashedPath::copy_of(path)?)?;
        Ok(place as u32)
    }

    /// The number of a path, which is put at the end if it is not there. A path that is there takes no memory. One that is
    /// not takes some, and where 2 ^ 32 - 1 are there already the answer is that memory ran out.
    pub fn number_of(&mut self, path: &Path) -> Result<u32, OutOfMemory>
        ensures place { IfOk result (IsPlaceOf self.new path.now) }
        ensures known { Contains self.old path.now → IsOk result }
        ensures stays { Contains self.old path.now → self.new ≡ self.old }
        ensures added { (Contains self.old path.now → ⊥) → OnOk result (self.new ≡ self.old ++ path.now ∷ []) }
        ensures err { OnErr result (self.new ≡ self.old) }
    {
        match self.find(path) {
            Some(number) => Ok(number),
            None => self.add(path),
        }
    }
}
