//! The makers of paths.
ghost use Rattle.std.specs.Prelude.{◌≡◌, [], OnOk, OnErr};
ghost use Rattle.std.specs.FinMap as map;

use b2_base::fault::OutOfMemory;
use b2_base::path::Path;
use b2_paths::hashed_path::HashedPath;
use indexmap::IndexMap;
use std::alloc::Global;
use std::marker::Model;

/// The number of a step for each of some paths, seen as a finite map from their bytes. It is found by a hash, since it is
/// asked for every file that an update looks at.
pub struct MakerMap {
    numbers: IndexMap<HashedPath, u32>,
}

/// By hand, so that dropping one is one call.
impl Drop for MakerMap {
    fn drop(self) {
        let MakerMap { numbers } = self;
        drop(numbers);
    }
}

impl Model for MakerMap {
    ghost use Rattle.std.specs.Prelude.{ℕ};
    ghost use Rattle.std.specs.Ordering.{nat_cmp};
    ghost use Rattle.std.specs.Cmp.Lexicographic.{slice_cmp};
    ghost use Rattle.std.specs.Coded.{coded_ℕ, coded_list};
    ghost use Rattle.std.specs.FinMap as map;

    ghost Value = { map.FinMap (slice_cmp nat_cmp) ℕ };

    ghost coded = { map.code (coded_list coded_ℕ) coded_ℕ };

    ghost view = { λ m. map.from_entries m.numbers.entries };
}

impl MakerMap {
    /// The empty map; takes no memory.
    pub fn new(alloc: Global) -> MakerMap
        ensures { result ≡ map.from_entries [] }
    {
        MakerMap {
            numbers: IndexMap::new(alloc),
        }
    }

    /// The number of a path; takes no memory.
    pub fn get(&self, path: &Path) -> Option<u32>
        ensures { result ≡ map.get self.now path.now }
    {
        self.numbers.get(path.as_str()).copied()
    }

    /// Gives a path a number, in place of the one that it may have. After an error the map is as before.
    pub fn insert(&mut self, path: &Path, number: u32) -> Result<(), OutOfMemory>
        ensures ok { OnOk result (self.new ≡ map.insert self.old path.now number) }
        ensures err { OnErr result (self.new ≡ self.old) }
    {
        let key = HashedPath::copy_of(path)?;
        let _before = self.numbers.insert(key, number)?;
        Ok(())
    }
}
