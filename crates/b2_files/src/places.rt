//! Where the file of each path is.
ghost use Rattle.std.specs.Prelude.{◌≡◌, ℕ, List, [], IsTrue, IfOk, OnOk};
ghost use Rattle.std.specs.FinMap as map;
ghost use Rattle.b2_base.specs.Segments.{texts};
ghost use Rattle.b2_base.specs.Keys.{AreKeys};
ghost use Rattle.b2_files.specs.Stores.{place_of, is_known, place_set};

use b2_base::fault::OutOfMemory;
use b2_base::path::Path;
use b2_base::path_map::PathMap;
use std::alloc::Global;
use std::marker::Model;

/// For each path that was named, a place, or None.
pub struct Places {
    values: PathMap<Option<usize>>,
}

/// By hand, so that dropping one is one call.
impl Drop for Places {
    fn drop(self) {
        let Places { values } = self;
        drop(values);
    }
}

impl Model for Places {
    ghost use Rattle.std.specs.Prelude.{ℕ, List, Option};
    ghost use Rattle.std.specs.Ordering.{nat_cmp};
    ghost use Rattle.std.specs.Cmp.Lexicographic.{slice_cmp};
    ghost use Rattle.std.specs.Coded.{coded_ℕ, coded_list, coded_option};
    ghost use Rattle.std.specs.FinMap as map;

    ghost Value = { map.FinMap (slice_cmp nat_cmp) (Option ℕ) };

    ghost coded = { map.code (coded_list coded_ℕ) (coded_option coded_ℕ) };

    ghost view = { λ p. p.values };
}

impl Places {
    /// No path is known.
    pub fn new(alloc: Global) -> Places
        ensures { result ≡ map.from_entries [] }
    {
        Places {
            values: PathMap::new(alloc),
        }
    }

    /// The place of a path.
    pub fn get(&self, path: &Path) -> Option<usize>
        ensures { result ≡ place_of self.now path.now }
    {
        match self.values.get(path) {
            None => None,
            Some(place) => *place,
        }
    }

    /// The paths that are known, in byte order.
    pub fn known(&self, alloc: Global) -> Result<Vec<&Path>, OutOfMemory>
        ensures { IfOk result (λ paths. AreKeys (is_known self.now) (texts paths.items)) }
    {
        self.values.keys(alloc)
    }

    /// Makes a path known, with no place if it was not.
    pub fn know(&mut self, path: &Path) -> Result<(), OutOfMemory>
        ensures known { OnOk result (IsTrue (is_known self.new path.now)) }
        ensures stays { (other : List ℕ) → IsTrue (is_known self.old other) → IsTrue (is_known self.new other) }
        ensures places { (other : List ℕ) → place_of self.new other ≡ place_of self.old other }
    {
        if self.values.get(path).is_none() {
            self.values.insert(path.copy()?, None)?;
        }
        Ok(())
    }

    /// Gives a known path a place, or None. A path that is not known has no place and gets none.
    pub fn set(&mut self, path: &Path, place: Option<usize>)
        ensures known { (other : List ℕ) → is_known self.new other ≡ is_known self.old other }
        ensures places { (other : List ℕ) → place_of self.new other ≡ place_set self.old path.now place other }
    {
        self.values.set(path, place);
    }
}
