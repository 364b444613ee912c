//! A map from paths.
ghost use Rattle.std.specs.Prelude.{◌≡◌, is_some, IfOk, OnOk, OnErr, [], None, if◌then◌else◌};
ghost use Rattle.std.specs.Option.{option_copied};
ghost use Rattle.std.specs.FinMap as map;
ghost use Rattle.b2_base.specs.Segments.{texts};
ghost use Rattle.b2_base.specs.Keys.{AreKeys};

use crate::fault::OutOfMemory;
use crate::path::Path;
use std::alloc::Global;
use std::collections::BTreeMap;
use std::marker::Model;

/// One value for each of some paths, seen as a finite map from their bytes.
pub struct PathMap<V: Drop> {
    values: BTreeMap<Path, V>,
}

/// By hand, so that dropping one is one call.
impl<V: Drop> Drop for PathMap<V> {
    fn drop(self) {
        let PathMap { values } = self;
        drop(values);
    }
}

impl<V: Drop> Model for PathMap<V> {
    ghost use Rattle.std.specs.Ordering.{nat_cmp};
    ghost use Rattle.std.specs.Cmp.Lexicographic.{slice_cmp};
    ghost use Rattle.std.specs.Coded.{coded_ℕ, coded_list};
    ghost use Rattle.std.specs.FinMap as map;

    ghost Value = { map.FinMap (slice_cmp nat_cmp) V };

    ghost coded = { map.code (coded_list coded_ℕ) V.code };

    ghost view = { λ a. map.from_entries a.values.entries };
}

impl<V: Drop> PathMap<V> {
    /// The empty map; takes no memory.
    pub fn new(alloc: Global) -> PathMap<V>
        ensures { result ≡ map.from_entries [] }
    {
        PathMap {
            values: BTreeMap::new(alloc),
        }
    }

    /// The value of a path; takes no memory.
    pub fn get(&self, path: &Path) -> Option<&V>
        ensures { option_copied result ≡ map.get self.now path.now }
    {
        self.values.get(path)
    }

    /// Gives a path a value, and answers the one before. After an error the map is as before, and the path had none:
    /// a path that has a value takes no memory.
    pub fn insert(&mut self, path: Path, value: V) -> Result<Option<V>, OutOfMemory>
        ensures before { IfOk result (λ before. before ≡ map.get self.old path) }
        ensures ok { OnOk result (self.new ≡ map.insert self.old path value) }
        ensures err { OnErr result (self.new ≡ self.old) }
        ensures absent { OnErr result (map.get self.old path ≡ None) }
    {
        Ok(self.values.insert(path, value)?)
    }

    /// Gives a path that has a value another one, and takes no memory. A path without a value gets none.
    pub fn set(&mut self, path: &Path, value: V)
        ensures { self.new ≡ (if is_some (map.get self.old path.now) then map.insert self.old path.now value else self.old) }
    {
        if let Some(found) = self.values.get_mut(path) {
            *found = value;
        }
    }

    /// The paths that have a value, in byte order.
    pub fn keys(&self, alloc: Global) -> Result<Vec<&Path>, OutOfMemory>
        ensures { IfOk result (λ paths. AreKeys (λ path. is_some (map.get self.now path)) (texts paths.items)) }
    {
        Ok(self.values.keys().collect(alloc)?)
    }
}
