//! A map from pairs of numbers.
ghost use Rattle.std.specs.Prelude.{◌≡◌, [], None, OnOk, OnErr};
ghost use Rattle.std.specs.FinMap as map;

use b2_base::fault::OutOfMemory;
use std::alloc::Global;
use std::collections::BTreeMap;
use std::marker::Model;

/// A number for each of some pairs of numbers, seen as a finite map from them.
pub struct PairMap {
    values: BTreeMap<(u32, u32), u32>,
}

/// By hand, so that dropping one is one call.
impl Drop for PairMap {
    fn drop(self) {
        let PairMap { values } = self;
        drop(values);
    }
}

impl Model for PairMap {
    ghost use Rattle.std.specs.Coded.{coded_ℕ, coded×};
    ghost use Rattle.std.specs.FinMap as map;
    ghost use Rattle.b2_paths.specs.PairMaps.{Pairs};

    ghost Value = { Pairs };

    ghost coded = { map.code (coded× coded_ℕ coded_ℕ) coded_ℕ };

    ghost view = { λ m. map.from_entries m.values.entries };
}

impl PairMap {
    /// The empty map; takes no memory.
    pub fn new(alloc: Global) -> PairMap
        ensures { result ≡ map.from_entries [] }
    {
        PairMap {
            values: BTreeMap::new(alloc),
        }
    }

    /// What a pair has; takes no memory.
    pub fn get(&self, left: u32, right: u32) -> Option<u32>
        ensures { result ≡ map.get self.now (left, right) }
    {
        self.values.get(&(left, right)).copied()
    }

    /// Gives a pair a number, in place of the one that it has. After an error the map is as before, and the pair had none:
    /// a pair that has a number takes no memory.
    pub fn insert(&mut self, left: u32, right: u32, value: u32) -> Result<(), OutOfMemory>
        ensures ok { OnOk result (self.new ≡ map.insert self.old (left, right) value) }
        ensures err { OnErr result (self.new ≡ self.old) }
        ensures absent { OnErr result (map.get self.old (left, right) ≡ None) }
    {
        self.values.insert((left, right), value)?;
        Ok(())
    }
}
