//! The files that are found for the includes of a file.
ghost use Rattle.std.specs.Prelude.{◌≡◌, [], OnOk, OnErr};
ghost use Rattle.std.specs.Option.{option_copied};
ghost use Rattle.std.specs.FinMap as map;

use b2_base::fault::OutOfMemory;
use b2_base::list::List;
use std::alloc::Global;
use std::collections::BTreeMap;
use std::marker::Model;

/// Numbers of files, in a list for each of some pairs of a list of directories and a file, seen as a finite map from the pairs.
pub struct FoundMap {
    targets: BTreeMap<(u32, u32), List<u32>>,
}

/// By hand, so that dropping one is one call.
impl Drop for FoundMap {
    fn drop(self) {
        let FoundMap { targets } = self;
        drop(targets);
    }
}

impl Model for FoundMap {
    ghost use Rattle.std.specs.FinMap as map;
    ghost use Rattle.b2_facts.specs.Facts.{Founds, founds_code};

    ghost Value = { Founds };

    ghost coded = { founds_code };

    ghost view = { λ m. map.from_entries m.targets.entries };
}

impl FoundMap {
    /// The empty map; takes no memory.
    pub fn new(alloc: Global) -> FoundMap
        ensures { result ≡ map.from_entries [] }
    {
        FoundMap {
            targets: BTreeMap::new(alloc),
        }
    }

    /// What a list and a file have; takes no memory.
    pub fn get(&self, list: u32, file: u32) -> Option<&List<u32>>
        ensures { option_copied result ≡ map.get self.now (list, file) }
    {
        self.targets.get(&(list, file))
    }

    /// Gives a list and a file these numbers, in place of those that they have. After an error the map is as before.
    pub fn insert(&mut self, list: u32, file: u32, targets: List<u32>) -> Result<(), OutOfMemory>
        ensures ok { OnOk result (self.new ≡ map.insert self.old (list, file) targets) }
        ensures err { OnErr result (self.new ≡ self.old) }
    {
        self.targets.insert((list, file), targets)?;
        Ok(())
    }
}
