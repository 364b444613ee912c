//! A map from main targets.
ghost use Rattle.std.specs.Prelude.{◌≡◌, OnErr, OnOk};
ghost use Rattle.std.specs.Option.{option_copied};
ghost use Rattle.std.specs.FinMap as map;

use b2_base::fault::OutOfMemory;
use b2_references::name::TargetName;
use indexmap::IndexMap;
use std::alloc::Global;
use std::marker::Model;

/// One value for each of some main targets, seen as a finite map from their names. They are
/// looked up by a hash.
pub struct NameTable<V: Drop> {
    values: IndexMap<TargetName, V>,
}

/// By hand, so that dropping one is one call.
impl<V: Drop> Drop for NameTable<V> {
    fn drop(self) {
        let NameTable { values } = self;
        drop(values);
    }
}

impl<V: Drop> Model for NameTable<V> {
    ghost use Rattle.std.specs.Coded.{coded_ℕ, coded_list, coded×};
    ghost use Rattle.std.specs.FinMap as map;
    ghost use Rattle.b2_generate.specs.Tables.{Table};

    ghost Value = { Table V };

    ghost coded = { map.code (coded× coded_ℕ (coded_list coded_ℕ)) V.code };

    ghost view = { λ t. map.from_entries t.values.entries };
}

impl<V: Drop> NameTable<V> {
    /// The empty map; takes no memory.
    pub(crate) fn new(alloc: Global) -> NameTable<V>
        ensures { result ≡ map.empty }
    {
        NameTable {
            values: IndexMap::new(alloc),
        }
    }

    /// The value of a main target; takes no memory.
    pub(crate) fn get(&self, name: &TargetName) -> Option<&V>
        ensures { option_copied result ≡ map.get self.now name.now }
    {
        self.values.get(name)
    }

    /// Gives a main target a value. Where memory runs out, the map is as before.
    pub(crate) fn insert(&mut self, name: &TargetName, value: V) -> Result<(), OutOfMemory>
        ensures given { OnOk result (self.new ≡ map.insert self.old name.now value) }
        ensures same { OnErr result (self.new ≡ self.old) }
    {
        let _before = self.values.insert(name.copy()?, value)?;
        Ok(())
    }
}
