//! A map from texts in a tree, asked by borrowed ones.
ghost use Rattle.std.specs.Prelude.{◌≡◌, ◌↔◌, map as each, string_bytes, IfOk, IsTrue, OnOk, OnErr};
ghost use Rattle.std.specs.Option.{option_copied};
ghost use Rattle.std.specs.FinMap as map;
ghost use Rattle.jam_journal.specs.Tables.{back_name};

use b2_base::fault::OutOfMemory;
use std::alloc::Global;
use std::collections::BTreeMap;
use std::marker::Model;
use std::mem;

/// One value for each of some texts, seen as a finite map from them.
pub struct Others<V: Drop> {
    values: BTreeMap<String, V>,
}

/// By hand, so that dropping one is one call.
impl<V: Drop> Drop for Others<V> {
    fn drop(self) {
        let Others { values } = self;
        drop(values);
    }
}

impl<V: Drop> Model for Others<V> {
    ghost use Rattle.std.specs.Prelude.{string_bytes};
    ghost use Rattle.std.specs.Ordering.{nat_cmp};
    ghost use Rattle.std.specs.Cmp.Lexicographic.{slice_cmp};
    ghost use Rattle.std.specs.Coded.{coded_ℕ, coded_list};
    ghost use Rattle.std.specs.FinMap as map;
    ghost use Rattle.jam_journal.specs.Tables.{names_of};

    ghost Value = { map.FinMap (slice_cmp nat_cmp) V };

    ghost coded = { map.code (coded_list coded_ℕ) V.code };

    ghost view = { λ a. names_of string_bytes a.values.entries };
}

impl<V: Drop> Others<V> {
    /// The empty map; takes no memory.
    pub fn new(alloc: Global) -> Others<V>
        ensures { result ≡ map.empty }
    {
        Others {
            values: BTreeMap::new(alloc),
        }
    }

    /// Whether no text has a value.
    pub fn is_empty(&self) -> bool
        ensures { IsTrue result ↔ (self.now ≡ map.empty) }
    {
        self.values.is_empty()
    }

    /// The value of a text; takes no memory.
    pub fn get(&self, name: &str) -> Option<&V>
        ensures { option_copied result ≡ map.get self.now name.now }
    {
        self.values.get(name)
    }

    /// The texts that have a value, with their values, in byte order.
    pub fn entries(&self, alloc: Global) -> Result<Vec<(&String, &V)>, OutOfMemory>
        ensures { IfOk result (λ row. each (λ entry. (string_bytes entry.0.now, entry.1.now)) row.items ≡ map.entries self.now) }
    {
        Ok(self.values.iter().collect(alloc)?)
    }

    /// Gives a text a value, and answers the one before. After an error the map is as before.
    pub fn insert(&mut self, alloc: Global, name: &str, value: V) -> Result<Option<V>, OutOfMemory>
        ensures before { IfOk result (λ before. before ≡ map.get self.old name.now) }
        ensures ok { OnOk result (self.new ≡ map.insert self.old name.now value) }
        ensures err { OnErr result (self.new ≡ self.old) }
    {
        let name = String::from_str(alloc, name)?;
        Ok(self.values.insert(name, value)?)
    }

    /// Gives a text that has a value another one, and answers the one before. A text without a value gets none. Takes no
    /// memory.
    pub fn replace(&mut self, name: &str, value: V) -> Option<V>
        ensures before { result ≡ map.get self.old name.now }
        ensures after { self.new ≡ back_name self.old name.now (Some value) }
    {
        match self.values.get_mut(name) {
            Some(found) => Some(mem::replace(found, value)),
            None => None,
        }
    }

    /// Takes away the value of a text, if it has one, and answers it. Takes no memory.
    pub fn remove(&mut self, name: &str) -> Option<V>
        ensures before { result ≡ map.get self.old name.now }
        ensures after { self.new ≡ map.remove self.old name.now }
    {
        self.values.remove(name)
    }
}
