//! A map from texts that are found by a hash.
ghost use Rattle.std.specs.Prelude.{◌≡◌, IfOk, OnOk, []};
ghost use Rattle.std.specs.Option.{option_copied};
ghost use Rattle.std.specs.FinMap as map;

use crate::hashed_text::HashedText;
use b2_base::fault::OutOfMemory;
use b2_base::text::Text;
use indexmap::IndexMap;
use std::alloc::Global;
use std::marker::Model;

/// One value for each of some texts, seen as a finite map from their bytes. It is found by a hash, since many names are looked up.
pub(crate) struct TextTable<V: Drop> {
    values: IndexMap<HashedText, V>,
}

/// By hand, so that dropping one is one call.
impl<V: Drop> Drop for TextTable<V> {
    fn drop(self) {
        let TextTable { values } = self;
        drop(values);
    }
}

impl<V: Drop> Model for TextTable<V> {
    ghost use Rattle.std.specs.Ordering.{nat_cmp};
    ghost use Rattle.std.specs.Cmp.Lexicographic.{slice_cmp};
    ghost use Rattle.std.specs.Coded.{coded_ℕ, coded_list};
    ghost use Rattle.std.specs.FinMap as map;

    ghost Value = { map.FinMap (slice_cmp nat_cmp) V };

    ghost coded = { map.code (coded_list coded_ℕ) V.code };

    ghost view = { λ t. map.from_entries t.values.entries };
}

impl<V: Drop> TextTable<V> {
    /// The empty map; takes no memory.
    pub(crate) fn new(alloc: Global) -> TextTable<V>
        ensures { result ≡ map.from_entries [] }
    {
        TextTable {
            values: IndexMap::new(alloc),
        }
    }

    /// The value of a text; takes no memory.
    pub(crate) fn get(&self, text: &Text) -> Option<&V>
        ensures { option_copied result ≡ map.get self.now text.now }
    {
        self.values.get(text.as_str())
    }

    /// Gives a text a value, and answers the one before.
    pub(crate) fn insert(&mut self, text: Text, value: V) -> Result<Option<V>, OutOfMemory>
        ensures before { IfOk result (λ before. before ≡ map.get self.old text) }
        ensures ok { OnOk result (self.new ≡ map.insert self.old text value) }
    {
        Ok(self.values.insert(HashedText::new(text), value)?)
    }
}
