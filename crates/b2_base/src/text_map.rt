//! A map from texts.
ghost use Rattle.std.specs.Prelude.{◌≡◌, is_some, IfOk, OnOk, OnErr, [], None, if◌then◌else◌};
ghost use Rattle.std.specs.Option.{option_copied};
ghost use Rattle.std.specs.FinMap as map;

use crate::fault::OutOfMemory;
use crate::text::Text;
use std::alloc::Global;
use std::collections::BTreeMap;
use std::marker::Model;

/// One value for each of some texts, seen as a finite map from their bytes.
pub struct TextMap<V: Drop> {
    values: BTreeMap<Text, V>,
}

/// By hand, so that dropping one is one call.
impl<V: Drop> Drop for TextMap<V> {
    fn drop(self) {
        let TextMap { values } = self;
        drop(values);
    }
}

impl<V: Drop> Model for TextMap<V> {
    ghost use Rattle.std.specs.Ordering.{nat_cmp};
    ghost use Rattle.std.specs.Cmp.Lexicographic.{slice_cmp};
    ghost use Rattle.std.specs.Coded.{coded_ℕ, coded_list};
    ghost use Rattle.std.specs.FinMap as map;

    ghost Value = { map.FinMap (slice_cmp nat_cmp) V };

    ghost coded = { map.code (coded_list coded_ℕ) V.code };

    ghost view = { λ a. map.from_entries a.values.entries };
}

impl<V: Drop> TextMap<V> {
    /// The empty map; takes no memory.
    pub fn new(alloc: Global) -> TextMap<V>
        ensures { result ≡ map.from_entries [] }
    {
        TextMap {
            values: BTreeMap::new(alloc),
        }
    }

    /// The value of a text; takes no memory.
    pub fn get(&self, text: &Text) -> Option<&V>
        ensures { option_copied result ≡ map.get self.now text.now }
    {
        self.values.get(text)
    }

    /// Gives a text a value, and answers the one before. After an error the map is as before, and the text had none:
    /// a text that has a value takes no memory.
    pub fn insert(&mut self, text: Text, value: V) -> Result<Option<V>, OutOfMemory>
        ensures before { IfOk result (λ before. before ≡ map.get self.old text) }
        ensures ok { OnOk result (self.new ≡ map.insert self.old text value) }
        ensures err { OnErr result (self.new ≡ self.old) }
        ensures absent { OnErr result (map.get self.old text ≡ None) }
    {
        Ok(self.values.insert(text, value)?)
    }

    /// Gives a text that has a value another one, and takes no memory. A text without a value gets none.
    pub fn set(&mut self, text: &Text, value: V)
        ensures { self.new ≡ (if is_some (map.get self.old text.now) then map.insert self.old text.now value else self.old) }
    {
        if let Some(found) = self.values.get_mut(text) {
            *found = value;
        }
    }
}
