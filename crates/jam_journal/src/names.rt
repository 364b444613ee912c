//! A map from texts, asked by borrowed ones.
ghost use Rattle.std.specs.Prelude.{◌≡◌, map as each, string_bytes, IfOk, IsTrue, OnOk, OnErr};
ghost use Rattle.std.specs.Option.{option_copied};
ghost use Rattle.std.specs.FinMap as map;
ghost use Rattle.jam_journal.specs.Tables.{back_name};

use crate::others::Others;
use crate::slots::{self, Slot, slot_of};
use b2_base::fault::OutOfMemory;
use std::alloc::Global;
use std::marker::Model;

/// One value for each of some texts, seen as a finite map from them. The names of argument lists have places of their own, so
/// that a call that binds them takes no memory for keys, and finds none by comparing.
pub struct Names<V: Drop> {
    slots: Vec<Slot<V>>,
    others: Others<V>,
}

/// By hand, so that dropping one is one call.
impl<V: Drop> Drop for Names<V> {
    fn drop(self) {
        let Names { slots, others } = self;
        drop(slots);
        drop(others);
    }
}

impl<V: Drop> Model for Names<V> {
    ghost use Rattle.std.specs.Ordering.{nat_cmp};
    ghost use Rattle.std.specs.Cmp.Lexicographic.{slice_cmp};
    ghost use Rattle.std.specs.Coded.{coded_ℕ, coded_list};
    ghost use Rattle.std.specs.FinMap as map;
    ghost use Rattle.jam_journal.specs.Slots.{with_slots, AreApart};

    ghost Value = { map.FinMap (slice_cmp nat_cmp) V };

    ghost coded = { map.code (coded_list coded_ℕ) V.code };

    ghost view = { λ a. with_slots 0 a.slots.items a.others };

    ghost invariant = { λ a. AreApart a.slots.items a.others };
}

impl<V: Drop> Names<V> {
    /// The empty map; takes no memory.
    pub fn new(alloc: Global) -> Names<V>
        ensures { result ≡ map.empty }
    {
        Names {
            slots: Vec::new(alloc),
            others: Others::new(alloc),
        }
    }

    /// Whether it keeps nothing, neither a value nor a place for one. Takes no memory.
    pub fn keeps_nothing(&self) -> bool
        ensures { IsTrue result → self.now ≡ map.empty }
    {
        self.slots.is_empty() && self.others.is_empty()
    }

    /// The value of a text; takes no memory.
    pub fn get(&self, name: &str) -> Option<&V>
        ensures { option_copied result ≡ map.get self.now name.now }
    {
        match slot_of(name) {
            Some(place) => slots::value_of(self.slots.as_slice(), place),
            None => self.others.get(name),
        }
    }

    /// The texts that have a value, with their values, in byte order.
    pub fn entries(&self, alloc: Global) -> Result<Vec<(&String, &V)>, OutOfMemory>
        ensures { IfOk result (λ row. each (λ entry. (string_bytes entry.0.now, entry.1.now)) row.items ≡ map.entries self.now) }
    {
        let mut row = self.others.entries(alloc)?;
        slots::add_entries(self.slots.as_slice(), &mut row)?;
        Ok(row)
    }

    /// Gives a text a value, and answers the one before. After an error the map is as before.
    pub fn insert(&mut self, alloc: Global, name: &str, value: V) -> Result<Option<V>, OutOfMemory>
        ensures before { IfOk result (λ before. before ≡ map.get self.old name.now) }
        ensures ok { OnOk result (self.new ≡ map.insert self.old name.now value) }
        ensures err { OnErr result (self.new ≡ self.old) }
    {
        match slot_of(name) {
            Some(place) => {
                slots::grow(alloc, &mut self.slots, place)?;
                Ok(slots::set(&mut self.slots, place, Some(value)))
            }
            None => {
                let before = self.others.insert(alloc, name, value)?;
                Ok(before)
            }
        }
    }

    /// Gives a text that has a value another one, and answers the one before. A text without a value gets none. Takes no
    /// memory.
    pub fn replace(&mut self, name: &str, value: V) -> Option<V>
        ensures before { result ≡ map.get self.old name.now }
        ensures after { self.new ≡ back_name self.old name.now (Some value) }
    {
        match slot_of(name) {
            Some(place) => slots::replace(&mut self.slots, place, value),
            None => self.others.replace(name, value),
        }
    }

    /// Takes away the value of a text, if it has one, and answers it. Takes no memory.
    pub fn remove(&mut self, name: &str) -> Option<V>
        ensures before { result ≡ map.get self.old name.now }
        ensures after { self.new ≡ map.remove self.old name.now }
    {
        match slot_of(name) {
            Some(place) => slots::set(&mut self.slots, place, None),
            None => self.others.remove(name),
        }
    }

    /// Gives a text that has a value another one or none. A text without a value gets none. Takes no memory.
    pub fn put_back(&mut self, name: &str, value: Option<V>)
        ensures { self.new ≡ back_name self.old name.now value }
    {
        match value {
            Some(value) => drop(self.replace(name, value)),
            None => drop(self.remove(name)),
        }
    }
}
