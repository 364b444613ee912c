//! A map from pairs of texts, asked by borrowed ones.
ghost use Rattle.std.specs.Prelude.{◌≡◌, map as each, IfOk, IsTrue, OnOk, OnErr, None, Some, string_bytes};
ghost use Rattle.std.specs.Option.{option_copied};
ghost use Rattle.std.specs.FinMap as map;
ghost use Rattle.std.specs.HashMap.{get_by_text};
ghost use Rattle.jam_journal.specs.Tables.{put_back, row_of, table_of};

use crate::names::Names;
use b2_base::fault::OutOfMemory;
use std::alloc::Global;
use std::collections::HashMap;
use std::marker::Model;

/// One value for each of some pairs of texts, seen as a finite map from them.
pub struct Table<V: Drop> {
    rows: HashMap<String, Names<V>>,
}

/// By hand, so that dropping one is one call.
impl<V: Drop> Drop for Table<V> {
    fn drop(self) {
        let Table { rows } = self;
        drop(rows);
    }
}

impl<V: Drop> Model for Table<V> {
    ghost use Rattle.std.specs.Prelude.{string_bytes};
    ghost use Rattle.std.specs.Coded.{coded_ℕ, coded_list, coded×};
    ghost use Rattle.std.specs.FinMap as map;
    ghost use Rattle.jam_journal.specs.Tables.{Table as Pairs, table_of};

    ghost Value = { Pairs V };

    ghost coded = { map.code (coded× (coded_list coded_ℕ) (coded_list coded_ℕ)) V.code };

    ghost view = { λ a. table_of string_bytes a.rows.entries };
}

/// A row with one value.
fn row_of<V: Drop>(alloc: Global, second: &str, value: V) -> Result<Names<V>, OutOfMemory>
    ensures { IfOk result (λ row. row ≡ map.insert map.empty second.now value) }
{
    let mut row = Names::new(alloc);
    let _ = row.insert(alloc, second, value)?;
    Ok(row)
}

/// Adds a row with one value under a text that has none. After an error the rows are as before.
fn add_row<V: Drop>(
    alloc: Global,
    rows: &mut HashMap<String, Names<V>>,
    first: &str,
    second: &str,
    value: V,
) -> Result<Option<V>, OutOfMemory>
    requires { get_by_text rows.old first.now ≡ None }
    ensures before { IfOk result (λ before. before ≡ None) }
    ensures ok { OnOk result (table_of string_bytes rows.new.entries ≡ map.insert (table_of string_bytes rows.old.entries) (first.now, second.now) value) }
    ensures err { OnErr result (rows.new.entries ≡ rows.old.entries) }
{
    let row = row_of(alloc, second, value)?;
    let key = String::from_str(alloc, first)?;
    let _ = rows.insert(key, row)?;
    Ok(None)
}

/// Gives a pair that has a value another one or none, and tells whether its row then keeps nothing. Takes no memory.
fn put_in_row<V: Drop>(
    rows: &mut HashMap<String, Names<V>>,
    first: &str,
    second: &str,
    value: Option<V>,
) -> bool
    ensures table { table_of string_bytes rows.new.entries ≡ put_back (table_of string_bytes rows.old.entries) (first.now, second.now) value }
    ensures empty { IsTrue result → get_by_text rows.new first.now ≡ Some map.empty }
{
    match rows.get_mut(first) {
        Some(row) => {
            row.put_back(second, value);
            row.keeps_nothing()
        }
        None => false,
    }
}

impl<V: Drop> Table<V> {
    /// The empty table; takes no memory.
    pub fn new(alloc: Global) -> Table<V>
        ensures { result ≡ map.empty }
    {
        Table {
            rows: HashMap::new(alloc),
        }
    }

    /// The value of a pair; takes no memory.
    pub fn get(&self, first: &str, second: &str) -> Option<&V>
        ensures { option_copied result ≡ map.get self.now (first.now, second.now) }
    {
        match self.rows.get(first) {
            Some(row) => row.get(second),
            None => None,
        }
    }

    /// The second texts that have a value with this first text, with their values, in byte order.
    pub fn row(&self, alloc: Global, first: &str) -> Result<Vec<(&String, &V)>, OutOfMemory>
        ensures { IfOk result (λ row. each (λ entry. (string_bytes entry.0.now, entry.1.now)) row.items ≡ map.entries (row_of self.now first.now)) }
    {
        match self.rows.get(first) {
            Some(row) => row.entries(alloc),
            None => Ok(Vec::new(alloc)),
        }
    }

    /// Gives a pair a value, and answers the one before. After an error the table is as before.
    pub fn insert(
        &mut self,
        alloc: Global,
        first: &str,
        second: &str,
        value: V,
    ) -> Result<Option<V>, OutOfMemory>
        ensures before { IfOk result (λ before. before ≡ map.get self.old (first.now, second.now)) }
        ensures ok { OnOk result (self.new ≡ map.insert self.old (first.now, second.now) value) }
        ensures err { OnErr result (self.new ≡ self.old) }
    {
        match self.rows.get_mut(first) {
            Some(row) => row.insert(alloc, second, value),
            None => add_row(alloc, &mut self.rows, first, second, value),
        }
    }

    /// Gives a pair that has a value another one, and answers the one before. A pair without a value gets none. Takes no
    /// memory.
    pub fn replace(&mut self, first: &str, second: &str, value: V) -> Option<V>
        ensures before { result ≡ map.get self.old (first.now, second.now) }
        ensures after { self.new ≡ put_back self.old (first.now, second.now) (Some value) }
    {
        match self.rows.get_mut(first) {
            Some(row) => row.replace(second, value),
            None => None,
        }
    }

    /// Gives a pair that has a value another one or none. A pair without a value gets none. Takes no memory.
    pub fn put_back(&mut self, first: &str, second: &str, value: Option<V>)
        ensures { self.new ≡ put_back self.old (first.now, second.now) value }
    {
        // A row with places for argument lists stays: the next call of its module would make it again.
        if put_in_row(&mut self.rows, first, second, value) {
            drop(self.rows.remove(first));
        }
    }
}
