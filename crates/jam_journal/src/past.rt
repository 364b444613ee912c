//! A table whose past can be marked.
ghost use Rattle.std.specs.Prelude.{◌≡◌, [], reverse, IfOk, OnOk, OnErr};
ghost use Rattle.std.specs.Option.{option_copied};
ghost use Rattle.std.specs.FinMap as map;

use crate::name::Name;
use crate::table::Table;
use b2_base::fault::OutOfMemory;
use std::alloc::Global;
use std::marker::Model;
use std::mem;

pub mod change;

/// What a change replaced at a pair of texts.
#[derive(Drop)]
pub struct Replacement<V: Drop> {
    /// The first text of the pair.
    pub first: Name,
    /// The second one.
    pub second: Name,
    /// The value before, if there was one.
    pub before: Option<V>,
}

/// A table, and what stood in it at marks. It is seen as the present table with those of the marks, the newest first; it
/// keeps the present table, and what was replaced since each mark. Without a mark nothing is noted.
pub struct Past<V: Drop> {
    alloc: Global,
    table: Table<V>,
    /// What was replaced since the newest mark, the newest last.
    changes: Vec<Replacement<V>>,
    /// What had been replaced when each mark was made, since the mark before it, the newest last.
    older: Vec<Vec<Replacement<V>>>,
}

impl<V: Drop> Drop for Past<V> {
    fn drop(self) {
        let Past {
            alloc: _,
            table,
            changes,
            older,
        } = self;
        drop(table);
        drop(changes);
        drop(older);
    }
}

impl<V: Drop> Model for Past<V> {
    ghost use Rattle.std.specs.Prelude.{reverse, map as each};
    ghost use Rattle.std.specs.Coded.{coded_list, coded×};
    ghost use Rattle.jam_journal.specs.Marks.{Marked};
    ghost use Rattle.jam_journal.specs.ScopeCodes.{table_code};
    ghost use Rattle.jam_journal.specs.Tables.{Table as Pairs};
    ghost use Rattle.jam_journal.specs.Pasts.{tables_by};

    ghost Value = { Marked (Pairs V) };

    ghost coded = { coded× (table_code V.code) (coded_list (table_code V.code)) };

    ghost view = { λ p. (p.table, tables_by p.table (reverse p.changes.items) (each (λ v. reverse v.items) (reverse p.older.items))) };
}

impl<V: Drop> Past<V> {
    ghost use Rattle.std.specs.Prelude.{◌≡◌, [], map as each, string_bytes, IfOk, OnOk, OnErr};
    ghost use Rattle.std.specs.Option.{option_copied};
    ghost use Rattle.std.specs.FinMap as map;
    ghost use Rattle.jam_journal.specs.Marks.{rolled, marked};
    ghost use Rattle.jam_journal.specs.Tables.{row_of};

    /// The empty table without a mark; takes no memory.
    pub fn new(alloc: Global) -> Past<V>
        ensures { result ≡ (map.empty, []) }
    {
        Past {
            alloc,
            table: Table::new(alloc),
            changes: Vec::new(alloc),
            older: Vec::new(alloc),
        }
    }

    /// The present value of a pair; takes no memory.
    pub fn get(&self, first: &str, second: &str) -> Option<&V>
        ensures { option_copied result ≡ map.get self.now.0 (first.now, second.now) }
    {
        self.table.get(first, second)
    }

    /// What stands now under a first text: the second texts with their values, in byte order.
    pub fn row(&self, first: &str) -> Result<Vec<(&String, &V)>, OutOfMemory>
        ensures { IfOk result (λ row. each (λ entry. (string_bytes entry.0.now, entry.1.now)) row.items ≡ map.entries (row_of self.now.0 first.now)) }
    {
        self.table.row(self.alloc, first)
    }

    /// Gives a pair a value. After an error the table is as before.
    pub fn insert(&mut self, first: &str, second: &str, value: V) -> Result<(), OutOfMemory>
        ensures ok { OnOk result (self.new ≡ (map.insert self.old.0 (first.now, second.now) value, self.old.1)) }
        ensures err { OnErr result (self.new ≡ self.old) }
    {
        if !self.older.is_empty() {
            return change::insert_noted(
                self.alloc,
                &mut self.table,
                &mut self.changes,
                first,
                second,
                value,
            );
        }
        let _ = self.table.insert(self.alloc, first, second, value)?;
        Ok(())
    }

    /// Marks the present table. Copies nothing of it. After an error the table is as before.
    pub fn mark(&mut self) -> Result<(), OutOfMemory>
        ensures ok { OnOk result (self.new ≡ marked self.old) }
        ensures err { OnErr result (self.new ≡ self.old) }
    {
        self.older.reserve(1)?;
        let changes = mem::replace(&mut self.changes, Vec::new(self.alloc));
        self.older.push_reserved(changes);
        Ok(())
    }

    /// Goes back to the table of the newest mark, and uses that mark up; without a mark nothing changes. Takes no memory.
    pub fn roll_back(&mut self)
        ensures { self.new ≡ rolled self.old }
    {
        if let Some(older) = self.older.pop() {
            change::undo(&mut self.table, &mut self.changes);
            self.changes = older;
        }
    }
}
