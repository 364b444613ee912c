//! A table of lists whose past can be marked, and whose lists grow in place.
use crate::name::Name;
use crate::sized_list::SizedList;
use crate::table::Table;
use b2_base::fault::OutOfMemory;
use b2_base::text::Text;
use std::alloc::Global;
use std::marker::Model;
use std::mem;

mod change;

/// What stood at a pair of texts before a change.
#[derive(Drop)]
pub enum Before {
    /// Another list, or none.
    Other(Option<SizedList>),
    /// So many of the texts of the list that stands there now, the first ones.
    First(usize),
}

/// A change at a pair of texts.
#[derive(Drop)]
pub struct ListChange {
    /// The first text of the pair.
    pub first: Name,
    /// The second one.
    pub second: Name,
    /// What the list was before, whole or by its length.
    pub before: Before,
}

/// A table of lists, and what stood in it at marks. It is seen as the present table with those of the marks, the newest first; it
/// keeps the present table, and what changed since each mark. Without a mark nothing is noted.
pub struct PastLists {
    alloc: Global,
    table: Table<SizedList>,
    /// What changed since the newest mark, the newest last.
    changes: Vec<ListChange>,
    /// What had changed when each mark was made, since the mark before it, the newest last.
    older: Vec<Vec<ListChange>>,
}

impl Drop for PastLists {
    fn drop(self) {
        let PastLists {
            alloc: _,
            table,
            changes,
            older,
        } = self;
        drop(table);
        drop(changes);
        drop(older);
    }
}

impl Model for PastLists {
    ghost use Rattle.std.specs.Prelude.{reverse, map as each};
    ghost use Rattle.std.specs.Coded.{coded_list, coded×};
    ghost use Rattle.jam_journal.specs.Marks.{Marked};
    ghost use Rattle.jam_journal.specs.ScopeCodes.{value_code, table_code};
    ghost use Rattle.jam_journal.specs.Scopes.{Value as Texts};
    ghost use Rattle.jam_journal.specs.Tables.{Table as Pairs};
    ghost use Rattle.jam_journal.specs.Lists.{tables_by};

    ghost Value = { Marked (Pairs Texts) };

    ghost coded = { coded× (table_code value_code) (coded_list (table_code value_code)) };

    ghost view = { λ p. (p.table, tables_by p.table (reverse p.changes.items) (each (λ v. reverse v.items) (reverse p.older.items))) };
}

impl PastLists {
    ghost use Rattle.std.specs.Prelude.{◌≡◌, [], map as each, string_bytes, IfOk, OnOk, OnErr};
    ghost use Rattle.std.specs.Option.{option_copied};
    ghost use Rattle.std.specs.FinMap as map;
    ghost use Rattle.jam_journal.specs.Marks.{rolled, marked};
    ghost use Rattle.jam_journal.specs.Lists.{lengthened};
    ghost use Rattle.jam_journal.specs.Tables.{row_of};

    /// The empty table without a mark; takes no memory.
    pub fn new(alloc: Global) -> PastLists
        ensures { result ≡ (map.empty, []) }
    {
        PastLists {
            alloc,
            table: Table::new(alloc),
            changes: Vec::new(alloc),
            older: Vec::new(alloc),
        }
    }

    /// The present list of a pair; takes no memory.
    pub fn get(&self, first: &str, second: &str) -> Option<&SizedList>
        ensures { option_copied result ≡ map.get self.now.0 (first.now, second.now) }
    {
        self.table.get(first, second)
    }

    /// What stands now under a first text: the second texts with their lists, in byte order.
    pub fn row(&self, first: &str) -> Result<Vec<(&String, &SizedList)>, OutOfMemory>
        ensures { IfOk result (λ row. each (λ entry. (string_bytes entry.0.now, entry.1.now)) row.items ≡ map.entries (row_of self.now.0 first.now)) }
    {
        self.table.row(self.alloc, first)
    }

    /// Gives a pair a list. After an error the table is as before.
    pub fn insert(&mut self, first: &str, second: &str, list: SizedList) -> Result<(), OutOfMemory>
        ensures ok { OnOk result (self.new ≡ (map.insert self.old.0 (first.now, second.now) list, self.old.1)) }
        ensures err { OnErr result (self.new ≡ self.old) }
    {
        if !self.older.is_empty() {
            return change::insert_noted(
                self.alloc,
                &mut self.table,
                &mut self.changes,
                first,
                second,
                list,
            );
        }
        let _ = self.table.insert(self.alloc, first, second, list)?;
        Ok(())
    }

    /// Adds texts to the list of a pair; where it has none, it gets the list of them. Copies nothing that is there. After an error
    /// the table is as before.
    pub fn append(&mut self, first: &str, second: &str, texts: &[Text]) -> Result<(), OutOfMemory>
        ensures ok { OnOk result (self.new ≡ (lengthened self.old.0 (first.now, second.now) texts.now, self.old.1)) }
        ensures err { OnErr result (self.new ≡ self.old) }
    {
        if !self.older.is_empty() {
            return change::append_noted(
                self.alloc,
                &mut self.table,
                &mut self.changes,
                first,
                second,
                texts,
            );
        }
        change::append(self.alloc, &mut self.table, first, second, texts)
    }

    /// Marks the present table. Copies nothing of it. After an error the table is as before.
    pub fn mark(&mut self) -> Result<(), OutOfMemory>
        ensures ok { OnOk result (self.new ≡ marked self.old) }
        ensures err { OnErr result (self.new ≡ self.old) }
    {
        self.older.reserve(1)?;
        let changes = mem::replace(&mut self.changes, Vec::new(self.alloc));
        self.older.push_reserved(changes);
        Ok(())
    }

    /// Goes back to the table of the newest mark, and uses that mark up; without a mark nothing changes. Takes no memory.
    pub fn roll_back(&mut self)
        ensures { self.new ≡ rolled self.old }
    {
        if let Some(older) = self.older.pop() {
            change::undo(self.alloc, &mut self.table, &mut self.changes);
            self.changes = older;
        }
    }
}
