//! Changes of a table that are noted and taken back.
ghost use Rattle.std.specs.Prelude.{◌≡◌, [], ◌∷◌, ◌++◌, reverse, OnOk, OnErr};
ghost use Rattle.std.specs.FinMap as map;
ghost use Rattle.jam_journal.specs.Pasts.{noted_at, undone};

use super::Replacement;
use crate::name::Name;
use crate::table::Table;
use b2_base::fault::OutOfMemory;
use std::alloc::Global;

/// Gives a pair a value, and notes what it replaced. After an error nothing has changed.
pub fn insert_noted<V: Drop>(
    alloc: Global,
    table: &mut Table<V>,
    changes: &mut Vec<Replacement<V>>,
    first: &str,
    second: &str,
    value: V,
) -> Result<(), OutOfMemory>
    ensures table { OnOk result (table.new ≡ map.insert table.old (first.now, second.now) value) }
    ensures noted { OnOk result (changes.new.items ≡ changes.old.items ++ noted_at table.old (first.now, second.now) ∷ []) }
    ensures same_table { OnErr result (table.new ≡ table.old) }
    ensures nothing_noted { OnErr result (changes.new.items ≡ changes.old.items) }
{
    let first_name = Name::new(alloc, first)?;
    let second_name = Name::new(alloc, second)?;
    changes.reserve(1)?;
    let before = table.insert(alloc, first, second, value)?;
    changes.push_reserved(Replacement {
        first: first_name,
        second: second_name,
        before,
    });
    Ok(())
}

/// Takes all changes back, the newest first. Takes no memory.
pub fn undo<V: Drop>(table: &mut Table<V>, changes: &mut Vec<Replacement<V>>)
    ensures table { table.new ≡ undone (reverse changes.old.items) table.old }
    ensures changes { changes.new.items ≡ [] }
{
    while let Some(change) = changes.pop() {
        let Replacement {
            first,
            second,
            before,
        } = change;
        table.put_back(first.as_str(), second.as_str(), before);
    }
}
