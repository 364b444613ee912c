//! Changes of a table of lists that are noted and taken back.
ghost use Rattle.std.specs.Prelude.{◌≡◌, [], ◌∷◌, ◌++◌, take, reverse, OnOk, OnErr};
ghost use Rattle.std.specs.Option.{option_map};
ghost use Rattle.std.specs.FinMap as map;
ghost use Rattle.jam_journal.specs.Tables.{put_back};
ghost use Rattle.jam_journal.specs.Lists.{lengthened, before_more, other_noted, more_noted, back_by, undone};

use super::{Before, ListChange};
use crate::name::Name;
use crate::sized_list::{SizedList, copies, joined};
use crate::table::Table;
use b2_base::fault::OutOfMemory;
use b2_base::text::Text;
use std::alloc::Global;

/// Gives a pair a list, and notes what it replaced. After an error nothing has changed.
pub fn insert_noted(
    alloc: Global,
    table: &mut Table<SizedList>,
    changes: &mut Vec<ListChange>,
    first: &str,
    second: &str,
    list: SizedList,
) -> Result<(), OutOfMemory>
    ensures table { OnOk result (table.new ≡ map.insert table.old (first.now, second.now) list) }
    ensures noted { OnOk result (changes.new.items ≡ changes.old.items ++ other_noted table.old (first.now, second.now) ∷ []) }
    ensures same_table { OnErr result (table.new ≡ table.old) }
    ensures nothing_noted { OnErr result (changes.new.items ≡ changes.old.items) }
{
    let first_name = Name::new(alloc, first)?;
    let second_name = Name::new(alloc, second)?;
    changes.reserve(1)?;
    let before = table.insert(alloc, first, second, list)?;
    changes.push_reserved(ListChange {
        first: first_name,
        second: second_name,
        before: Before::Other(before),
    });
    Ok(())
}

/// Adds texts to the list of a pair; where it has none, it gets the list of them. Copies nothing that is there. After an error
/// nothing has changed.
pub fn append(
    alloc: Global,
    table: &mut Table<SizedList>,
    first: &str,
    second: &str,
    texts: &[Text],
) -> Result<(), OutOfMemory>
    ensures ok { OnOk result (table.new ≡ lengthened table.old (first.now, second.now) texts.now) }
    ensures err { OnErr result (table.new ≡ table.old) }
{
    let more = copies(alloc, texts)?;
    match table.replace(first, second, SizedList::new(alloc)) {
        Some(list) => {
            let (list, result) = joined(list, more);
            let _ = table.replace(first, second, list);
            result
        }
        None => {
            let _ = table.insert(alloc, first, second, SizedList::from_vec(more))?;
            Ok(())
        }
    }
}

/// What is noted where texts are added to the list of a pair. Takes no memory.
fn before_more(table: &Table<SizedList>, first: &str, second: &str) -> Before
    ensures { result ≡ before_more (map.get table.now (first.now, second.now)) }
{
    match table.get(first, second) {
        Some(list) => Before::First(list.as_slice().len()),
        None => Before::Other(None),
    }
}

/// Adds texts to the list of a pair, and notes how long it was. After an error nothing has changed.
pub fn append_noted(
    alloc: Global,
    table: &mut Table<SizedList>,
    changes: &mut Vec<ListChange>,
    first: &str,
    second: &str,
    texts: &[Text],
) -> Result<(), OutOfMemory>
    ensures table { OnOk result (table.new ≡ lengthened table.old (first.now, second.now) texts.now) }
    ensures noted { OnOk result (changes.new.items ≡ changes.old.items ++ more_noted table.old (first.now, second.now) ∷ []) }
    ensures same_table { OnErr result (table.new ≡ table.old) }
    ensures nothing_noted { OnErr result (changes.new.items ≡ changes.old.items) }
{
    let change = ListChange {
        first: Name::new(alloc, first)?,
        second: Name::new(alloc, second)?,
        before: before_more(table, first, second),
    };
    changes.reserve(1)?;
    append(alloc, table, first, second, texts)?;
    changes.push_reserved(change);
    Ok(())
}

/// Leaves so many texts of the list of a pair, the first ones. Takes no memory.
fn shorten(alloc: Global, table: &mut Table<SizedList>, first: &str, second: &str, count: usize)
    ensures { table.new ≡ put_back table.old (first.now, second.now) (option_map (take count) (map.get table.old (first.now, second.now))) }
{
    if let Some(list) = table.replace(first, second, SizedList::new(alloc)) {
        let _ = table.replace(first, second, list.first(count));
    }
}

/// Takes a change back. Takes no memory.
fn take_back(alloc: Global, table: &mut Table<SizedList>, change: ListChange)
    ensures { table.new ≡ back_by change table.old }
{
    let ListChange {
        first,
        second,
        before,
    } = change;
    match before {
        Before::Other(before) => table.put_back(first.as_str(), second.as_str(), before),
        Before::First(count) => shorten(alloc, table, first.as_str(), second.as_str(), count),
    }
}

/// Takes all changes back, the newest first. Takes no memory.
pub fn undo(alloc: Global, table: &mut Table<SizedList>, changes: &mut Vec<ListChange>)
    ensures table { table.new ≡ undone (reverse changes.old.items) table.old }
    ensures changes { changes.new.items ≡ [] }
{
    while let Some(change) = changes.pop() {
        take_back(alloc, table, change);
    }
}
