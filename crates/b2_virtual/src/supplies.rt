//! What several files and main targets supply together.
ghost use Rattle.std.specs.Prelude.{◌≡◌, ◌++◌, fold, filter, IfOk, OnOk};
ghost use Rattle.b2_virtual.specs.Supplies.{is_library, entries_of, carried_of, libraries_of, header_directories};
ghost use Rattle.b2_virtual.specs.Repeats.{with_entry, HasPaths};

use crate::directory::directory_of;
use crate::distinct::Distinct;
use crate::entry::{Entry, EntryList, Supply, push_copies};
use b2_base::fault::OutOfMemory;
use b2_base::text::Text;
use b2_props::pair_list::PairList;
use std::alloc::Global;

/// The entries of supplies, in order.
pub fn entries_of(alloc: Global, supplies: &[Supply]) -> Result<EntryList, OutOfMemory>
    ensures { IfOk result (λ made. made ≡ entries_of supplies.now) }
{
    let mut made = EntryList::new(alloc);
    for supply in supplies {
        push_copies(&mut made, supply.entries.as_slice())?;
    }
    Ok(made)
}

/// The libraries that supplies carry on, in order, each path at its first place alone.
pub fn carried_of(alloc: Global, supplies: &[Supply]) -> Result<EntryList, OutOfMemory>
    ensures { IfOk result (λ made. made ≡ carried_of supplies.now) }
{
    let mut made = Distinct::new(alloc);
    for supply in supplies {
        made.add_all(supply.carried.as_slice())?;
    }
    Ok(made.entries)
}

fn add_supply(made: &mut Distinct, supply: &Supply) -> Result<(), OutOfMemory>
    requires { HasPaths made.old.entries made.old.paths }
    ensures entries { OnOk result (made.new.entries ≡ fold with_entry made.old.entries (filter is_library supply.now.entries ++ supply.now.carried)) }
    ensures paths { OnOk result (HasPaths made.new.entries made.new.paths) }
{
    made.add_libraries(supply.entries.as_slice())?;
    made.add_all(supply.carried.as_slice())
}

/// The libraries of supplies: of each its entries that are libraries, then those that it carries on, in order, each path at
/// its first place alone.
pub fn libraries_of(alloc: Global, supplies: &[Supply]) -> Result<EntryList, OutOfMemory>
    ensures { IfOk result (λ made. made ≡ libraries_of supplies.now) }
{
    let mut made = Distinct::new(alloc);
    for supply in supplies {
        add_supply(&mut made, supply)?;
    }
    Ok(made.entries)
}

/// The directories of the headers that steps make, as properties `<include>`, in order.
pub fn header_directories(alloc: Global, entries: &[Entry]) -> Result<PairList, OutOfMemory>
    ensures { IfOk result (λ made. made ≡ header_directories entries.now) }
{
    let mut made = PairList::new(alloc);
    for entry in entries {
        if entry.is_made && entry.is_header() {
            let dir = directory_of(alloc, &entry.path)?;
            made.push(Text::new(alloc, "include")?, dir.as_text().copy()?)?;
        }
    }
    Ok(made)
}
