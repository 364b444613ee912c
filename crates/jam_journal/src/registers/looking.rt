//! Looking at the present values.
ghost use Rattle.std.specs.Prelude.{◌≡◌, ◌==◌};
ghost use Rattle.jam_journal.specs.Sizes.{size_of, capped};
ghost use Rattle.jam_journal.specs.Stacks.{value_at, stamp_at, found};

use super::{Cell, Registers, is_special};
use crate::table::Table;
use b2_base::text::Text;

/// The present value of a name in a module, or the empty list. Takes no memory.
pub fn value_at<'a>(cells: &'a Table<Cell>, owner: &str, name: &str) -> &'a [Text]
    ensures { result.now ≡ value_at cells.now (owner.now, name.now) }
{
    match cells.get(owner, name) {
        Some(cell) => cell.value.as_slice(),
        None => &[],
    }
}

/// The size of the present value of a name in a module. Takes no memory, and no time in proportion to it.
pub fn size_at(cells: &Table<Cell>, owner: &str, name: &str) -> u64
    ensures { result ≡ capped (size_of (value_at cells.now (owner.now, name.now))) }
{
    match cells.get(owner, name) {
        Some(cell) => cell.value.size(),
        None => 0,
    }
}

/// The stamp of a name in a module, 0 where it has no value. Takes no memory.
pub fn stamp_at(cells: &Table<Cell>, owner: &str, name: &str) -> usize
    ensures { result ≡ stamp_at cells.now (owner.now, name.now) }
{
    match cells.get(owner, name) {
        Some(cell) => cell.stamp,
        None => 0,
    }
}

/// What a name stands for. Takes no memory.
pub fn found<'a>(registers: &'a Registers, name: &str) -> &'a [Text]
    ensures { result.now ≡ found registers.now name.now }
{
    if is_special(name) {
        if let Some(owner) = registers.innermost.get(name) {
            return value_at(&registers.cells, owner.as_str(), name);
        }
    }
    value_at(&registers.cells, registers.owner.as_str(), name)
}

/// Whether a name of the present module has a stamp. Takes no memory.
pub fn is_fresh(registers: &Registers, name: &str, stamp: usize) -> bool
    ensures { result ≡ (stamp_at registers.now.cells (registers.now.owner, name.now) == stamp) }
{
    stamp_at(&registers.cells, registers.owner.as_str(), name) == stamp
}
