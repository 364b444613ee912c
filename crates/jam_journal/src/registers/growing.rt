//! Values that grow.
ghost use Rattle.std.specs.Prelude.{◌≡◌, ◌++◌, IfOk, OnOk, OnErr};
ghost use Rattle.jam_journal.specs.Stacks.{value_at, stamp_at, put_cell, grown};

use super::opening::put_cell;
use super::{Cell, Registers, looking};
use crate::sized_list::{SizedList, copies, joined};
use b2_base::fault::OutOfMemory;
use b2_base::text::Text;
use std::alloc::Global;

/// The present value of a name of the present module with more texts.
pub fn longer(
    alloc: Global,
    registers: &Registers,
    name: &str,
    texts: &[Text],
) -> Result<SizedList, OutOfMemory>
    ensures { IfOk result (λ made. made ≡ value_at registers.now.cells (registers.now.owner, name.now) ++ texts.now) }
{
    let value = looking::value_at(&registers.cells, registers.owner.as_str(), name);
    let mut made = copies(alloc, value)?;
    let mut more = copies(alloc, texts)?;
    made.append(&mut more)?;
    Ok(SizedList::from_vec(made))
}

/// Adds texts to the value of a name of the present module, whose stamp this is. Copies nothing that is there. After an error
/// nothing has changed.
pub fn extend(
    alloc: Global,
    registers: &mut Registers,
    name: &str,
    stamp: usize,
    texts: &[Text],
) -> Result<(), OutOfMemory>
    requires { stamp_at registers.old.cells (registers.old.owner, name.now) ≡ stamp }
    ensures ok { OnOk result (registers.new ≡ put_cell registers.old (registers.old.owner, name.now) (grown registers.old name.now texts.now stamp)) }
    ensures err { OnErr result (registers.new ≡ registers.old) }
{
    let more = copies(alloc, texts)?;
    let empty = Cell {
        value: SizedList::new(alloc),
        stamp,
    };
    match registers
        .cells
        .replace(registers.owner.as_str(), name, empty)
    {
        Some(cell) => {
            let Cell { value, stamp } = cell;
            let (value, result) = joined(value, more);
            let _ = registers
                .cells
                .replace(registers.owner.as_str(), name, Cell { value, stamp });
            result
        }
        None => {
            let value = SizedList::from_vec(more);
            put_cell(alloc, registers, name, Cell { value, stamp })
        }
    }
}
