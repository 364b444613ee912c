//! Opening frames and binding names.
ghost use Rattle.std.specs.Prelude.{◌≡◌, [], ◌∷◌, ◌++◌, IfOk, OnOk, OnErr};
ghost use Rattle.jam_journal.specs.declared.registers.Scope.TheVariants.{Opened, Called};
ghost use Rattle.jam_journal.specs.Stacks.{in_frame, in_call, with_bound, bound_entry, noted, outer_at, put_cell, noted_unless};

use super::{Cell, Registers, Scope, is_special};
use crate::name::Name;
use crate::past::{Replacement, change};
use b2_base::fault::OutOfMemory;
use std::alloc::Global;
use std::mem;

/// Opens a frame. After an error nothing has changed.
pub fn open_frame(
    alloc: Global,
    registers: &mut Registers,
    entries: &mut Vec<Scope>,
    owner: &str,
) -> Result<(), OutOfMemory>
    ensures registers { OnOk result (registers.new ≡ in_frame owner.now registers.old) }
    ensures entries { OnOk result (entries.new.items ≡ entries.old.items ++ Opened registers.old.owner ∷ []) }
    ensures same_registers { OnErr result (registers.new ≡ registers.old) }
    ensures same_entries { OnErr result (entries.new.items ≡ entries.old.items) }
{
    let owner = Name::new(alloc, owner)?;
    entries.reserve(1)?;
    let owner = mem::replace(&mut registers.owner, owner);
    entries.push_reserved(Scope::Opened { owner });
    Ok(())
}

/// Room for the frame of a call and what nearly every call binds in it.
const ROOM: usize = 16;

/// Opens the frame of a call. After an error nothing has changed.
pub fn open_call(
    alloc: Global,
    registers: &mut Registers,
    entries: &mut Vec<Scope>,
    owner: &str,
) -> Result<(), OutOfMemory>
    ensures registers { OnOk result (registers.new ≡ in_call owner.now registers.old) }
    ensures entries { OnOk result (entries.new.items ≡ entries.old.items ++ Called registers.old.owner registers.old.caller ∷ []) }
    ensures same_registers { OnErr result (registers.new ≡ registers.old) }
    ensures same_entries { OnErr result (entries.new.items ≡ entries.old.items) }
{
    let owner = Name::new(alloc, owner)?;
    let caller = registers.owner.share()?;
    entries.reserve(ROOM)?;
    let owner = mem::replace(&mut registers.owner, owner);
    let caller = mem::replace(&mut registers.caller, caller);
    entries.push_reserved(Scope::Called { owner, caller });
    Ok(())
}

/// Notes the present module as that of the innermost frame that binds an argument list, and answers the one before.
fn note_innermost(
    alloc: Global,
    registers: &mut Registers,
    name: &str,
) -> Result<Option<Name>, OutOfMemory>
    ensures outer { IfOk result (λ outer. outer ≡ outer_at registers.old.innermost name.now) }
    ensures ok { OnOk result (registers.new ≡ record registers.old { innermost = noted registers.old.innermost name.now registers.old.owner }) }
    ensures err { OnErr result (registers.new ≡ registers.old) }
{
    if !is_special(name) {
        return Ok(None);
    }
    let owner = registers.owner.share()?;
    registers.innermost.insert(alloc, name, owner)
}

/// Binds a name in the newest frame. After an error nothing has changed.
pub fn bind(
    alloc: Global,
    registers: &mut Registers,
    entries: &mut Vec<Scope>,
    name: &str,
    cell: Cell,
) -> Result<(), OutOfMemory>
    ensures registers { OnOk result (registers.new ≡ with_bound name.now cell registers.old) }
    ensures entries { OnOk result (entries.new.items ≡ entries.old.items ++ bound_entry name.now registers.old ∷ []) }
    ensures same_registers { OnErr result (registers.new ≡ registers.old) }
    ensures same_entries { OnErr result (entries.new.items ≡ entries.old.items) }
{
    let key = Name::new(alloc, name)?;
    entries.reserve(1)?;
    let before = registers
        .cells
        .insert(alloc, registers.owner.as_str(), name, cell)?;
    match note_innermost(alloc, registers, name) {
        Ok(outer) => {
            entries.push_reserved(Scope::Bound {
                name: key,
                before,
                outer,
            });
            Ok(())
        }
        Err(fault) => {
            registers
                .cells
                .put_back(registers.owner.as_str(), name, before);
            Err(fault)
        }
    }
}

/// Gives a name of the present module another value. After an error nothing has changed.
pub fn put_cell(
    alloc: Global,
    registers: &mut Registers,
    name: &str,
    cell: Cell,
) -> Result<(), OutOfMemory>
    ensures ok { OnOk result (registers.new ≡ put_cell registers.old (registers.old.owner, name.now) cell) }
    ensures err { OnErr result (registers.new ≡ registers.old) }
{
    if registers
        .cells
        .get(registers.owner.as_str(), name)
        .is_some()
    {
        let _ = registers
            .cells
            .replace(registers.owner.as_str(), name, cell);
        return Ok(());
    }
    let _ = registers
        .cells
        .insert(alloc, registers.owner.as_str(), name, cell)?;
    Ok(())
}

/// Gives a name of the present module another value, and notes what it replaced unless the cell is fresh. After an error
/// nothing has changed.
pub fn set(
    alloc: Global,
    registers: &mut Registers,
    changes: &mut Vec<Replacement<Cell>>,
    is_fresh: bool,
    name: &str,
    cell: Cell,
) -> Result<(), OutOfMemory>
    ensures registers { OnOk result (registers.new ≡ put_cell registers.old (registers.old.owner, name.now) cell) }
    ensures changes { OnOk result (changes.new.items ≡ noted_unless is_fresh registers.old name.now changes.old.items) }
    ensures same_registers { OnErr result (registers.new ≡ registers.old) }
    ensures same_changes { OnErr result (changes.new.items ≡ changes.old.items) }
{
    if is_fresh {
        return put_cell(alloc, registers, name, cell);
    }
    change::insert_noted(
        alloc,
        &mut registers.cells,
        changes,
        registers.owner.as_str(),
        name,
        cell,
    )?;
    Ok(())
}
