//! Taking entries back.
ghost use Rattle.std.specs.Prelude.{◌≡◌, [], reverse};
ghost use Rattle.std.specs.List.{list_any};
ghost use Rattle.jam_journal.specs.Stacks.{step_back, closed, left_by, opens};

use super::{Registers, Scope, is_special};

/// Whether an entry opens a frame.
fn opens(entry: &Scope) -> bool
    ensures { result ≡ opens entry.now }
{
    matches!(entry, Scope::Opened { .. } | Scope::Called { .. })
}

/// Whether some entry opens a frame. Takes no memory.
pub fn opens_frame(entries: &[Scope]) -> bool
    ensures { result ≡ list_any opens entries.now }
{
    entries.iter().any(|entry| opens(entry))
}

/// Takes an entry back. Takes no memory.
fn step_back(registers: &mut Registers, entry: Scope)
    ensures { registers.new ≡ step_back entry registers.old }
{
    match entry {
        Scope::Opened { owner } => {
            registers.owner = owner;
        }
        Scope::Called { owner, caller } => {
            registers.owner = owner;
            registers.caller = caller;
        }
        Scope::Bound {
            name,
            before,
            outer,
        } => {
            registers
                .cells
                .put_back(registers.owner.as_str(), name.as_str(), before);
            if is_special(name.as_str()) {
                registers.innermost.put_back(name.as_str(), outer);
            }
        }
    }
}

/// Takes all entries back, the newest first. Takes no memory.
pub fn close(registers: &mut Registers, entries: &mut Vec<Scope>)
    ensures registers { registers.new ≡ closed (reverse entries.old.items) registers.old }
    ensures entries { entries.new.items ≡ [] }
{
    while let Some(entry) = entries.pop() {
        step_back(registers, entry);
    }
}

/// Takes the entries of the newest frame back. Takes no memory.
pub fn close_frame(registers: &mut Registers, entries: &mut Vec<Scope>)
    ensures { (registers.new, reverse entries.new.items) ≡ left_by (reverse entries.old.items) registers.old }
{
    while let Some(entry) = entries.pop() {
        let ends = matches!(entry, Scope::Opened { .. } | Scope::Called { .. });
        step_back(registers, entry);
        if ends {
            return;
        }
    }
}
