//! What was generated before, and what an open target takes of it.
ghost use Rattle.std.specs.Prelude.{◌≡◌, ◌<◌, Some, None, length, reverse, IfOk, IfErr, IfSome, IsTrue, OnOk};
ghost use Rattle.b2_generate.specs.OpenTargets.{conflict};
ghost use Rattle.b2_generate.specs.Nodes.{entry_in};
ghost use Rattle.b2_generate.specs.Machine.{IsKept, standing_of};
ghost use Rattle.b2_generate.specs.Opening.{IsConflict};
ghost use Rattle.b2_generate.specs.Remembered.{IsAskedAt};
ghost use Rattle.b2_generate.specs.Taking.{IsTaken, Notes};

use crate::completing::note_first;
use crate::fault::GenFault;
use crate::frame::Frame;
use crate::name_table::NameTable;
use crate::node::Node;
use b2_alternatives::conflict::Conflict;
use b2_base::fault::OutOfMemory;
use b2_props::props::Props;
use b2_references::index::Index;
use b2_references::name::TargetName;

/// Whether a node is of a main target and was asked for with a set; takes no memory.
fn was_asked(node: &Node, name: &TargetName, asked: &Props) -> bool
    ensures { IsTrue result → (node.now.name ≡ name.now) × (node.now.asked ≡ asked.now) }
{
    node.name.equals(name) && node.asked.equals(asked)
}

/// A place that stands before another one.
fn before(place: usize, previous: Option<usize>) -> Option<usize>
    ensures { IfSome result (λ found. found < place) }
{
    match previous {
        Some(previous) if previous < place => Some(previous),
        _ => None,
    }
}

/// The place of a node that is of a main target and was asked for with a set. Looks at those of this main target, the newest first;
/// takes no memory.
pub(crate) fn find(
    nodes: &[Node],
    newest: &NameTable<usize>,
    name: &TargetName,
    asked: &Props,
) -> Option<usize>
    ensures { IfSome result (λ place. IsAskedAt (reverse nodes.now) place name.now asked.now) }
{
    let mut next = newest.get(name).copied();
    'nodes: while let Some(place) = next {
        match nodes.get(place) {
            None => return None,
            Some(node) => {
                if was_asked(node, name, asked) {
                    return Some(place);
                }
                next = before(place, node.previous);
            }
        }
    }
    None
}

fn conflict_fault<F: Drop>(
    index: &Index<'_>,
    name: &TargetName,
    found: Conflict,
) -> Result<GenFault<F>, OutOfMemory>
    ensures { IfOk result (λ fault. IsConflict index.now name.now (Some found) fault) }
{
    Ok(GenFault::UsageConflict {
        target: index.target_text(name.project(), name.name())?,
        feature: found.feature,
        first: found.first,
        second: found.second,
    })
}

/// Notes a node that was generated for an open target, under its name too.
fn note(frame: &mut Frame<'_>, name: &TargetName, place: usize) -> Result<(), OutOfMemory>
    ensures notes { OnOk result (Notes name.now place frame.old frame.new) }
    ensures name { frame.new.name ≡ frame.old.name }
{
    let _first = note_first(&mut frame.places, name, place)?;
    frame.done.push(place)
}

/// An open target takes the node at a place, which was generated for it: its usage requirements must go with those that were met
/// before, and refine the set.
pub(crate) fn take<F: Drop>(
    index: &Index<'_>,
    nodes: &[Node],
    frame: &mut Frame<'_>,
    place: usize,
) -> Result<(), GenFault<F>>
    requires there { place < length nodes.now }
    requires kept { IsKept (reverse nodes.now) index.now frame.old }
    ensures taken { OnOk result (IsTaken index.now (reverse nodes.now) place frame.old frame.new) }
    ensures clash { IfErr result (IsConflict index.now frame.old.name (conflict index.now (standing_of (reverse nodes.now) frame.old) (entry_in (reverse nodes.now) place).1)) }
    ensures name { frame.new.name ≡ frame.old.name }
{
    let node = &nodes[place];
    match frame.needs.add(index, &node.name, &node.usage)? {
        Some(found) => Err(conflict_fault(index, &frame.name, found)?),
        None => {
            note(frame, &node.name, place)?;
            Ok(())
        }
    }
}
