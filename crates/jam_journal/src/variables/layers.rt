//! The frames and bindings before marks.
ghost use Rattle.std.specs.Prelude.{OnOk};
ghost use Rattle.jam_journal.specs.Stacks.{entries_of, unset_by, AreNoted};
ghost use Rattle.jam_journal.specs.Layers.{layers_of};

use super::Layer;
use crate::names::Names;
use crate::registers::unset;
use b2_base::fault::OutOfMemory;
use std::alloc::Global;

/// Notes the names that the entries of layers bind in a module where nothing stood; the newest layer stands last.
pub(super) fn note_unset(
    alloc: Global,
    layers: &[Layer],
    owner: &str,
    home: &str,
    unset: &mut Names<()>,
) -> Result<(), OutOfMemory>
    ensures { OnOk result (AreNoted unset.old unset.new (unset_by home.now owner.now (entries_of (layers_of layers.now)))) }
{
    let mut owner = owner;
    let mut left = layers;
    'layers: while let Some((newest, older)) = left.split_last() {
        owner = unset::note_unset(alloc, newest.entries.as_slice(), owner, home, unset)?;
        left = older;
    }
    Ok(())
}
