//! Entries of which none has the path of another.
ghost use Rattle.std.specs.Prelude.{◌≡◌, ◌∷◌, [], filter, fold, OnOk};
ghost use Rattle.b2_virtual.specs.Supplies.{is_library};
ghost use Rattle.b2_virtual.specs.Repeats.{with_entry, HasPaths};

use crate::entry::{Entry, EntryList};
use b2_base::fault::OutOfMemory;
use b2_base::text_map::TextMap;
use std::alloc::Global;

/// Entries in order, each path once, and the set of their paths. After an error the two may differ.
#[derive(Drop)]
pub(crate) struct Distinct {
    pub entries: EntryList,
    pub paths: TextMap<()>,
}

impl Distinct {
    /// No entries; takes no memory.
    #[tactic(auto, using(crate::proofs::RepeatsAreLeftOut::has_paths_none))]
    pub(crate) fn new(alloc: Global) -> Distinct
        ensures entries { result.entries ≡ [] }
        ensures paths { HasPaths result.entries result.paths }
    {
        Distinct {
            entries: EntryList::new(alloc),
            paths: TextMap::new(alloc),
        }
    }

    /// Adds a copy of an entry whose path is not there, at the end.
    fn add(&mut self, entry: &Entry) -> Result<(), OutOfMemory>
        requires { HasPaths self.old.entries self.old.paths }
        ensures entries { OnOk result (self.new.entries ≡ with_entry self.old.entries entry.now) }
        ensures paths { OnOk result (HasPaths self.new.entries self.new.paths) }
    {
        let path = entry.path.as_text();
        let found = self.paths.get(path);
        if found.is_some() {
            return Ok(());
        }
        let copy = entry.copy()?;
        let key = path.copy()?;
        self.entries.push(copy)?;
        let _before = self.paths.insert(key, ())?;
        Ok(())
    }

    /// Adds copies of entries, in order.
    pub(crate) fn add_all(&mut self, entries: &[Entry]) -> Result<(), OutOfMemory>
        requires { HasPaths self.old.entries self.old.paths }
        ensures entries { OnOk result (self.new.entries ≡ fold with_entry self.old.entries entries.now) }
        ensures paths { OnOk result (HasPaths self.new.entries self.new.paths) }
    {
        for entry in entries {
            self.add(entry)?;
        }
        Ok(())
    }

    /// Adds a copy of an entry that is a library and whose path is not there.
    fn add_library(&mut self, entry: &Entry) -> Result<(), OutOfMemory>
        requires { HasPaths self.old.entries self.old.paths }
        ensures entries { OnOk result (self.new.entries ≡ fold with_entry self.old.entries (filter is_library (entry.now ∷ []))) }
        ensures paths { OnOk result (HasPaths self.new.entries self.new.paths) }
    {
        if !entry.is_library() {
            return Ok(());
        }
        self.add(entry)
    }

    /// Adds copies of the libraries among entries, in order.
    pub(crate) fn add_libraries(&mut self, entries: &[Entry]) -> Result<(), OutOfMemory>
        requires { HasPaths self.old.entries self.old.paths }
        ensures entries { OnOk result (self.new.entries ≡ fold with_entry self.old.entries (filter is_library entries.now)) }
        ensures paths { OnOk result (HasPaths self.new.entries self.new.paths) }
    {
        for entry in entries {
            self.add_library(entry)?;
        }
        Ok(())
    }
}
