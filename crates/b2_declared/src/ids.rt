//! The ids of projects.
ghost use Rattle.std.specs.Prelude.{◌≡◌, [], OnOk, OnErr};
ghost use Rattle.std.specs.Option.{option_copied};
ghost use Rattle.b2_declared.specs.Gathering.{dir_of, with_id};

use b2_base::fault::OutOfMemory;
use b2_base::path::Path;
use b2_base::text::Text;
use indexmap::IndexMap;
use std::alloc::Global;
use std::marker::Model;

/// Ids in order, each with the directory that it stands for, seen as their list. No id stands twice.
pub struct Ids {
    alloc: Global,
    dirs: IndexMap<String, Path>,
}

/// By hand, so that dropping one is one call.
impl Drop for Ids {
    fn drop(self) {
        let Ids { alloc: _, dirs } = self;
        drop(dirs);
    }
}

impl Model for Ids {
    ghost use Rattle.std.specs.Prelude.{ℕ, List, map, string_bytes};

    ghost Value = { List (List ℕ × List ℕ) };

    ghost view = { λ t. map (λ e. (string_bytes e.0, e.1)) t.dirs.entries };
}

impl Ids {
    /// No ids; takes no memory.
    pub(crate) fn new(alloc: Global) -> Ids
        ensures { result ≡ [] }
    {
        Ids {
            alloc,
            dirs: IndexMap::new(alloc),
        }
    }

    /// The directory of an id; takes no memory.
    pub fn dir_of(&self, id: &str) -> Option<&Path>
        ensures { option_copied result ≡ dir_of self.now id.now }
    {
        self.dirs.get(id)
    }

    /// Gives an id its directory; one that has a directory keeps it. After an error nothing has changed.
    pub(crate) fn add(&mut self, id: &Text, dir: Path) -> Result<(), OutOfMemory>
        ensures ok { OnOk result (self.new ≡ with_id self.old id.now dir) }
        ensures err { OnErr result (self.new ≡ self.old) }
    {
        if self.dir_of(id.as_str()).is_some() {
            return Ok(());
        }
        let key = String::from_str(self.alloc, id.as_str())?;
        self.dirs.reserve(1)?;
        let _before = self.dirs.insert(key, dir).unwrap();
        Ok(())
    }
}
