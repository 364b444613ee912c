//! Names of main targets that are looked up.
ghost use Rattle.std.specs.Prelude.{◌≡◌, ◌++◌, ◌∷◌, [], List, OnOk};
ghost use Rattle.b2_references.specs.Names.{Name};
ghost use Rattle.b2_alternatives.specs.DependencyWork.{is_known, AreKnown};

use b2_base::fault::OutOfMemory;
use b2_references::name::TargetName;
use indexmap::IndexSet;
use std::alloc::Global;

/// Names of main targets, which are looked up by a hash.
pub struct KnownNames {
    names: IndexSet<TargetName>,
}

/// By hand, so that dropping one is one call.
impl Drop for KnownNames {
    fn drop(self) {
        let KnownNames { names } = self;
        drop(names);
    }
}

impl KnownNames {
    /// No names; takes no memory.
    pub fn new(alloc: Global) -> KnownNames
        ensures { AreKnown [] result }
    {
        KnownNames {
            names: IndexSet::new(alloc),
        }
    }

    /// Whether a name is there; takes no memory.
    pub fn has(&self, name: &TargetName) -> bool
        ensures { result ≡ is_known self.now name.now }
    {
        self.names.contains(name)
    }

    /// Adds a name, which may be known already.
    pub fn add(&mut self, name: &TargetName) -> Result<(), OutOfMemory>
        ensures { (names : List Name) → AreKnown names self.old → OnOk result (AreKnown (names ++ name.now ∷ []) self.new) }
    {
        let _is_new = self.names.insert(name.copy()?)?;
        Ok(())
    }
}
