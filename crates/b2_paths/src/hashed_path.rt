//! Paths as the keys of a hash table.
ghost use Rattle.std.specs.Prelude.{◌≡◌, IfOk};
ghost use Rattle.std.proofs.Common.{ap};
ghost use Rattle.std.specs.Str.{bytes_eq};
ghost use Rattle.std.specs.Hash as fed;
ghost use Rattle.std.specs.Cmp.{partial_equiv_from_equiv};
ghost use Rattle.std.specs.Cmp.Lexicographic.{bytes_decides, nat_list_eq_equiv};

use b2_base::fault::OutOfMemory;
use b2_base::path::Path;
use indexmap::Equivalent;
use std::hash::{Hash, Hasher};
use std::marker::Model;

/// A path that is hashed by its bytes, and seen as them.
pub struct HashedPath {
    path: Path,
}

/// By hand, so that dropping one is one call.
impl Drop for HashedPath {
    fn drop(self) {
        let HashedPath { path } = self;
        drop(path);
    }
}

impl Model for HashedPath {
    ghost use Rattle.std.specs.Prelude.{ℕ, List};

    ghost Value = { List ℕ };

    ghost view = { λ h. h.path };
}

impl HashedPath {
    /// A copy of a path; takes no memory.
    pub fn copy_of(path: &Path) -> Result<HashedPath, OutOfMemory>
        ensures { IfOk result (λ made. made ≡ path.now) }
    {
        let path = path.copy()?;
        Ok(HashedPath { path })
    }

    /// The path.
    pub fn path(&self) -> &Path
        ensures { result.now ≡ self.now }
    {
        &self.path
    }
}

impl PartialEq for HashedPath {
    ghost eq = { bytes_eq };

    ghost laws = { partial_equiv_from_equiv nat_list_eq_equiv };

    fn eq(&self, other: &HashedPath) -> bool {
        self.path == other.path
    }
}

impl Eq for HashedPath {
    ghost laws = { nat_list_eq_equiv };
}

impl Hash for HashedPath {
    ghost hash_input = { fed.str };

    ghost respects_eq = { λ x y same. ap fed.str ((bytes_decides x y).0 same) };

    fn hash<H: Hasher>(&self, state: &mut H) {
        self.path.as_str().hash(state);
    }
}

/// A path is looked up by its bytes, without a key.
impl Equivalent<HashedPath> for &str {
    ghost equivalent = { λ text. bytes_eq text.now };

    ghost respects_hash = { λ text key same. ap fed.str ((bytes_decides text.now key).0 same) };

    ghost respects_eq = { λ text x y. nat_list_eq_equiv.congr text.now x y };

    fn equivalent(&self, key: &HashedPath) -> bool {
        *self == key.path.as_str()
    }
}
