//! Texts as the keys of a hash table.
ghost use Rattle.std.specs.Prelude.{◌≡◌, IfOk};
ghost use Rattle.std.proofs.Common.{ap};
ghost use Rattle.std.specs.Str.{bytes_eq};
ghost use Rattle.std.specs.Hash as fed;
ghost use Rattle.std.specs.Cmp.{partial_equiv_from_equiv};
ghost use Rattle.std.specs.Cmp.Lexicographic.{bytes_decides, nat_list_eq_equiv};

use b2_base::text::Text;
use indexmap::Equivalent;
use std::hash::{Hash, Hasher};
use std::marker::Model;

/// A text that is hashed by its bytes, and seen as them.
pub(crate) struct HashedText {
    text: Text,
}

/// By hand, so that dropping one is one call.
impl Drop for HashedText {
    fn drop(self) {
        let HashedText { text } = self;
        drop(text);
    }
}

impl Model for HashedText {
    ghost use Rattle.std.specs.Prelude.{ℕ, List};

    ghost Value = { List ℕ };

    ghost view = { λ h. h.text };
}

impl HashedText {
    /// The text itself; takes no memory.
    pub(crate) fn new(text: Text) -> HashedText
        ensures { result ≡ text }
    {
        HashedText { text }
    }
}

impl PartialEq for HashedText {
    ghost eq = { bytes_eq };

    ghost laws = { partial_equiv_from_equiv nat_list_eq_equiv };

    fn eq(&self, other: &HashedText) -> bool {
        self.text == other.text
    }
}

impl Eq for HashedText {
    ghost laws = { nat_list_eq_equiv };
}

impl Hash for HashedText {
    ghost hash_input = { fed.str };

    ghost respects_eq = { λ x y same. ap fed.str ((bytes_decides x y).0 same) };

    fn hash<H: Hasher>(&self, state: &mut H) {
        self.text.as_str().hash(state);
    }
}

/// A text is looked up by its bytes, without a key.
impl Equivalent<HashedText> for &str {
    ghost equivalent = { λ text. bytes_eq text.now };

    ghost respects_hash = { λ text key same. ap fed.str ((bytes_decides text.now key).0 same) };

    ghost respects_eq = { λ text x y. nat_list_eq_equiv.congr text.now x y };

    fn equivalent(&self, key: &HashedText) -> bool {
        *self == key.text.as_str()
    }
}
