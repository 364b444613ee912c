//! Text with no zero byte.
ghost use Rattle.std.specs.Prelude.{◌≡◌, ◌↔◌, IfOk, IsTrue, string_bytes};
ghost use Rattle.std.specs.List.{list_any};
ghost use Rattle.std.specs.Str.{bytes_eq};
ghost use Rattle.b2_base.specs.Bytes.{HasNoZero};

use crate::fault::OutOfMemory;
use crate::held::Held;
use std::alloc::Global;
use std::cmp::Ordering;
use std::fmt;
use std::marker::Model;

/// Owned text with no zero byte, seen as its bytes in UTF-8. Two texts are equal where their bytes are, and they are
/// ordered byte by byte, a text before those that it begins. A short text takes no memory of its own, and the copies of a
/// long one share it.
pub struct Text {
    held: Held,
}

/// By hand, so that dropping one is one call.
impl Drop for Text {
    fn drop(self) {
        let Text { held } = self;
        drop(held);
    }
}

impl Model for Text {
    ghost use Rattle.std.specs.Prelude.{ℕ, List};
    ghost use Rattle.b2_base.specs.Bytes.{HasNoZero};
    ghost use Rattle.b2_base.specs.Helds.{held_bytes};

    ghost Value = { List ℕ };

    ghost view = { λ t. held_bytes t.held };

    ghost invariant = { λ t. HasNoZero (held_bytes t.held) };
}

/// Whether no byte is zero, which is asked of each text that is made. Takes no memory.
pub fn has_no_zero(text: &str) -> bool
    ensures { IsTrue result ↔ HasNoZero text.now }
{
    text.as_bytes().iter().all(|byte| *byte > 0)
}

/// Whether a text is one of a few texts. Takes no memory, but stack for each of them.
pub fn is_among(text: &str, texts: &[&str]) -> bool
    ensures { result ≡ list_any (λ other. bytes_eq text.now other.now) texts.now }
{
    match texts {
        [] => false,
        [first, more @ ..] => text == *first || is_among(text, more),
    }
}

impl Text {
    /// Owns a copy of a text, which has no zero byte.
    pub fn new(alloc: Global, text: &str) -> Result<Text, OutOfMemory>
        requires { HasNoZero text.now }
        ensures { IfOk result (λ made. made ≡ text.now) }
    {
        let held = Held::new(alloc, text)?;
        Ok(Text { held })
    }

    /// Owns the text itself, which has no zero byte. Where there is no memory to share it, it stays alone.
    pub fn from_string(text: String) -> Text
        requires { HasNoZero (string_bytes text) }
        ensures { result ≡ string_bytes text }
    {
        Text {
            held: Held::from_string(text),
        }
    }

    /// The text as a `str`.
    pub fn as_str(&self) -> &str
        ensures value { result.now ≡ self.now }
        ensures no_zero { HasNoZero self.now }
    {
        self.held.as_str()
    }

    /// The same text again. Takes memory only where there was none to share it.
    pub fn copy(&self) -> Result<Text, OutOfMemory>
        ensures { IfOk result (λ made. made ≡ self.now) }
    {
        let held = self.held.copy()?;
        Ok(Text { held })
    }
}

impl fmt::Debug for Text {
    fn fmt<W: fmt::Write>(&self, f: &mut fmt::Formatter<W>) -> fmt::Result {
        fmt::Debug::fmt(&self.as_str(), f)
    }
}

impl PartialEq for Text {
    ghost use Rattle.std.specs.Str.{bytes_eq};
    ghost use Rattle.std.specs.Cmp.{partial_equiv_from_equiv};
    ghost use Rattle.std.specs.Cmp.Lexicographic.{nat_list_eq_equiv};

    ghost eq = { bytes_eq };

    ghost laws = { partial_equiv_from_equiv nat_list_eq_equiv };

    fn eq(&self, other: &Text) -> bool {
        self.as_str() == other.as_str()
    }
}

impl Eq for Text {
    ghost use Rattle.std.specs.Cmp.Lexicographic.{nat_list_eq_equiv};

    ghost laws = { nat_list_eq_equiv };
}

impl PartialOrd for Text {
    ghost use Rattle.std.specs.Prelude.{Some};
    ghost use Rattle.std.specs.Ordering.{nat_cmp};
    ghost use Rattle.std.specs.Cmp.Lexicographic.{slice_cmp, texts_po};

    ghost partial_cmp = { λ x y. Some (slice_cmp nat_cmp x y) };

    ghost laws = { texts_po };

    fn partial_cmp(&self, other: &Text) -> Option<Ordering> {
        Some(self.cmp(other))
    }
}

impl Ord for Text {
    ghost use Rattle.std.specs.Prelude.{refl};
    ghost use Rattle.std.specs.Ordering.{nat_cmp};
    ghost use Rattle.std.specs.Cmp.Lexicographic.{slice_cmp, nat_list_cmp_total, texts_ties};

    ghost cmp = { slice_cmp nat_cmp };

    ghost total = { nat_list_cmp_total };

    ghost matches_partial_cmp = { λ x y. refl };

    ghost matches_eq = { texts_ties };

    fn cmp(&self, other: &Text) -> Ordering {
        self.as_str().cmp(other.as_str())
    }
}
