//! Includes.
use b2_base::list::List;
use b2_base::text::Text;
use std::marker::Model;

/// An include of a file, seen as a pair: the name that is asked for, and whether it stands in quotes.
pub struct Include {
    name: Text,
    quoted: bool,
}

/// By hand, so that dropping one is one call.
impl Drop for Include {
    fn drop(self) {
        let Include { name, quoted: _ } = self;
        drop(name);
    }
}

impl Model for Include {
    ghost use Rattle.std.specs.Prelude.{ℕ, List as Items, Bool};

    ghost Value = { Items ℕ × Bool };

    ghost view = { λ i. (i.name, i.quoted) };
}

/// Includes in order, seen as the list of these pairs.
pub type IncludeList = List<Include>;

impl Include {
    ghost use Rattle.std.specs.Prelude.{◌≡◌};

    /// The include of a name; takes no memory.
    pub fn of_pair(name: Text, quoted: bool) -> Include
        ensures { result ≡ (name, quoted) }
    {
        Include { name, quoted }
    }

    /// The name that is asked for, and whether it stands in quotes.
    pub fn pair(&self) -> (&Text, bool)
        ensures { (result.0.now, result.1) ≡ self.now }
    {
        (&self.name, self.quoted)
    }
}
