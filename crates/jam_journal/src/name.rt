//! A text that several may hold.
ghost use Rattle.std.specs.Prelude.{◌≡◌, IfOk};
ghost use Rattle.jam_journal.specs.SharedTexts.{held_text};

use crate::slots::{fixed_name, slot_of};
use b2_base::fault::OutOfMemory;
use b2_base::text::{Text, has_no_zero};
use std::alloc::Global;
use std::marker::Model;
use std::rc::Rc;

/// How a text is held.
#[derive(Drop)]
enum Holding {
    /// As that of a place for the names of argument lists, or as the empty text.
    Fixed(usize),
    /// As a text with no zero byte, which takes no memory of its own where it is short.
    Plain(Text),
    /// As one that is shared.
    Shared(Rc<String>),
}

/// A text, seen as its bytes. The names of argument lists and short texts take no memory, other texts are shared.
pub struct Name {
    held: Holding,
}

/// By hand, so that dropping one is one call.
impl Drop for Name {
    fn drop(self) {
        let Name { held } = self;
        drop(held);
    }
}

impl Model for Name {
    ghost use Rattle.std.specs.Prelude.{ℕ, List};
    ghost use Rattle.jam_journal.specs.SharedTexts.{held_text};

    ghost Value = { List ℕ };

    ghost view = { λ n. held_text n.held };
}

/// A text of its own, which may be shared.
fn shared(alloc: Global, text: &str) -> Result<Holding, OutOfMemory>
    ensures { IfOk result (λ made. held_text made ≡ text.now) }
{
    if has_no_zero(text) {
        return Ok(Holding::Plain(Text::new(alloc, text)?));
    }
    let text = String::from_str(alloc, text)?;
    Ok(Holding::Shared(Rc::new(alloc, text)?))
}

impl Name {
    /// Holds a copy of a text.
    pub fn new(alloc: Global, text: &str) -> Result<Name, OutOfMemory>
        ensures { IfOk result (λ made. made ≡ text.now) }
    {
        let held = match slot_of(text) {
            Some(place) => Holding::Fixed(place),
            None if text.is_empty() => Holding::Fixed(14),
            None => shared(alloc, text)?,
        };
        Ok(Name { held })
    }

    /// The same text again, which is not copied.
    pub fn share(&self) -> Result<Name, OutOfMemory>
        ensures { IfOk result (λ made. made ≡ self.now) }
    {
        let held = match &self.held {
            Holding::Fixed(place) => Holding::Fixed(*place),
            Holding::Plain(text) => Holding::Plain(text.copy()?),
            Holding::Shared(text) => Holding::Shared(text.clone()?),
        };
        Ok(Name { held })
    }

    /// The text as a `str`.
    pub fn as_str(&self) -> &str
        ensures { result.now ≡ self.now }
    {
        match &self.held {
            Holding::Fixed(place) => fixed_name(*place),
            Holding::Plain(text) => text.as_str(),
            Holding::Shared(text) => text.as_str(),
        }
    }
}
