//! Where the bytes of a text are.
ghost use Rattle.std.specs.Prelude.{◌≡◌, IfOk, string_bytes};
ghost use Rattle.b2_base.specs.Helds.{held_bytes};

use crate::fault::OutOfMemory;
use crate::short_text::ShortText;
use std::alloc::{AllocFailed, Global};
use std::rc::Rc;

/// The bytes of a text. Most texts are short and copied often.
#[derive(Drop)]
pub(crate) enum Held {
    /// Few bytes, in the value itself.
    Short(ShortText),
    /// More bytes, which the copies of a text share.
    Shared(Rc<String>),
    /// More bytes, where no memory was left to share them.
    Alone(String),
}

/// The bytes of a text that is not short.
fn share(text: String) -> Held
    ensures { held_bytes result ≡ string_bytes text }
{
    match Rc::new(*text.allocator(), text) {
        Ok(text) => Held::Shared(text),
        Err(AllocFailed { value }) => Held::Alone(value),
    }
}

impl Held {
    /// A copy of the bytes.
    pub(crate) fn new(alloc: Global, text: &str) -> Result<Held, OutOfMemory>
        ensures { IfOk result (λ held. held_bytes held ≡ text.now) }
    {
        match ShortText::of(text) {
            Some(short) => Ok(Held::Short(short)),
            None => Ok(share(String::from_str(alloc, text)?)),
        }
    }

    /// The bytes themselves.
    pub(crate) fn from_string(text: String) -> Held
        ensures { held_bytes result ≡ string_bytes text }
    {
        match ShortText::of(text.as_str()) {
            Some(short) => Held::Short(short),
            None => share(text),
        }
    }

    /// The bytes as a `str`.
    pub(crate) fn as_str(&self) -> &str
        ensures { result.now ≡ held_bytes self.now }
    {
        match self {
            Held::Short(text) => text.as_str(),
            Held::Shared(text) => text.as_str(),
            Held::Alone(text) => text.as_str(),
        }
    }

    /// The same bytes again. Takes memory only where there was none to share them.
    pub(crate) fn copy(&self) -> Result<Held, OutOfMemory>
        ensures { IfOk result (λ made. held_bytes made ≡ held_bytes self.now) }
    {
        match self {
            Held::Short(text) => Ok(Held::Short(text.copy())),
            Held::Shared(text) => Ok(Held::Shared(text.clone()?)),
            Held::Alone(text) => Ok(share(text.clone()?)),
        }
    }
}
