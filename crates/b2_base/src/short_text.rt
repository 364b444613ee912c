//! Short texts.
ghost use Rattle.std.specs.Prelude.{◌≡◌, ◌≤◌, IfSome, length, take};

use std::marker::Model;
use std::str;

/// How many bytes a short text has at most.
const ROOM: usize = 30;

/// A text of at most 30 bytes, which stand in the value itself and take no memory. Seen as its bytes.
#[derive(Drop)]
pub(crate) struct ShortText {
    len: u8,
    bytes: [u8; ROOM],
}

impl Model for ShortText {
    ghost use Rattle.std.specs.Prelude.{ℕ, ◌≤◌, List, take, IsUtf8};

    ghost Value = { List ℕ };

    ghost view = { λ s. take s.len s.bytes };

    ghost invariant = { λ s. (s.len ≤ 30) × ∥ IsUtf8 (take s.len s.bytes) ∥₁ };
}

/// The bytes, and zeros after them.
fn filled(text: &[u8]) -> [u8; ROOM]
    requires { length text.now ≤ 30 }
    ensures { take (length text.now) result ≡ text.now }
{
    let mut bytes = [0; ROOM];
    bytes[..text.len()].copy_from_slice(text);
    bytes
}

/// A text that is short enough.
fn short(text: &str) -> ShortText
    requires { length text.now ≤ 30 }
    ensures { result ≡ text.now }
{
    ShortText {
        len: text.len() as u8,
        bytes: filled(text.as_bytes()),
    }
}

impl ShortText {
    /// The text, where it is short enough.
    pub(crate) fn of(text: &str) -> Option<ShortText>
        ensures { IfSome result (λ made. made ≡ text.now) }
    {
        if text.len() > ROOM {
            None
        } else {
            Some(short(text))
        }
    }

    /// The same text again.
    pub(crate) fn copy(&self) -> ShortText
        ensures { result ≡ self.now }
    {
        ShortText {
            len: self.len,
            bytes: self.bytes,
        }
    }

    /// The text as a `str`. That its bytes are UTF-8 is proved of every value, so they are not read for it.
    pub(crate) fn as_str(&self) -> &str
        ensures { result.now ≡ self.now }
    {
        unsafe { str::from_utf8_unchecked(&self.bytes[..self.len as usize]) }
    }
}
