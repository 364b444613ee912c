//! The tag of a line.
ghost use Rattle.std.specs.Prelude.{◌≡◌};
ghost use Rattle.b2_log.specs.Lines.{record_tag, tag_text};

use crate::line::Digests;

/// The kind of a line, which its first field tells.
#[derive(Clone, Copy)]
pub enum Tag {
    /// A record without digests, `+1`.
    Record,
    /// A record with digests, `+2`.
    Digested,
    /// A drop, `-1`.
    Drop,
    /// A scan, `s1`.
    Scan,
}

/// The kind of a record with these digests.
pub fn record_tag(digests: &Option<Digests>) -> Tag
    ensures { result ≡ record_tag digests.now }
{
    match digests {
        None => Tag::Record,
        Some(_) => Tag::Digested,
    }
}

/// The first field of a line of this kind.
pub fn tag_text(tag: Tag) -> &'static [u8]
    ensures { result.now ≡ tag_text tag }
{
    match tag {
        Tag::Record => b"+1",
        Tag::Digested => b"+2",
        Tag::Drop => b"-1",
        Tag::Scan => b"s1",
    }
}
