//! White space.
ghost use Rattle.std.specs.Prelude.{◌≡◌};
ghost use Rattle.b2_base.specs.Bytes.{is_white};

/// Whether a byte is white space: 9 to 13, or 32. Takes no memory.
pub fn is_white(byte: u8) -> bool
    ensures { result ≡ is_white byte }
{
    (9 <= byte && byte <= 13) || byte == b' '
}
