//! Which words are written in quotes.
ghost use Rattle.std.specs.Prelude.{◌≡◌, ◌==◌, slice_index};
ghost use Rattle.std.specs.List.{list_any};
ghost use Rattle.jam_lexer.specs.Signs.{hash};
ghost use Rattle.jam_spelling.specs.Spelling.{is_escaped, is_special, needs_quotes};

use b2_base::white::is_white;
use jam_lexer::signs::is_key_text;

/// Whether the byte means something within quotes: a quote or a backslash.
pub fn is_escaped(byte: u8) -> bool
    ensures { result ≡ is_escaped byte }
{
    byte == b'"' || byte == b'\\'
}

/// Whether a word holds the byte only in quotes.
fn is_special(byte: u8) -> bool
    ensures { result ≡ is_special byte }
{
    is_white(byte) || is_escaped(byte)
}

/// Whether some byte of the text stands in a word only in quotes.
fn has_special(text: &[u8]) -> bool
    ensures { result ≡ list_any is_special text.now }
{
    text.iter().any(|byte| is_special(*byte))
}

fn begins_comment(text: &[u8]) -> bool
    ensures { result ≡ (slice_index text.now 0 == hash) }
{
    match text {
        [] => false,
        [first, ..] => *first == b'#',
    }
}

/// Whether a Word of this text is written in quotes.
#[tactic(auto, unfolding(crate::specs::Spelling::needs_quotes))]
pub fn needs_quotes(text: &str) -> bool
    ensures { result ≡ needs_quotes text.now }
{
    let bytes = text.as_bytes();
    bytes.is_empty() || is_key_text(text) || begins_comment(bytes) || has_special(bytes)
}
