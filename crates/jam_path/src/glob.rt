//! Patterns on names.
ghost use Rattle.std.specs.Prelude.{◌↔◌, ◌∷◌, IsTrue};
ghost use Rattle.std.specs.Str.{chars};
ghost use Rattle.jam_path.specs.Patterns.{Match};
ghost use Rattle.jam_path.specs.Steps.{IsUnclosed};

use crate::piece::first_char;
use crate::walk::{WalkEnd, walk_pieces};

/// How many bytes at the end of the pattern hold no `]`.
fn unclosed_len(pattern: &str) -> usize
    ensures { IsUnclosed result pattern.now }
{
    match pattern.rfind(']') {
        None => pattern.len(),
        Some(last) => pattern.len() - last - 1,
    }
}

/// Whether the text ends with what the pattern matches. It looks at each place for the pieces up to the next `*`, and
/// never comes back to a place before one at which they were found.
fn matches_end(pattern: &str, text: &str, unclosed: usize) -> bool
    requires { IsUnclosed unclosed pattern.now }
    ensures { IsTrue result ↔ Match (42 ∷ chars pattern.now) (chars text.now) }
{
    let mut rest = pattern;
    let mut left = text;
    'places: loop {
        match walk_pieces(rest, left, unclosed) {
            WalkEnd::Fits => return true,
            WalkEnd::Star { pattern, text } => {
                rest = pattern;
                left = text;
            }
            WalkEnd::Fails => {
                let Some((_, after)) = first_char(left) else {
                    return false;
                };
                left = after;
            }
        }
    }
}

/// Whether the pattern matches the whole text, character by character. `*` takes any run of characters, slashes too, and
/// `?` any one character. A class as `[abc]` or `[a-c]` takes one of its members, and `[^abc]` one of all others; it ends
/// at the first `]`, and a backslash in it is a member. Elsewhere a backslash lets the next character stand for itself,
/// and so does every other character, a `[` without a `]` after it, and a backslash at the end.
///
/// Takes no memory, and time in proportion to the product of both lengths.
pub fn glob_match(pattern: &str, text: &str) -> bool
    ensures { IsTrue result ↔ Match (chars pattern.now) (chars text.now) }
{
    let unclosed = unclosed_len(pattern);
    match walk_pieces(pattern, text, unclosed) {
        WalkEnd::Fits => true,
        WalkEnd::Fails => false,
        WalkEnd::Star { pattern, text } => matches_end(pattern, text, unclosed),
    }
}
