//! A walk over the pieces of a pattern up to its next `*`.
ghost use Rattle.std.specs.Str.{chars};
ghost use Rattle.jam_path.specs.Steps.{IsUnclosed, IsWalk, IsLeft};

use crate::piece::{after_one, after_star, first_char};

/// What a walk came to.
pub enum WalkEnd<'a> {
    /// The pattern, which had no `*`, matches the text.
    Fits,
    /// A piece did not take its character, or the text or the pattern ended too early.
    Fails,
    /// A `*`, with the pattern after it and the text that is left.
    Star { pattern: &'a str, text: &'a str },
}

/// Matches the pieces of the pattern that stand before its first `*`, each with one character. Takes time in proportion
/// to the length of these pieces.
pub fn walk_pieces<'a>(pattern: &'a str, text: &'a str, unclosed: usize) -> WalkEnd<'a>
    requires { IsUnclosed unclosed pattern.now }
    ensures exact { IsWalk (chars pattern.now) (chars text.now) result }
    ensures left { IsLeft pattern.now text.now result }
{
    let mut rest = pattern;
    let mut left = text;
    'pieces: loop {
        if let Some(pattern) = after_star(rest) {
            return WalkEnd::Star {
                pattern,
                text: left,
            };
        }
        let Some((character, remaining)) = first_char(left) else {
            return if rest.is_empty() {
                WalkEnd::Fits
            } else {
                WalkEnd::Fails
            };
        };
        let Some(after) = after_one(rest, character, unclosed) else {
            return WalkEnd::Fails;
        };
        rest = after;
        left = remaining;
    }
}
