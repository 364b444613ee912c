//! Writes lexemes as a text in the language of build files, from which lexing reads them again.
//!
//! # What is proved
//!
//! - The text that a list of tokens is written as lexes to them again.
#![tactic(auto)]

ghost use Rattle.std.specs.Prelude.{◌≡◌, IfOk};
ghost use Rattle.jam_spelling.specs.Spelling.{bytes_of};
ghost use Rattle.jam_spelling.specs.LexemeLists.{CanStand};
ghost use Rattle.jam_spelling.specs.Readings.{ReadsAs, AreTexts};

pub mod laws;
pub mod lexeme;
mod special;
mod spelling;

use crate::lexeme::Lexeme;
use crate::spelling::{push_spelling, separator};
use b2_base::fault::OutOfMemory;
use std::alloc::Global;

/// The lexemes as a text, with one space between two of them and a line feed after each of the keys `;`, `{` and `}`.
///
/// No space follows a line feed, and none stands at the end of the text. A Word is written in quotes where it is empty,
/// is the text of a key, begins with `#`, or holds white space, a quote or a backslash; within its quotes a backslash
/// stands before each quote and backslash. A body is written as it is, directly between `{` and `}`.
///
/// The tokens of the text are of these kinds and say these texts, in this order, where the lexemes can stand in a text:
/// Words of any text, Keys with the text of a key other than `actions`, and whole actions, which are the Key `actions`,
/// Words, the Key `{`, a Body that begins with white space and in which the braces match, and the Key `}`. Other lexemes
/// are spelled too, and lexing may read others from that.
pub fn spelled(alloc: Global, lexemes: &[Lexeme]) -> Result<Vec<u8>, OutOfMemory>
    ensures exact { IfOk result (λ bytes. bytes.items ≡ bytes_of lexemes.now) }
    ensures texts { IfOk result (λ _. AreTexts lexemes.now) }
    ensures reads_back { CanStand lexemes.now → IfOk result (λ bytes. ReadsAs bytes.items lexemes.now) }
{
    let mut bytes = Vec::new(alloc);
    for (place, lexeme) in lexemes.iter().enumerate() {
        push_spelling(&mut bytes, lexeme)?;
        let after = separator(lexeme, &lexemes[place + 1..]);
        bytes.extend_from_slice(after.as_bytes())?;
    }
    Ok(bytes)
}
