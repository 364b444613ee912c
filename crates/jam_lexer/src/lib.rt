//! The tokens of a text in the language of build files.
//!
//! # What is proved
//!
//! - The tokens are the one list of tokens of the text.
//! - Each refusal comes exactly where there is none.
#![tactic(auto)]

ghost use Rattle.std.specs.Prelude.{ℕ, ◌≤◌, ◌↔◌, List, Result, length, IfOk, IsErrOf};
ghost use Rattle.b2_base.specs.declared.token.Token.{Token};
ghost use Rattle.jam_lexer.specs.declared.fault.LexFault.{LexFault};
ghost use Rattle.jam_lexer.specs.declared.fault.LexFault.TheVariants as faults;
ghost use Rattle.jam_lexer.specs.Tokens.{AreTokens};
ghost use Rattle.jam_lexer.specs.Answers.{IsFirstBad, IsOpenQuote, IsOpenActions, IsAnswer, IsGivenBy};

mod body;
pub mod fault;
mod gap;
pub mod laws;
mod reading;
pub mod signs;
mod text;
mod word;

use crate::fault::LexFault;
use crate::reading::read_text;
use crate::text::first_bad;
use b2_base::token::Token;
use std::alloc::Global;

/// The tokens of a text: words, keys and the raw bodies of actions, in the order in which they stand.
///
/// Between tokens stands white space, which is the bytes 9 to 13 and 32, and comments, which run from a `#` where a
/// token could begin up to the next line feed. A word runs to the next white space outside quotes. A quote opens or closes quotes
/// and is no part of the text; nor is a backslash, which makes the next character literal, in quotes too, and gives
/// nothing where it is the last character. A word in which no quote and no backslash stood is a Key where its text is a
/// sign or a word that the language keeps for itself. After the Key `actions` the next Key `{` opens a body: all up to
/// the `}` that none of its own `{` matches is one Body, and that `}` alone is the next Key.
///
/// Each token has the line of its first byte, counted from 1, and the byte offsets at which it begins and ends in
/// the input, with its quotes.
///
/// Bytes that are no UTF-8 or hold a zero byte are `NotUtf8`, whatever else they hold, with the offset of the first
/// byte that is zero or at which no whole character begins. Else the first word whose quotes stay open is `OpenQuote`,
/// with its line, and the first body that stays open is `OpenActions`, with the line of its `{`, whichever comes first.
pub fn lex(alloc: Global, bytes: &[u8]) -> Result<Vec<Token>, LexFault>
    requires { length bytes.now ≤ 1048576 }
    ensures tokens { IfOk result (λ tokens. AreTokens bytes.now tokens.items) }
    ensures not_utf8 { (at : ℕ) → IsErrOf result (faults.NotUtf8 at) ↔ IsFirstBad bytes.now at }
    ensures open_quote { (line : ℕ) → IsErrOf result (faults.OpenQuote line) → IsOpenQuote bytes.now line }
    ensures open_actions { (line : ℕ) → IsErrOf result (faults.OpenActions line) → IsOpenActions bytes.now line }
    // Whatever is the answer to the bytes is given, unless memory runs out.
    ensures no_other { (answer : Result (List Token) LexFault) → IsAnswer bytes.now answer → IsGivenBy result answer }
{
    if let Some(at) = first_bad(bytes) {
        return Err(LexFault::NotUtf8 { at: at as u32 });
    }
    read_text(alloc, bytes)
}
