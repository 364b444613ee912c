//! The texts of keys.
ghost use Rattle.std.specs.Prelude.{◌≡◌};
ghost use Rattle.jam_lexer.specs.Word.{is_key_text};

use b2_base::text::is_among;

/// The signs of the language.
static SIGNS: [&str; 15] = [
    ";", ":", "{", "}", "[", "]", "(", ")", "=", "+=", "?=", "!=", "!", "&&", "||",
];

/// The words that the language keeps for itself.
static RESERVED: [&str; 14] = [
    "actions", "case", "else", "for", "if", "in", "include", "local", "module", "on", "return",
    "rule", "switch", "while",
];

/// A word that was written without quotes and backslashes is a key if so.
pub fn is_key_text(text: &str) -> bool
    ensures { result ≡ is_key_text text.now }
{
    is_among(text, &SIGNS) || is_among(text, &RESERVED)
}
