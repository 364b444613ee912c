//! The tokens of a text.
use crate::text::Text;

/// Which of the three a token is; it decides how its text is written.
#[derive(Clone, Copy, Debug, PartialEq, Eq)]
pub enum TokenKind {
    /// A word of the text.
    Word,
    /// A sign or a word that the grammar keeps for itself.
    Key,
    /// The raw body of an action.
    Body,
}

/// A token with its place in the source.
#[derive(Debug, Drop)]
pub struct Token {
    /// Whether a word, a sign or a body of an action.
    pub kind: TokenKind,
    /// What it says, which for a word with quotes or escapes is not its spelling.
    pub text: Text,
    /// The line on which it begins; the first is 1.
    pub line: u32,
    /// The offset of its first byte.
    pub start: u32,
    /// The offset after its last byte.
    pub end: u32,
}
