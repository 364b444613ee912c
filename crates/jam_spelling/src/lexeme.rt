//! What a token says.
use b2_base::text::Text;
use b2_base::token::TokenKind;

/// What a token says, without its place.
#[derive(Drop)]
pub struct Lexeme {
    /// The kind of its token.
    pub kind: TokenKind,
    /// Its text; for a word without the quotes and backslashes of its spelling.
    pub text: Text,
}
