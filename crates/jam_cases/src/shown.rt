//! Texts in quotes, and the names of kinds.
use b2_base::token::TokenKind;
use transcript::answer::Answer;
use transcript::case_fault::CaseFault;

/// Puts a character, which an answer takes as a text.
pub fn put_char(answer: &mut Answer, letter: char) {
    let mut bytes = [0u8; 4];
    answer.put(letter.encode_utf8(&mut bytes));
}

/// Puts a text in quotes, with a backslash before each quote and backslash.
pub fn put_quoted(answer: &mut Answer, text: &str) {
    answer.put("\"");
    for letter in text.chars() {
        if letter == '"' || letter == '\\' {
            answer.put("\\");
        }
        put_char(answer, letter);
    }
    answer.put("\"");
}

/// Bytes as the text that they are.
pub fn as_text(bytes: &[u8]) -> Result<&str, CaseFault> {
    match str::from_utf8(bytes) {
        Ok(text) => Ok(text),
        Err(_error) => Err(CaseFault::WrongWords),
    }
}

/// As answers show it, and as [`kind_named`] reads it.
pub fn kind_name(kind: TokenKind) -> &'static str {
    match kind {
        TokenKind::Word => "word",
        TokenKind::Key => "key",
        TokenKind::Body => "body",
    }
}

/// `WrongWords` for any other name than those of [`kind_name`].
pub fn kind_named(name: &str) -> Result<TokenKind, CaseFault> {
    match name {
        "word" => Ok(TokenKind::Word),
        "key" => Ok(TokenKind::Key),
        "body" => Ok(TokenKind::Body),
        _ => Err(CaseFault::WrongWords),
    }
}
