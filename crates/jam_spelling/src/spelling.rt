//! The spelling of one lexeme, and what stands after it.
ghost use Rattle.std.specs.Prelude.{◌≡◌, ◌++◌, IfOk};
ghost use Rattle.jam_lexer.specs.Tokens.{IsText};
ghost use Rattle.jam_spelling.specs.Spelling.{escaped, quoted, spelling, ends_line, begins_body, separator};

use crate::lexeme::Lexeme;
use crate::special::{is_escaped, needs_quotes};
use b2_base::fault::OutOfMemory;
use b2_base::token::TokenKind;

/// Appends the byte as it stands within quotes.
fn push_escaped(bytes: &mut Vec<u8>, byte: u8) -> Result<(), OutOfMemory>
    ensures { IfOk result (λ _. bytes.new.items ≡ bytes.old.items ++ escaped byte) }
{
    if is_escaped(byte) {
        bytes.push(b'\\')?;
    }
    bytes.push(byte)?;
    Ok(())
}

/// Appends the text in quotes.
fn push_quoted(bytes: &mut Vec<u8>, text: &[u8]) -> Result<(), OutOfMemory>
    ensures { IfOk result (λ _. bytes.new.items ≡ bytes.old.items ++ quoted text.now) }
{
    bytes.push(b'"')?;
    for byte in text {
        push_escaped(bytes, *byte)?;
    }
    bytes.push(b'"')?;
    Ok(())
}

/// Appends the lexeme: a Word that needs quotes in quotes, all else as it is.
pub fn push_spelling(bytes: &mut Vec<u8>, lexeme: &Lexeme) -> Result<(), OutOfMemory>
    ensures pushes { IfOk result (λ _. bytes.new.items ≡ bytes.old.items ++ spelling lexeme.now) }
    ensures text { IsText lexeme.now.text }
{
    let text = lexeme.text.as_str();
    if lexeme.kind == TokenKind::Word && needs_quotes(text) {
        push_quoted(bytes, text.as_bytes())
    } else {
        bytes.extend_from_slice(text.as_bytes())?;
        Ok(())
    }
}

/// Whether a line ends after the lexeme.
fn ends_line(lexeme: &Lexeme) -> bool
    ensures { result ≡ ends_line lexeme.now }
{
    let text = lexeme.text.as_str();
    lexeme.kind == TokenKind::Key && (text == ";" || text == "{" || text == "}")
}

/// Whether the first of the lexemes is a body.
fn begins_body(lexemes: &[Lexeme]) -> bool
    ensures { result ≡ begins_body lexemes.now }
{
    match lexemes {
        [] => false,
        [first, ..] => first.kind == TokenKind::Body,
    }
}

/// What stands between the lexeme and those that follow it.
pub fn separator(lexeme: &Lexeme, more: &[Lexeme]) -> &'static str
    ensures { result.now ≡ separator lexeme.now more.now }
{
    if lexeme.kind == TokenKind::Body || begins_body(more) {
        ""
    } else if ends_line(lexeme) {
        "\n"
    } else if more.is_empty() {
        ""
    } else {
        " "
    }
}
