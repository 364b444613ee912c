//! Words: where one ends, the text that it stands for, and whether it is a key.
ghost use Rattle.std.specs.Prelude.{◌≡◌, ◌+◌, ◌^◌, ◌<◌, ◌≤◌, min, length, IfOk, IfSome, IfNone};
ghost use Rattle.jam_lexer.specs.Word.{IsWord, IsOpenWord, text_of, is_bare, kind_of};
ghost use Rattle.jam_lexer.specs.Tokens.{IsText};

use crate::signs::is_key_text;
use b2_base::fault::OutOfMemory;
use b2_base::text::Text;
use b2_base::token::TokenKind;
use b2_base::white::is_white;
use std::alloc::Global;

/// The place after a backslash and the byte that it makes literal, if there is one.
fn after_literal(backslash: usize, len: usize) -> usize
    requires order { backslash < len }
    requires small { len < 2 ^ 63 }
    ensures { result ≡ min (backslash + 2) len }
{
    (backslash + 2).min(len)
}

/// Where the word that begins here ends; nothing where its quotes are never closed.
pub fn word_end(bytes: &[u8], start: usize) -> Option<usize>
    requires { start ≤ length bytes.now }
    ensures found { IfSome result (IsWord bytes.now start) }
    ensures none { IfNone result (IsOpenWord bytes.now start) }
{
    let mut at = start;
    let mut quoted = false;
    while at < bytes.len() {
        let byte = bytes[at];
        if byte == b'\\' {
            at = after_literal(at, bytes.len());
        } else if byte == b'"' {
            quoted = !quoted;
            at += 1;
        } else if is_white(byte) && !quoted {
            return Some(at);
        } else {
            at += 1;
        }
    }
    if quoted { None } else { Some(at) }
}

/// The bytes that the word stands for: without its quotes, and without its backslashes but for those that a backslash
/// makes literal.
fn unquoted(alloc: Global, word: &[u8]) -> Result<Vec<u8>, OutOfMemory>
    ensures { IfOk result (λ text. text.items ≡ text_of word.now) }
{
    let mut text = Vec::new(alloc);
    let mut literal = false;
    for byte in word {
        if literal {
            text.push(*byte)?;
            literal = false;
        } else if *byte == b'\\' {
            literal = true;
        } else if *byte != b'"' {
            text.push(*byte)?;
        }
    }
    Ok(text)
}

/// The bytes as a text.
pub fn text_from(alloc: Global, bytes: &[u8]) -> Result<Text, OutOfMemory>
    requires { IsText bytes.now }
    ensures { IfOk result (λ text. text ≡ bytes.now) }
{
    match str::from_utf8(bytes) {
        Ok(text) => Text::new(alloc, text),
        Err(_) => unreachable!(),
    }
}

/// The text that the word stands for.
pub fn word_text(alloc: Global, word: &[u8]) -> Result<Text, OutOfMemory>
    requires { IsText word.now }
    ensures { IfOk result (λ text. text ≡ text_of word.now) }
{
    let text = unquoted(alloc, word)?;
    text_from(alloc, text.as_slice())
}

/// Whether neither a quote nor a backslash stands in the word.
fn is_bare(word: &[u8]) -> bool
    ensures { result ≡ is_bare word.now }
{
    word.iter().all(|byte| !(*byte == b'"' || *byte == b'\\'))
}

/// A key where the word is bare and its text is a key's; else a word.
pub fn word_kind(word: &[u8], text: &str) -> TokenKind
    requires { text.now ≡ text_of word.now }
    ensures { result ≡ kind_of word.now }
{
    if is_bare(word) && is_key_text(text) {
        TokenKind::Key
    } else {
        TokenKind::Word
    }
}
