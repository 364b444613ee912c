//! The include of a line.
ghost use Rattle.std.specs.Prelude.{◌≡◌, ◌∷◌, [], Some, None, IfOk, if◌then◌else◌, option_map, option_copied};
ghost use Rattle.jam_scan.specs.IncludeLines.{after_blanks, after_word, after_directive, before_sign, opening, closing, is_name, enclosed, include_at, include_of};

use crate::include::Include;
use b2_base::fault::OutOfMemory;
use b2_base::text::{Text, has_no_zero};
use memchr::memchr;
use std::alloc::Global;

/// What follows the blanks at the front.
fn after_blanks(text: &[u8]) -> &[u8]
    ensures { result.now ≡ after_blanks text.now }
{
    let mut rest = text;
    while let [b' ' | b'\t', more @ ..] = rest {
        rest = more;
    }
    rest
}

/// What follows a word, where the text begins with it.
fn after_word<'a>(word: &[u8], text: &'a [u8]) -> Option<&'a [u8]>
    ensures { option_map (λ rest. rest.now) result ≡ after_word word.now text.now }
{
    text.strip_prefix(word)
}

/// What follows `#` and `include` with blanks around them.
fn after_directive(line: &[u8]) -> Option<&[u8]>
    ensures { option_map (λ rest. rest.now) result ≡ after_directive line.now }
{
    let rest = after_word(b"#", after_blanks(line))?;
    after_word(b"include", after_blanks(rest))
}

/// What stands before the first such sign, where there is one.
fn before_sign(sign: u8, text: &[u8]) -> Option<&[u8]>
    ensures { option_map (λ front. front.now) result ≡ before_sign sign text.now }
{
    let at = memchr(sign, text)?;
    Some(&text[..at])
}

/// The bytes as a name, where they are one.
fn name_of(bytes: &[u8]) -> Option<&str>
    ensures { option_map (λ name. name.now) result ≡ (if is_name bytes.now then Some bytes.now else None) }
{
    let Ok(name) = str::from_utf8(bytes) else {
        return None;
    };
    if name.is_empty() || !has_no_zero(name) {
        return None;
    }
    Some(name)
}

fn opening(quoted: bool) -> u8
    ensures { result ≡ opening quoted }
{
    if quoted { b'"' } else { b'<' }
}

fn closing(quoted: bool) -> u8
    ensures { result ≡ closing quoted }
{
    if quoted { b'"' } else { b'>' }
}

/// The name at the front, between its two signs.
fn enclosed(quoted: bool, text: &[u8]) -> Option<&str>
    ensures { option_map (λ name. (name.now, quoted)) result ≡ enclosed quoted text.now }
{
    let rest = after_word([opening(quoted)].as_slice(), text)?;
    name_of(before_sign(closing(quoted), rest)?)
}

/// The include at the front, by its first sign.
fn include_at(alloc: Global, text: &[u8]) -> Result<Option<Include>, OutOfMemory>
    ensures { IfOk result (λ found. found ≡ include_at text.now) }
{
    let quoted = text.first() == Some(&b'"');
    let Some(name) = enclosed(quoted, text) else {
        return Ok(None);
    };
    let name = Text::new(alloc, name)?;
    Ok(Some(Include::of_pair(name, quoted)))
}

/// The include of a line.
pub fn include_of(alloc: Global, line: &[u8]) -> Result<Option<Include>, OutOfMemory>
    ensures { IfOk result (λ found. found ≡ include_of line.now) }
{
    match after_directive(line) {
        None => Ok(None),
        Some(rest) => include_at(alloc, after_blanks(rest)),
    }
}
