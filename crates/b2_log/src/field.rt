//! Reads fields.
ghost use Rattle.std.specs.Prelude.{◌≡◌, ◌≢◌, ℕ, ◌^◌, ◌<◌, ◌≤◌, List, [], ◌∷◌, ◌++◌, length, take, IfOk, IfSome, IsErrOf, IsTrue, MatchOption, string_bytes};
ghost use Rattle.std.specs.List.{All};
ghost use Rattle.std.specs.Cow.{cow_str_bytes};
ghost use Rattle.std.specs.Fmt.{decimal};
ghost use Rattle.b2_log.specs.Lines.{tab, escaped, next_bytes, field, number};
ghost use Rattle.b2_base.specs.Bytes.{backslash};
ghost use Rattle.b2_log.specs.Good.{IsText, IsPath, IsNumber, IsDigest};
ghost use Rattle.b2_log.specs.Readings.{Begins, BeginsNone, HasNoNext, IsNoEscape, IsPlain, HasNoMark, mark_field, HasNoTag, tag_field};

use crate::line_fault::LineFault;
use crate::proper::is_digest;
use crate::tag::Tag;
use b2_base::decimal::has_lead;
use b2_base::fault::OutOfMemory;
use b2_base::path::Path;
use b2_base::text::{Text, has_no_zero};
use std::alloc::Global;
use std::borrow::CowStr;

/// The byte that a backslash and this sign stand for.
fn unescaped(sign: u8) -> Option<u8>
    ensures { MatchOption result (IsNoEscape sign) (λ byte. escaped byte ≡ backslash ∷ sign ∷ []) }
{
    match sign {
        b'\\' => Some(b'\\'),
        b't' => Some(b'\t'),
        b'n' => Some(b'\n'),
        _ => None,
    }
}

/// The next byte of what is left of a field, or nothing at the tab that ends it, and what follows.
fn next_byte(bytes: &[u8]) -> Option<(Option<u8>, &[u8])>
    ensures exact { MatchOption result (HasNoNext bytes.now) (λ found. bytes.now ≡ next_bytes found.0 ++ found.1.now) }
    ensures shorter { IfSome result (λ found. length found.1.now < length bytes.now) }
{
    match bytes {
        [b'\t', rest @ ..] => Some((None, rest)),
        [b'\\', sign, rest @ ..] => {
            let byte = unescaped(*sign)?;
            Some((Some(byte), rest))
        }
        [] | [b'\\'] | [b'\n', ..] => None,
        [byte, rest @ ..] => Some((Some(*byte), rest)),
    }
}

/// Whether a byte is above the line feed and no backslash, which makes it plain. The few plain bytes below are rare in texts.
fn is_plain(byte: u8) -> bool
    ensures { IsTrue result → IsPlain byte }
{
    byte > b'\n' && byte != b'\\'
}

/// How many bytes stand first that are plain by this test.
fn plain_count(bytes: &[u8]) -> usize
    ensures within { result ≤ length bytes.now }
    ensures plain { All IsPlain (take result bytes.now) }
{
    for (count, byte) in bytes.iter().enumerate() {
        if !is_plain(*byte) {
            return count;
        }
    }
    bytes.len()
}

/// Plain bytes that stand first, and what follows them.
fn plain_at(bytes: &[u8]) -> (&[u8], &[u8])
    ensures split { bytes.now ≡ result.0.now ++ result.1.now }
    ensures plain { All IsPlain result.0.now }
{
    bytes.split_at(plain_count(bytes))
}

/// What follows a tab that stands first.
fn after_tab(bytes: &[u8]) -> Option<&[u8]>
    ensures { IfSome result (λ after. bytes.now ≡ tab ∷ after.now) }
{
    match bytes {
        [b'\t', after @ ..] => Some(after),
        _ => None,
    }
}

/// The bytes of a field of which plain bytes were read, and what follows its tab.
fn bytes_after<'a>(
    alloc: Global,
    plain: &[u8],
    rest: &'a [u8],
) -> Result<(Vec<u8>, &'a [u8]), LineFault>
    requires { All IsPlain plain.now }
    ensures found { IfOk result (λ read. plain.now ++ rest.now ≡ field read.0.items ++ read.1.now) }
    ensures refused { IsErrOf result LineFault.NotGood → (text after : List ℕ) → plain.now ++ rest.now ≢ field text ++ after }
{
    let mut text = Vec::from_slice(alloc, plain)?;
    let mut rest = rest;
    while let Some((next, after)) = next_byte(rest) {
        match next {
            None => return Ok((text, after)),
            Some(byte) => text.push(byte)?,
        }
        let (piece, after) = plain_at(after);
        text.extend_from_slice(piece)?;
        rest = after;
    }
    Err(LineFault::NotGood)
}

/// Refused where they are no UTF-8 or have a zero byte, since no field that was written has these.
fn text_of(bytes: Vec<u8>) -> Result<String, LineFault>
    ensures found { IfOk result (λ text. (string_bytes text ≡ bytes.items) × IsText bytes.items) }
    ensures refused { IsErrOf result LineFault.NotGood → ¬ IsText bytes.items }
{
    let Ok(text) = String::from_utf8(bytes) else {
        return Err(LineFault::NotGood);
    };
    if !has_no_zero(text.as_str()) {
        return Err(LineFault::NotGood);
    }
    Ok(text)
}

/// Plain bytes as text; refused where they are no UTF-8.
fn plain_text(bytes: &[u8]) -> Result<&str, LineFault>
    requires { All IsPlain bytes.now }
    ensures found { IfOk result (λ text. (text.now ≡ bytes.now) × IsText bytes.now) }
    ensures refused { IsErrOf result LineFault.NotGood → ¬ IsText bytes.now }
{
    match str::from_utf8(bytes) {
        Ok(text) => Ok(text),
        Err(_) => Err(LineFault::NotGood),
    }
}

/// The text of the first field, and what follows its tab. It is lent where all its bytes are plain, and takes memory where
/// a byte was written otherwise.
fn field_at(alloc: Global, bytes: &[u8]) -> Result<(CowStr<'_>, &[u8]), LineFault>
    ensures found { IfOk result (λ read. Begins field IsText bytes.now (cow_str_bytes read.0) read.1.now) }
    ensures refused { IsErrOf result LineFault.NotGood → BeginsNone field IsText bytes.now }
{
    let (plain, rest) = plain_at(bytes);
    if let Some(after) = after_tab(rest) {
        let text = plain_text(plain)?;
        return Ok((CowStr::Borrowed(text), after));
    }
    let (text, after) = bytes_after(alloc, plain, rest)?;
    let text = text_of(text)?;
    Ok((CowStr::Owned(text), after))
}

/// The text as one of its own.
fn owned(alloc: Global, text: CowStr<'_>) -> Result<Text, OutOfMemory>
    requires { IsText (cow_str_bytes text) }
    ensures { IfOk result (λ made. made ≡ cow_str_bytes text.entry) }
{
    let text = text.into_owned(alloc)?;
    Ok(Text::from_string(text))
}

/// The text of the first field, and what follows its tab.
pub fn text_at(alloc: Global, bytes: &[u8]) -> Result<(Text, &[u8]), LineFault>
    ensures found { IfOk result (λ read. Begins field IsText bytes.now read.0 read.1.now) }
    ensures refused { IsErrOf result LineFault.NotGood → BeginsNone field IsText bytes.now }
{
    let (text, rest) = field_at(alloc, bytes)?;
    let text = owned(alloc, text)?;
    Ok((text, rest))
}

/// The path that is a text in normal form.
fn path_of(alloc: Global, text: Text) -> Result<Path, LineFault>
    requires { IsText text }
    ensures found { IfOk result (λ path. (path ≡ text) × IsPath text) }
    ensures refused { IsErrOf result LineFault.NotGood → ¬ IsPath text }
{
    match Path::from_text(alloc, text)? {
        Some(path) => Ok(path),
        None => Err(LineFault::NotGood),
    }
}

/// The path of the first field, and what follows its tab.
pub fn path_at(alloc: Global, bytes: &[u8]) -> Result<(Path, &[u8]), LineFault>
    ensures found { IfOk result (λ read. Begins field IsPath bytes.now read.0 read.1.now) }
    ensures refused { IsErrOf result LineFault.NotGood → BeginsNone field IsPath bytes.now }
{
    let (text, rest) = text_at(alloc, bytes)?;
    let path = path_of(alloc, text)?;
    Ok((path, rest))
}

/// The number that a text is written for: decimal digits without a sign and without a leading zero.
fn number_of(text: &str) -> Option<u64>
    ensures { MatchOption result ((n : ℕ) → n < 2 ^ 64 → text.now ≢ decimal n) (λ n. text.now ≡ decimal n) }
{
    if has_lead(text.as_bytes()) {
        return None;
    }
    text.parse::<u64>().ok()
}

/// The number of the first field, and what follows its tab.
pub fn number_at(alloc: Global, bytes: &[u8]) -> Result<(u64, &[u8]), LineFault>
    ensures found { IfOk result (λ read. Begins number IsNumber bytes.now read.0 read.1.now) }
    ensures refused { IsErrOf result LineFault.NotGood → BeginsNone number IsNumber bytes.now }
{
    let (text, rest) = field_at(alloc, bytes)?;
    match number_of(text.as_str()) {
        Some(n) => Ok((n, rest)),
        None => Err(LineFault::NotGood),
    }
}

/// The digest of the first field, and what follows its tab.
pub fn digest_at(alloc: Global, bytes: &[u8]) -> Result<(Text, &[u8]), LineFault>
    ensures found { IfOk result (λ read. Begins field IsDigest bytes.now read.0 read.1.now) }
    ensures refused { IsErrOf result LineFault.NotGood → BeginsNone field IsDigest bytes.now }
{
    let (text, rest) = field_at(alloc, bytes)?;
    if !is_digest(text.as_str()) {
        return Err(LineFault::NotGood);
    }
    let digest = owned(alloc, text)?;
    Ok((digest, rest))
}

/// Whether the first field is the mark of a name in quotes or in angle brackets, and what follows its tab.
pub fn mark_at(bytes: &[u8]) -> Option<(bool, &[u8])>
    ensures { MatchOption result (HasNoMark bytes.now) (λ read. bytes.now ≡ mark_field read.0 ++ read.1.now) }
{
    match bytes {
        [b'q', b'\t', rest @ ..] => Some((true, rest)),
        [b'a', b'\t', rest @ ..] => Some((false, rest)),
        _ => None,
    }
}

/// The kind of line that the first field tells, and what follows its tab.
pub fn tag_at(bytes: &[u8]) -> Option<(Tag, &[u8])>
    ensures { MatchOption result (HasNoTag bytes.now) (λ read. bytes.now ≡ tag_field read.0 ++ read.1.now) }
{
    match bytes {
        [b'+', b'1', b'\t', rest @ ..] => Some((Tag::Record, rest)),
        [b'+', b'2', b'\t', rest @ ..] => Some((Tag::Digested, rest)),
        [b'-', b'1', b'\t', rest @ ..] => Some((Tag::Drop, rest)),
        [b's', b'1', b'\t', rest @ ..] => Some((Tag::Scan, rest)),
        _ => None,
    }
}
