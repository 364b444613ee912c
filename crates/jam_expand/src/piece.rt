//! A word, cut into literal text and parts.
ghost use Rattle.std.specs.Prelude.{◌≡◌, ◌-◌, ◌^◌, ◌<◌, ◌++◌, length, drop, take, map, None, IfOk, OnOk, IfSome, IfNone, if◌then◌else◌};
ghost use Rattle.jam_expand.specs.Unclosed.{spare_with, unclosed_after, ends_at};
ghost use Rattle.jam_expand.specs.Words.{closing, inside_len, literal_of, pieces_of};
ghost use Rattle.jam_expand.specs.Shown.{shown, IsPartAt};

use b2_base::fault::OutOfMemory;
use std::alloc::Global;

/// A piece of a word.
#[derive(Drop)]
pub enum Piece<'a> {
    /// Text that stands for itself.
    Literal(&'a str),
    /// What stands between `$(` and its `)`.
    Part(&'a str),
}

/// How many bytes stand before the `)` that closes.
fn closing_len(bytes: &[u8]) -> Option<usize>
    ensures exact { result ≡ closing 0 0 bytes.now }
{
    let mut depth = 0usize;
    for (place, byte) in bytes.iter().enumerate() {
        match byte {
            b')' if depth == 0 => return Some(place),
            b')' => depth -= 1,
            b'(' => depth += 1,
            _ => {}
        }
    }
    None
}

/// How long the inside of a part is that begins here, if one does.
fn inside_len(bytes: &[u8]) -> Option<usize>
    ensures exact { result ≡ inside_len bytes.now }
{
    if bytes.len() < 2 || bytes[0] != b'$' || bytes[1] != b'(' {
        return None;
    }
    closing_len(&bytes[2..])
}

/// Adds literal text, if there is some.
fn push_literal<'a>(pieces: &mut Vec<Piece<'a>>, text: &'a str) -> Result<(), OutOfMemory>
    ensures { OnOk result (map shown pieces.new.items ≡ map shown pieces.old.items ++ literal_of text.now) }
{
    if !text.is_empty() {
        pieces.push(Piece::Literal(text))?;
    }
    Ok(())
}

/// The inside of a part that begins at this place, and the place after it.
fn part_at(word: &str, at: usize) -> Option<(&str, usize)>
    requires { at < length word.now }
    ensures found { IfSome result (λ part. IsPartAt word.now at part.0.now part.1) }
    ensures none { IfNone result (inside_len (drop at word.now) ≡ None) }
{
    let (_, bytes) = word.as_bytes().split_at(at);
    let len = inside_len(bytes)?;
    let after = at + len + 3;
    Some((&word[at + 2..after - 1], after))
}

/// How many `)` have no `(` of their own, where so many have none in what stands after the byte.
fn spare_with(byte: u8, spare: usize) -> usize
    requires { spare < 2 ^ 63 }
    ensures { result ≡ spare_with byte spare }
{
    if byte == b')' {
        spare + 1
    } else if byte == b'(' {
        spare.saturating_sub(1)
    } else {
        spare
    }
}

/// The places of each `$(` that nothing closes, the last first. One pass from the end finds them.
fn unclosed_places(alloc: Global, bytes: &[u8]) -> Result<Vec<usize>, OutOfMemory>
    ensures { IfOk result (λ places. places.items ≡ unclosed_after 0 bytes.now) }
{
    let mut places = Vec::new(alloc);
    let mut spare = 0;
    let mut opens = false;
    let mut at = bytes.len();
    'bytes: while at > 0 {
        at -= 1;
        let byte = bytes[at];
        if opens && byte == b'$' {
            places.push(at)?;
        }
        opens = byte == b'(' && spare == 0;
        spare = spare_with(byte, spare);
    }
    Ok(places)
}

/// Whether the places end with this one, which is then taken away.
fn take_last(places: &mut Vec<usize>, place: usize) -> bool
    ensures last { result ≡ ends_at place places.old.items }
    ensures left { places.new.items ≡ (if result then take (length places.old.items - 1) places.old.items else places.old.items) }
{
    let len = places.len();
    if len == 0 || places[len - 1] != place {
        return false;
    }
    places.truncate(len - 1);
    true
}

/// The pieces of a word, in order: plain text and references to variables.
pub fn pieces_of<'a>(alloc: Global, word: &'a str) -> Result<Vec<Piece<'a>>, OutOfMemory>
    ensures { IfOk result (λ pieces. map shown pieces.items ≡ pieces_of word.now) }
{
    let mut pieces = Vec::new(alloc);
    let mut unclosed = unclosed_places(alloc, word.as_bytes())?;
    let mut start = 0;
    let mut at = 0;
    'bytes: while at < word.len() {
        if take_last(&mut unclosed, at) {
            at += 1;
            continue 'bytes;
        }
        match part_at(word, at) {
            None => at += 1,
            Some((inside, after)) => {
                push_literal(&mut pieces, &word[start..at])?;
                pieces.push(Piece::Part(inside))?;
                at = after;
                start = after;
            }
        }
    }
    push_literal(&mut pieces, &word[start..])?;
    Ok(pieces)
}
