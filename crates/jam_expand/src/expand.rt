//! What a word stands for.
ghost use Rattle.std.specs.Prelude.{◌≡◌, ◌≢◌, [], ◌∷◌, ◌++◌, All, IfOk, OnOk};
ghost use Rattle.b2_base.specs.Bytes.{HasNoZero};
ghost use Rattle.b2_base.specs.Results.{and_then};
ghost use Rattle.jam_expand.specs.Expansions.{list_of, elements_at, expansion};
ghost use Rattle.jam_expand.specs.Limits.{within, IsGivenBy};
ghost use Rattle.jam_expand.specs.Shown.{shown};
ghost use Rattle.jam_expand.specs.Values.{values_of_all};
ghost use Rattle.jam_expand.specs.Words.{bytes_of, deeper, too_deep};

use crate::gather::values_of_all;
use crate::limit::LimitedList;
use crate::piece::{Piece, pieces_of};
use crate::plain::{bare_name, copied, is_plain};
use crate::product::{product, single};
pub use b2_base::expand_fault::ExpandFault;
use b2_base::fault::OutOfMemory;
use b2_base::look::Look;
use b2_base::text::Text;
use b2_base::text_list::TextList;
use std::alloc::Global;

/// How deep parts may be nested in one word.
pub(crate) const LEVELS: usize = 16;

/// Whether a part is nested too deep, where so many may still be nested.
#[cycle(depth)]
fn is_too_deep(alloc: Global, levels: usize, inside: &str) -> Result<bool, OutOfMemory>
    ensures { IfOk result (λ deep. deep ≡ too_deep levels inside.now) }
{
    if levels == 0 {
        return Ok(true);
    }
    is_deeper(alloc, levels - 1, inside)
}

/// Whether the parts of a word are nested more than so many deep.
#[cycle(depth)]
pub(crate) fn is_deeper(alloc: Global, levels: usize, word: &str) -> Result<bool, OutOfMemory>
    ensures { IfOk result (λ deep. deep ≡ deeper levels word.now) }
{
    if is_plain(word) {
        return Ok(false);
    }
    let pieces = pieces_of(alloc, word)?;
    for piece in pieces.as_slice() {
        if let Piece::Part(inside) = piece {
            if is_too_deep(alloc, levels, inside)? {
                return Ok(true);
            }
        }
    }
    Ok(false)
}

pub(crate) fn push_list(lists: &mut Vec<TextList>, list: TextList) -> Result<(), OutOfMemory>
    ensures { OnOk result (lists.new.items ≡ lists.old.items ++ list ∷ []) }
{
    lists.push(list)?;
    Ok(())
}

/// A word without parts, as its only element.
fn itself(alloc: Global, word: &str) -> Result<TextList, ExpandFault>
    requires { HasNoZero word.now }
    ensures { IsGivenBy result (within (word.now ∷ [])) }
{
    let mut gathered = LimitedList::new(alloc);
    gathered.push(Text::new(alloc, word)?)?;
    Ok(gathered.into_list())
}

/// The values of a part, in whose inside parts are nested at most so many deep.
#[cycle(expand)]
fn values_at<L: Look>(
    alloc: Global,
    levels: usize,
    inside: &str,
    look: &L,
) -> Result<TextList, ExpandFault>
    requires { HasNoZero inside.now }
    ensures { IsGivenBy result (and_then (values_of_all (L.answer look.now)) (elements_at levels (L.answer look.now) inside.now)) }
{
    let texts = elements_at(alloc, levels, inside, look)?;
    values_of_all(alloc, texts.as_slice(), look)
}

/// The list of a piece, whose part holds parts that are nested at most so many deep.
#[cycle(expand)]
pub(crate) fn list_of<L: Look>(
    alloc: Global,
    levels: usize,
    piece: &Piece,
    look: &L,
) -> Result<TextList, ExpandFault>
    requires { HasNoZero (bytes_of (shown piece.now)) }
    ensures { IsGivenBy result (list_of (λ inside. and_then (values_of_all (L.answer look.now)) (elements_at levels (L.answer look.now) inside)) (shown piece.now)) }
{
    match piece {
        Piece::Literal(text) => Ok(single(alloc, text)?),
        Piece::Part(inside) => values_at(alloc, levels, inside, look),
    }
}

/// The elements of a word whose parts are nested at most so many deep.
#[cycle(expand)]
fn elements_at<L: Look>(
    alloc: Global,
    levels: usize,
    word: &str,
    look: &L,
) -> Result<TextList, ExpandFault>
    requires { HasNoZero word.now }
    ensures { IsGivenBy result (elements_at levels (L.answer look.now) word.now) }
{
    if levels == 0 {
        return itself(alloc, word);
    }
    if is_plain(word) {
        return itself(alloc, word);
    }
    let pieces = pieces_of(alloc, word)?;
    let mut lists = Vec::new(alloc);
    for piece in pieces.as_slice() {
        let list = list_of(alloc, levels - 1, piece, look)?;
        push_list(&mut lists, list)?;
    }
    product(alloc, lists)
}

/// The elements of a word that is cut into its pieces, unless its parts are nested too deep.
fn cut_and_expanded<L: Look>(alloc: Global, word: &str, look: &L) -> Result<TextList, ExpandFault>
    requires { HasNoZero word.now }
    ensures { IsGivenBy result (expansion (L.answer look.now) word.now) }
{
    if is_deeper(alloc, LEVELS, word)? {
        return Err(ExpandFault::TooDeep);
    }
    elements_at(alloc, LEVELS, word, look)
}

/// The elements of a word. One without a `$`, and one that is a bare name, are not cut.
fn expanded<L: Look>(alloc: Global, word: &str, look: &L) -> Result<TextList, ExpandFault>
    requires { HasNoZero word.now }
    ensures { IsGivenBy result (expansion (L.answer look.now) word.now) }
{
    if is_plain(word) {
        return itself(alloc, word);
    }
    match bare_name(word) {
        Some(name) => copied(alloc, look.look(name)),
        None => cut_and_expanded(alloc, word, look),
    }
}

/// The elements of a word for what the names stand for.
///
/// A word is cut into literal text and parts, each from a `$(` to the `)` that closes it; a `$(` that nothing closes is
/// literal, and so is any other `$`. The inside of a part is expanded first. Each element that this gives is a name up to
/// the first `[` or `:`, with an index and modifiers; the values of all of them are the part's list. The elements are the
/// product of the lists, the leftmost varying slowest.
///
/// `TooDeep` comes where parts are nested more than 16 deep, and before all else. The other faults come in the order of
/// evaluation: the parts from left to right, the inside of a part before the part, in a part one text after the other,
/// its index before its modifiers, and the product last. `BadIndex` has the text of the index, and `BadModifier` the rest
/// of the text from the bad modifier on. A list is `TooLarge` where the elements' lengths plus one each, added in order,
/// come above 16,777,216; `bytes` is the first such sum.
pub fn expand<L: Look>(alloc: Global, word: &str, look: &L) -> Result<TextList, ExpandFault>
    requires { HasNoZero word.now }
    ensures exact { IsGivenBy result (expansion (L.answer look.now) word.now) }
    // A word without a `$` (36) is its only element.
    ensures itself { All (λ byte. byte ≢ 36) word.now → IsGivenBy result (within (word.now ∷ [])) }
{
    expanded(alloc, word, look)
}
