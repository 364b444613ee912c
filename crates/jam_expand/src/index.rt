//! An index, which selects elements of a list.
ghost use Rattle.std.specs.Prelude.{◌≡◌, ◌<◌, ◌^◌};
ghost use Rattle.std.specs.List.{list_all};
ghost use Rattle.jam_expand.specs.Indexes.{is_digit, number_of, position_of, end_of, span_of, index_of, place_in, selected};

use crate::cut::len_up_to;
use b2_base::text::Text;

/// A position in a list, counted from 1.
#[derive(Clone, Copy, Drop)]
pub enum Position {
    /// Counted from the first element on.
    Front(usize),
    /// Counted from the last element back.
    Back(usize),
}

/// The positions of a list from one to another.
#[derive(Clone, Copy, Drop)]
pub struct IndexRange {
    /// The first position that is selected.
    pub from: Position,
    /// The last position that is selected.
    pub to: Position,
}

/// Whether each byte is a digit.
fn all_digits(bytes: &[u8]) -> bool
    ensures { result ≡ list_all is_digit bytes.now }
{
    bytes.iter().all(|byte| !(*byte < b'0') && *byte < b':')
}

/// The number that 1 to 9 digits write.
#[tactic(auto, using(crate::proofs::IndexSelectsOneSlice::digit_at, crate::proofs::IndexSelectsOneSlice::digit_more, crate::proofs::IndexSelectsOneSlice::digits_fit))]
fn number_of(digits: &[u8]) -> Option<usize>
    ensures { result ≡ number_of digits.now }
{
    if digits.is_empty() || digits.len() > 9 || !all_digits(digits) {
        return None;
    }
    let mut value = 0;
    for digit in digits {
        value = value * 10 + (*digit - b'0') as usize;
    }
    Some(value)
}

/// A number, counted from the back after a `-`.
fn position_of(text: &[u8]) -> Option<Position>
    ensures { result ≡ position_of text.now }
{
    let (first, after) = text.split_first()?;
    if *first == b'-' {
        let number = number_of(after)?;
        return Some(Position::Back(number));
    }
    let number = number_of(text)?;
    Some(Position::Front(number))
}

/// Where the selection ends whose first position is `first`; `rest` is what stands from the dash on.
fn end_of(first: &[u8], rest: &[u8]) -> Option<Position>
    ensures { result ≡ end_of first.now rest.now }
{
    let Some((_, after)) = rest.split_first() else {
        return position_of(first);
    };
    if after.is_empty() {
        return Some(Position::Back(1));
    }
    position_of(after)
}

fn span_of(first: &[u8], rest: &[u8]) -> Option<IndexRange>
    ensures { result ≡ span_of first.now rest.now }
{
    let from = position_of(first)?;
    let to = end_of(first, rest)?;
    Some(IndexRange { from, to })
}

/// The index that a text is: `n`, `n-` up to the last element, or `n-m`.
pub fn index_of(text: &[u8]) -> Option<IndexRange>
    ensures { result ≡ index_of text.now }
{
    let (_, after) = text.split_first()?;
    let len = len_up_to(after, b"-");
    let (_, rest) = after.split_at(len);
    span_of(&text[..len + 1], rest)
}

/// The place of a position in a list of this length, and 0 where it lies before the list.
fn place_in(len: usize, position: Position) -> usize
    requires { len < 2 ^ 63 }
    ensures { result ≡ place_in len position }
{
    match position {
        Position::Front(number) => number,
        Position::Back(number) => (len + 1).saturating_sub(number),
    }
}

/// The elements that an index selects: those at the positions between its two that exist.
pub fn selected<'a>(texts: &'a [Text], index: Option<IndexRange>) -> &'a [Text]
    ensures { result.now ≡ selected index texts.now }
{
    let Some(index) = index else {
        return texts;
    };
    let to = place_in(texts.len(), index.to).min(texts.len());
    let from = place_in(texts.len(), index.from).saturating_sub(1).min(to);
    &texts[from..to]
}
