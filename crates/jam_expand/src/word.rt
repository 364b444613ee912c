//! Words that are read once and expanded often.
ghost use Rattle.std.specs.Prelude.{◌≡◌, ◌∷◌, ◌++◌, [], IfOk, IfSome, Ok, map};
ghost use Rattle.b2_base.specs.Bytes.{HasNoZero};
ghost use Rattle.b2_base.specs.Results.{and_then};
ghost use Rattle.jam_expand.specs.Expansions.{elements_at, expansion, product_of_pieces};
ghost use Rattle.jam_expand.specs.Limits.{within, IsGivenBy};
ghost use Rattle.jam_expand.specs.OwnPieces.{owned, IsOfKind};
ghost use Rattle.jam_expand.specs.Shown.{shown};
ghost use Rattle.jam_expand.specs.Values.{values_of_all};
ghost use Rattle.jam_expand.specs.Words.{bytes_of, pieces_of};
ghost use Rattle.jam_expand.specs.declared.word.WordKind.TheVariants as kinds;

use crate::cut::after_sign;
use crate::expand::{LEVELS, expand, is_deeper, list_of, push_list};
use crate::piece::{Piece, pieces_of};
use crate::plain::{bare_name, before_close, copied, is_plain};
use crate::product::{product, sum_after};
use b2_base::expand_fault::ExpandFault;
use b2_base::fault::OutOfMemory;
use b2_base::look::Look;
use b2_base::text::Text;
use b2_base::text_list::TextList;
use std::alloc::Global;
use std::marker::Model;
use std::slice;

/// A piece of a word, with a text of its own.
#[derive(Drop)]
pub(crate) enum OwnPiece {
    /// Text that stands for itself.
    Literal(Text),
    /// What stands between `$(` and its `)`.
    Part(Text),
}

/// How a word is read.
#[derive(Drop)]
pub(crate) enum WordKind {
    /// It has no `$`.
    Plain,
    /// It is one bare name in `$(` and `)`.
    Variable,
    /// Its pieces, in order.
    Cut(Vec<OwnPiece>),
    /// Its parts are nested too deep.
    TooDeep,
}

/// A word, and how it is read, which is found once. Seen as the bytes of the word.
pub struct Word {
    text: Text,
    kind: WordKind,
}

/// By hand, so that dropping one is one call.
impl Drop for Word {
    fn drop(self) {
        let Word { text, kind } = self;
        drop(text);
        drop(kind);
    }
}

impl Model for Word {
    ghost use Rattle.std.specs.Prelude.{ℕ, List};
    ghost use Rattle.jam_expand.specs.OwnPieces.{IsOfKind};

    ghost Value = { List ℕ };

    ghost view = { λ w. w.text };

    ghost invariant = { λ w. IsOfKind w.text w.kind };
}

impl OwnPiece {
    /// The piece as one of a text.
    fn lent(&self) -> Piece<'_>
        ensures value { shown result ≡ owned self.now }
        ensures no_zero { HasNoZero (bytes_of (owned self.now)) }
    {
        match self {
            OwnPiece::Literal(text) => Piece::Literal(text.as_str()),
            OwnPiece::Part(inside) => Piece::Part(inside.as_str()),
        }
    }
}

/// A copy of a piece.
fn owned(alloc: Global, piece: &Piece<'_>) -> Result<OwnPiece, OutOfMemory>
    requires { HasNoZero (bytes_of (shown piece.now)) }
    ensures { IfOk result (λ made. owned made ≡ shown piece.now) }
{
    match piece {
        Piece::Literal(text) => Ok(OwnPiece::Literal(Text::new(alloc, text)?)),
        Piece::Part(inside) => Ok(OwnPiece::Part(Text::new(alloc, inside)?)),
    }
}

/// The pieces of a word, in order.
fn own_pieces(alloc: Global, word: &str) -> Result<Vec<OwnPiece>, OutOfMemory>
    requires { HasNoZero word.now }
    ensures { IfOk result (λ made. map owned made.items ≡ pieces_of word.now) }
{
    let pieces = pieces_of(alloc, word)?;
    let mut made = Vec::new(alloc);
    made.reserve_exact(pieces.len())?;
    for piece in pieces.as_slice() {
        let own = owned(alloc, piece)?;
        made.push(own)?;
    }
    Ok(made)
}

/// How a word is read that is cut.
fn cut_kind(alloc: Global, word: &str) -> Result<WordKind, OutOfMemory>
    requires { HasNoZero word.now }
    ensures { IfOk result (IsOfKind word.now) }
{
    if is_deeper(alloc, LEVELS, word)? {
        return Ok(WordKind::TooDeep);
    }
    let pieces = own_pieces(alloc, word)?;
    Ok(WordKind::Cut(pieces))
}

/// How a word is read.
fn kind_of(alloc: Global, word: &str) -> Result<WordKind, OutOfMemory>
    requires { HasNoZero word.now }
    ensures { IfOk result (IsOfKind word.now) }
{
    if is_plain(word) {
        return Ok(WordKind::Plain);
    }
    match bare_name(word) {
        Some(_) => Ok(WordKind::Variable),
        None => cut_kind(alloc, word),
    }
}

/// What stands between `$(` at the beginning and `)` at the end.
fn between(word: &str) -> Option<&str>
    ensures { IfSome result (λ name. word.now ≡ 36 ∷ 40 ∷ (name.now ++ 41 ∷ [])) }
{
    before_close(after_sign(after_sign(word, b'$')?, b'(')?)
}

/// The elements of a word that is one bare name.
fn variable<L: Look>(alloc: Global, word: &str, look: &L) -> Result<TextList, ExpandFault>
    requires no_zero { HasNoZero word.now }
    requires kind { IsOfKind word.now kinds.Variable }
    ensures { IsGivenBy result (expansion (L.answer look.now) word.now) }
{
    match between(word) {
        Some(name) => copied(alloc, look.look(name)),
        None => expand(alloc, word, look),
    }
}

/// No list, with room for so many.
fn no_lists(alloc: Global, room: usize) -> Result<Vec<TextList>, OutOfMemory>
    ensures { IfOk result (λ made. made.items ≡ []) }
{
    let mut made = Vec::new(alloc);
    made.reserve_exact(room)?;
    Ok(made)
}

/// The elements of pieces.
fn product_of_pieces<L: Look>(
    alloc: Global,
    pieces: &[OwnPiece],
    look: &L,
) -> Result<TextList, ExpandFault>
    ensures { IsGivenBy result (product_of_pieces (λ inside. and_then (values_of_all (L.answer look.now)) (elements_at 15 (L.answer look.now) inside)) (map owned pieces.now)) }
{
    let mut lists = no_lists(alloc, pieces.len())?;
    for piece in pieces {
        let list = list_of(alloc, LEVELS - 1, &piece.lent(), look)?;
        push_list(&mut lists, list)?;
    }
    product(alloc, lists)
}

/// The texts, unless they are too large.
fn unless_large(texts: &[Text]) -> Option<&[Text]>
    ensures { IfSome result (λ list. within texts.now ≡ Ok list.now) }
{
    let Ok(_sum) = sum_after(0, 0, texts) else {
        return None;
    };
    Some(texts)
}

impl Word {
    /// Reads a word.
    pub fn new(alloc: Global, text: Text) -> Result<Word, OutOfMemory>
        ensures { IfOk result (λ made. made ≡ text) }
    {
        let kind = kind_of(alloc, text.as_str())?;
        Ok(Word { text, kind })
    }

    /// The word as it is written.
    pub fn text(&self) -> &Text
        ensures { result.now ≡ self.now }
    {
        &self.text
    }

    /// The elements of the word for what the names stand for: those that `expand` gives.
    pub fn expand<L: Look>(&self, alloc: Global, look: &L) -> Result<TextList, ExpandFault>
        ensures { IsGivenBy result (expansion (L.answer look.now) self.now) }
    {
        match &self.kind {
            WordKind::Plain => copied(alloc, slice::from_ref(&self.text)),
            WordKind::Variable => variable(alloc, self.text.as_str(), look),
            WordKind::Cut(pieces) => product_of_pieces(alloc, pieces.as_slice(), look),
            WordKind::TooDeep => Err(ExpandFault::TooDeep),
        }
    }

    /// The elements of the word where they stand already: the word itself, where it is plain, and the list of its variable. None
    /// where it has to be put together, or is too large. Takes no memory.
    pub fn lent<'a, L: Look>(&'a self, look: &'a L) -> Option<&'a [Text]>
        ensures { IfSome result (λ list. expansion (L.answer look.now) self.now ≡ Ok list.now) }
    {
        match &self.kind {
            WordKind::Plain => unless_large(slice::from_ref(&self.text)),
            WordKind::Variable => {
                let name = between(self.text.as_str())?;
                unless_large(look.look(name))
            }
            WordKind::Cut(_) | WordKind::TooDeep => None,
        }
    }
}
