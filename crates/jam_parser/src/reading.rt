//! The next token, and what reading answers.
ghost use Rattle.std.specs.Prelude.{◌≡◌, [], ◌∷◌, false, IsTrue, MatchOption, MatchResult};
ghost use Rattle.jam_grammar.specs.Marks.{mark_of_token, is_word};
ghost use Rattle.jam_grammar.specs.Grammar.{Key, OneWord};
ghost use Rattle.jam_grammar.specs.Spelling as spelling;
ghost use Rattle.jam_grammar.specs.declared.mark.TokenMark.TheVariants as marks;
ghost use Rattle.jam_parser.specs.Starts.{starts_with, starts_word, StandsAfter};
ghost use Rattle.jam_parser.specs.PartReadings.{IsRead, EndsBy};

use b2_base::fault::OutOfMemory;
use b2_base::text::Text;
use b2_base::token::Token;
use jam_grammar::mark::{TokenMark, mark_of};
use std::alloc::{AllocError, AllocFailed};

/// Why nothing is read.
#[derive(Drop)]
pub enum ReadingFault<'a> {
    /// No memory was left.
    Memory,
    /// At the first of these tokens, or at the end of the file where there is none.
    At(&'a [Token]),
}

impl From<OutOfMemory> for ReadingFault<'_> {
    ghost use Rattle.std.specs.Prelude.{◌≡◌};
    ghost use Rattle.jam_parser.specs.declared.reading.ReadingFault.TheVariants.{Memory};

    ghost from_gives = { λ _ e. e ≡ Memory };

    fn from(_error: OutOfMemory) -> Self {
        ReadingFault::Memory
    }
}

impl From<AllocError> for ReadingFault<'_> {
    ghost use Rattle.std.specs.Prelude.{◌≡◌};
    ghost use Rattle.jam_parser.specs.declared.reading.ReadingFault.TheVariants.{Memory};

    ghost from_gives = { λ _ e. e ≡ Memory };

    fn from(_error: AllocError) -> Self {
        ReadingFault::Memory
    }
}

impl<T: Drop> From<AllocFailed<T>> for ReadingFault<'_> {
    ghost use Rattle.std.specs.Prelude.{◌≡◌};
    ghost use Rattle.jam_parser.specs.declared.reading.ReadingFault.TheVariants.{Memory};

    ghost from_gives = { λ _ e. e ≡ Memory };

    fn from(_error: AllocFailed<T>) -> Self {
        ReadingFault::Memory
    }
}

/// The first token with its mark, and those after it.
pub fn next_of(rest: &[Token]) -> Option<(TokenMark, &Token, &[Token])>
    ensures { MatchOption result (rest.now ≡ []) (λ next. (rest.now ≡ next.1.now ∷ next.2.now) × (mark_of_token next.1.now ≡ next.0)) }
{
    match rest {
        [] => None,
        [first, after @ ..] => Some((mark_of(first), first, after)),
    }
}

/// The first token, if it has this mark, and those after it.
pub fn first_of<'a>(rest: &'a [Token], want: TokenMark) -> Option<(&'a Token, &'a [Token])>
    ensures { MatchOption result (starts_with want rest.now ≡ false) (λ next. (rest.now ≡ next.0.now ∷ next.1.now) × (mark_of_token next.0.now ≡ want)) }
{
    match next_of(rest) {
        Some((mark, first, after)) if mark == want => Some((first, after)),
        _ => None,
    }
}

/// What stands after this mark, if it stands here.
pub fn past<'a>(rest: &'a [Token], want: TokenMark) -> Option<&'a [Token]>
    ensures { MatchOption result (starts_with want rest.now ≡ false) (λ after. StandsAfter want rest.now after.now) }
{
    match first_of(rest, want) {
        Some((_, after)) => Some(after),
        None => None,
    }
}

/// The first token, if it is a word, and those after it.
pub fn word_of(rest: &[Token]) -> Option<(&Token, &[Token])>
    ensures { MatchOption result (starts_word rest.now ≡ false) (λ next. (rest.now ≡ next.0.now ∷ next.1.now) × IsTrue (is_word (mark_of_token next.0.now))) }
{
    match next_of(rest) {
        Some(
            (
                TokenMark::Plain
                | TokenMark::Query
                | TokenMark::Star
                | TokenMark::Plus
                | TokenMark::Together
                | TokenMark::Existing
                | TokenMark::Quietly,
                first,
                after,
            ),
        ) => Some((first, after)),
        _ => None,
    }
}

/// Goes past a key that has to stand here.
pub fn key_here<'a>(
    rest: &'a [Token],
    want: TokenMark,
    depth: u8,
) -> Result<&'a [Token], ReadingFault<'a>>
    ensures { MatchResult result (λ after. IsRead (Key want ∷ []) rest.now depth (spelling.Key want ∷ []) after.now) (λ e. EndsBy (Key want ∷ []) rest.now depth e) }
{
    match past(rest, want) {
        Some(after) => Ok(after),
        None => Err(ReadingFault::At(rest)),
    }
}

/// Reads a word that has to stand here.
pub fn word_here<'a>(rest: &'a [Token], depth: u8) -> Result<(Text, &'a [Token]), ReadingFault<'a>>
    ensures { MatchResult result (λ r. IsRead (OneWord ∷ []) rest.now depth (spelling.Says r.0 ∷ []) r.1.now) (λ e. EndsBy (OneWord ∷ []) rest.now depth e) }
{
    match word_of(rest) {
        Some((first, after)) => Ok((first.text.copy()?, after)),
        None => Err(ReadingFault::At(rest)),
    }
}

/// Reads a body that has to stand here.
pub fn body_here<'a>(rest: &'a [Token], depth: u8) -> Result<(Text, &'a [Token]), ReadingFault<'a>>
    ensures { MatchResult result (λ r. IsRead (Key marks.Body ∷ []) rest.now depth (spelling.Raw r.0 ∷ []) r.1.now) (λ e. EndsBy (Key marks.Body ∷ []) rest.now depth e) }
{
    match first_of(rest, TokenMark::Body) {
        Some((first, after)) => Ok((first.text.copy()?, after)),
        None => Err(ReadingFault::At(rest)),
    }
}
