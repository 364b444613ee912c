//! Reading the modifiers and the name of actions.
ghost use Rattle.std.specs.Prelude.{◌≡◌, ◌∷◌, [], MatchOption, MatchResult};
ghost use Rattle.jam_parser.specs.Starts.{starts_word};
ghost use Rattle.jam_parser.specs.Headings.{heading_of, head_syms, unless, switched, GoesOn, NoModifier};
ghost use Rattle.jam_parser.specs.PartReadings.{IsRead, EndsBy};

use crate::reading::{ReadingFault, next_of, word_of};
use b2_base::text::Text;
use b2_base::token::Token;
use jam_grammar::mark::TokenMark;

/// Which modifiers of actions have stood.
#[derive(Clone, Copy)]
pub struct Modes {
    pub together: bool,
    pub existing: bool,
    pub quietly: bool,
}

/// The modifiers with one more, unless it has stood.
fn unless(stood: bool, more: Modes) -> Option<Modes>
    ensures { result ≡ unless stood more }
{
    if stood { None } else { Some(more) }
}

/// The modifiers with the one of this mark, if it is one and has not stood.
fn switched(stood: Modes, mark: TokenMark) -> Option<Modes>
    ensures { result ≡ switched stood.together stood.existing stood.quietly mark }
{
    match mark {
        TokenMark::Together => unless(
            stood.together,
            Modes {
                together: true,
                ..stood
            },
        ),
        TokenMark::Existing => unless(
            stood.existing,
            Modes {
                existing: true,
                ..stood
            },
        ),
        TokenMark::Quietly => unless(
            stood.quietly,
            Modes {
                quietly: true,
                ..stood
            },
        ),
        _ => None,
    }
}

/// Whether a word stands here.
fn at_word(rest: &[Token]) -> bool
    ensures { result ≡ starts_word rest.now }
{
    match word_of(rest) {
        Some(_) => true,
        None => false,
    }
}

/// The modifiers with the one that stands here, and what stands after it. One that has stood, or behind which no word
/// stands, is the name.
fn modifier(rest: &[Token], stood: Modes) -> Option<(Modes, &[Token])>
    ensures { MatchOption result (NoModifier stood rest.now) (λ next. GoesOn stood rest.now next.0 next.1.now) }
{
    match next_of(rest) {
        None => None,
        Some((mark, _, after)) => match switched(stood, mark) {
            Some(more) if at_word(after) => Some((more, after)),
            _ => None,
        },
    }
}

/// Reads the modifiers that stand here after those that stood, and the name.
pub fn heading<'a>(
    rest: &'a [Token],
    stood: Modes,
    depth: u8,
) -> Result<(Modes, Text, &'a [Token]), ReadingFault<'a>>
    ensures { MatchResult result (λ r. IsRead (heading_of stood ∷ []) rest.now depth (head_syms stood r.0 r.1) r.2.now) (λ e. EndsBy (heading_of stood ∷ []) rest.now depth e) }
{
    match modifier(rest, stood) {
        Some((more, after)) => heading(after, more, depth),
        None => match word_of(rest) {
            Some((first, after)) => Ok((stood, first.text.copy()?, after)),
            None => Err(ReadingFault::At(rest)),
        },
    }
}
