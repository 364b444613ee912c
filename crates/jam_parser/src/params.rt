//! Reading the parameters of a rule.
ghost use Rattle.std.specs.Prelude.{◌≡◌, ℕ, ◌∷◌, [], true, false, IsTrue, MatchOption, MatchResult};
ghost use Rattle.jam_grammar.specs.Spelling.{mark_syms, plist_syms};
ghost use Rattle.jam_grammar.specs.Grammar.{Params, Names, NameTail};
ghost use Rattle.jam_grammar.specs.Marks.{mark_of_token, is_name};
ghost use Rattle.jam_grammar.specs.declared.mark.TokenMark.TheVariants as marks;
ghost use Rattle.jam_parser.specs.Starts.{starts_name, starts_with, StandsAfter};
ghost use Rattle.jam_parser.specs.PartReadings.{IsRead, ComesTo, EndsBy};
ghost use Rattle.jam_parser.specs.Params.{after_name, after_list, params_read};
ghost use Rattle.jam_grammar.specs.Trees.{lists_of};

use crate::reading::{ReadingFault, next_of, past};
use b2_base::fault::OutOfMemory;
use b2_base::text::Text;
use b2_base::token::Token;
use jam_grammar::mark::TokenMark;
use jam_grammar::tree::Param;
use std::alloc::Global;

/// The name that stands here, if one may come and does, and what stands after it.
fn next_name<'a>(rest: &'a [Token], may_come: bool) -> Option<(&'a Token, &'a [Token])>
    ensures { MatchOption result (may_come ≡ true → starts_name rest.now ≡ false) (λ next. (may_come ≡ true) × (rest.now ≡ next.0.now ∷ next.1.now) × IsTrue (is_name (mark_of_token next.0.now))) }
{
    match next_of(rest) {
        Some(
            (
                TokenMark::Plain | TokenMark::Together | TokenMark::Existing | TokenMark::Quietly,
                first,
                after,
            ),
        ) if may_come => Some((first, after)),
        _ => None,
    }
}

/// The mark after a name, whether more names may come, and what stands after it.
fn mark_after(rest: &[Token]) -> (Option<char>, bool, &[Token])
    ensures { (depth : ℕ) → ComesTo (NameTail ∷ []) (after_name result.1) rest.now depth (mark_syms result.0) result.2.now }
{
    match next_of(rest) {
        Some((TokenMark::Query, _, after)) => (Some('?'), true, after),
        Some((TokenMark::Star, _, after)) => (Some('*'), false, after),
        Some((TokenMark::Plus, _, after)) => (Some('+'), false, after),
        _ => (None, true, rest),
    }
}

/// Reads names with their marks as long as there are.
fn names<'a>(
    alloc: Global,
    rest: &'a [Token],
    depth: u8,
) -> Result<(Vec<Param>, &'a [Token]), OutOfMemory>
    ensures { MatchResult result (λ r. IsRead (Names ∷ []) rest.now depth (plist_syms r.0.items) r.1.now) (λ e. Unit {0}) }
{
    let mut found = Vec::new(alloc);
    let mut left = rest;
    let mut may_come = true;
    'each: while let Some((first, after)) = next_name(left, may_come) {
        let (mark, more, after) = mark_after(after);
        let name = first.text.copy()?;
        found.push(Param { name, mark })?;
        may_come = more;
        left = after;
    }
    Ok((found, left))
}

/// Reads a list of parameters: `*` alone, which has to be the last list, or names with their marks.
fn list<'a>(
    alloc: Global,
    rest: &'a [Token],
    depth: u8,
) -> Result<(Vec<Param>, bool, &'a [Token]), OutOfMemory>
    ensures { MatchResult result (λ r. ComesTo (Params ∷ []) (after_list r.1) rest.now depth (plist_syms r.0.items) r.2.now) (λ e. Unit {0}) }
{
    match past(rest, TokenMark::Star) {
        Some(after) => {
            let mut found = Vec::new(alloc);
            let name = Text::new(alloc, "*")?;
            found.push(Param { name, mark: None })?;
            Ok((found, true, after))
        }
        None => {
            let (found, after) = names(alloc, rest, depth)?;
            Ok((found, false, after))
        }
    }
}

/// What stands after the colon before one more list, if that may come and does.
fn further<'a>(rest: &'a [Token], last: bool) -> Option<&'a [Token]>
    ensures { MatchOption result (last ≡ false → starts_with marks.Colon rest.now ≡ false) (λ after. (last ≡ false) × StandsAfter marks.Colon rest.now after.now) }
{
    if last {
        None
    } else {
        past(rest, TokenMark::Colon)
    }
}

/// Reads the lists of parameters between parentheses.
pub fn params<'a>(
    alloc: Global,
    rest: &'a [Token],
    depth: u8,
) -> Result<(Vec<Vec<Param>>, &'a [Token]), ReadingFault<'a>>
    ensures { MatchResult result (λ r. IsRead (Params ∷ []) rest.now depth (params_read (lists_of r.0.items)) r.1.now) (λ e. EndsBy (Params ∷ []) rest.now depth e) }
{
    let mut found = Vec::new(alloc);
    let (first, mut last, mut left) = list(alloc, rest, depth)?;
    found.push(first)?;
    'colon: while let Some(after) = further(left, last) {
        let (one, now_last, after) = list(alloc, after, depth)?;
        found.push(one)?;
        last = now_last;
        left = after;
    }
    Ok((found, left))
}
