//! Reading arguments and lists of them.
ghost use Rattle.std.specs.Prelude.{◌≡◌, ◌<◌, ◌≤◌, ◌∷◌, [], false, MatchOption, MatchResult};
ghost use Rattle.jam_grammar.specs.Spelling.{arg_syms, args_syms, lists_syms, inner_syms};
ghost use Rattle.jam_grammar.specs.Spelling as spelling;
ghost use Rattle.jam_grammar.specs.Grammar.{OneArg, Args, More, OneInner, InnerTail};
ghost use Rattle.jam_grammar.specs.declared.mark.TokenMark.TheVariants as marks;
ghost use Rattle.jam_parser.specs.Starts.{starts_arg, starts_with, StandsAfter};
ghost use Rattle.jam_parser.specs.PartReadings.{IsRead, Completes, EndsBy, in_brackets, ReadsOn};

use crate::reading::{ReadingFault, key_here, next_of, past, word_here};
use b2_base::token::Token;
use jam_expand::word::Word;
use jam_grammar::mark::TokenMark;
use jam_grammar::tree::{Arg, Inner};
use std::alloc::Global;

/// How many braces, brackets, parentheses and what counts as such may be open at once.
pub const MAX_OPEN: u8 = 64;

/// How many lists of arguments a call may have.
pub const MAX_LISTS: usize = 9;

/// Whether an argument begins here.
pub fn at_arg(rest: &[Token]) -> bool
    ensures { result ≡ starts_arg rest.now }
{
    match next_of(rest) {
        Some(
            (
                TokenMark::Plain
                | TokenMark::Query
                | TokenMark::Star
                | TokenMark::Plus
                | TokenMark::Together
                | TokenMark::Existing
                | TokenMark::Quietly
                | TokenMark::SquareOpen,
                _,
                _,
            ),
        ) => true,
        _ => false,
    }
}

/// Reads an argument, where depth are open.
#[cycle(args)]
pub fn arg<'a>(
    alloc: Global,
    rest: &'a [Token],
    depth: u8,
) -> Result<(Arg, &'a [Token]), ReadingFault<'a>>
    requires { depth ≤ 64 }
    ensures { MatchResult result (λ r. IsRead (OneArg ∷ []) rest.now depth (arg_syms r.0) r.1.now) (λ e. EndsBy (OneArg ∷ []) rest.now depth e) }
{
    match past(rest, TokenMark::SquareOpen) {
        Some(after) if depth < MAX_OPEN => bracket(alloc, after, depth),
        Some(_) => Err(ReadingFault::At(rest)),
        None => {
            let (text, after) = word_here(rest, depth)?;
            let word = Word::new(alloc, text)?;
            Ok((Arg::Word(word), after))
        }
    }
}

/// Reads what stands after an opening bracket, which is not counted in depth.
#[cycle(args)]
fn bracket<'a>(
    alloc: Global,
    rest: &'a [Token],
    depth: u8,
) -> Result<(Arg, &'a [Token]), ReadingFault<'a>>
    requires { depth < 64 }
    ensures { MatchResult result (λ r. Completes (spelling.Key marks.SquareOpen ∷ []) in_brackets rest.now depth (arg_syms r.0) r.1.now) (EndsBy in_brackets rest.now depth) }
{
    let (inner, after) = inside(alloc, rest, depth + 1)?;
    let inner = Box::new(alloc, inner)?;
    let after = key_here(after, TokenMark::SquareClose, depth)?;
    Ok((Arg::Bracket(inner), after))
}

/// Reads what stands in brackets.
#[cycle(args)]
fn inside<'a>(
    alloc: Global,
    rest: &'a [Token],
    depth: u8,
) -> Result<(Inner, &'a [Token]), ReadingFault<'a>>
    requires { depth ≤ 64 }
    ensures { MatchResult result (λ r. IsRead (OneInner ∷ []) rest.now depth (inner_syms r.0) r.1.now) (λ e. EndsBy (OneInner ∷ []) rest.now depth e) }
{
    match past(rest, TokenMark::On) {
        Some(after) if depth < MAX_OPEN => on_inside(alloc, after, depth + 1),
        Some(_) => Err(ReadingFault::At(rest)),
        None => call_inside(alloc, rest, depth),
    }
}

/// Reads a call in brackets.
#[cycle(args)]
fn call_inside<'a>(
    alloc: Global,
    rest: &'a [Token],
    depth: u8,
) -> Result<(Inner, &'a [Token]), ReadingFault<'a>>
    requires { depth ≤ 64 }
    ensures { MatchResult result (λ r. IsRead (OneArg ∷ Args ∷ More 8 ∷ []) rest.now depth (inner_syms r.0) r.1.now) (λ e. EndsBy (OneArg ∷ Args ∷ More 8 ∷ []) rest.now depth e) }
{
    let (head, after) = arg(alloc, rest, depth)?;
    let (lists, after) = lists(alloc, after, depth)?;
    Ok((Inner::Call { head, lists }, after))
}

/// Reads what stands after `on` in brackets.
#[cycle(args)]
fn on_inside<'a>(
    alloc: Global,
    rest: &'a [Token],
    depth: u8,
) -> Result<(Inner, &'a [Token]), ReadingFault<'a>>
    requires { depth ≤ 64 }
    ensures { ReadsOn result (spelling.Key marks.On ∷ []) (OneArg ∷ InnerTail ∷ []) rest.now depth (λ r. inner_syms r.0) (λ r. r.1.now) }
{
    let (target, after) = arg(alloc, rest, depth)?;
    match past(after, TokenMark::Return) {
        Some(after) => {
            let (value, after) = args(alloc, after, depth)?;
            Ok((Inner::OnReturn { target, value }, after))
        }
        None => {
            let (inner, after) = inside(alloc, after, depth)?;
            let inner = Box::new(alloc, inner)?;
            Ok((Inner::On { target, inner }, after))
        }
    }
}

/// Reads arguments as long as there are.
#[cycle(args)]
pub fn args<'a>(
    alloc: Global,
    rest: &'a [Token],
    depth: u8,
) -> Result<(Vec<Arg>, &'a [Token]), ReadingFault<'a>>
    requires { depth ≤ 64 }
    ensures { MatchResult result (λ r. IsRead (Args ∷ []) rest.now depth (args_syms r.0.items) r.1.now) (λ e. EndsBy (Args ∷ []) rest.now depth e) }
{
    let mut found = Vec::new(alloc);
    let mut left = rest;
    'each: while at_arg(left) {
        let (one, after) = arg(alloc, left, depth)?;
        found.push(one)?;
        left = after;
    }
    Ok((found, left))
}

/// What stands after the colon before one more list, if that may come and does.
fn further<'a>(rest: &'a [Token], count: usize) -> Option<&'a [Token]>
    ensures { MatchOption result (count < 9 → starts_with marks.Colon rest.now ≡ false) (λ after. (count < 9) × StandsAfter marks.Colon rest.now after.now) }
{
    if count < MAX_LISTS {
        past(rest, TokenMark::Colon)
    } else {
        None
    }
}

/// Reads one to nine lists with colons between them.
#[cycle(args)]
pub fn lists<'a>(
    alloc: Global,
    rest: &'a [Token],
    depth: u8,
) -> Result<(Vec<Vec<Arg>>, &'a [Token]), ReadingFault<'a>>
    requires { depth ≤ 64 }
    ensures { MatchResult result (λ r. IsRead (Args ∷ More 8 ∷ []) rest.now depth (lists_syms r.0.items) r.1.now) (λ e. EndsBy (Args ∷ More 8 ∷ []) rest.now depth e) }
{
    let mut found = Vec::new(alloc);
    let (first, mut left) = args(alloc, rest, depth)?;
    found.push(first)?;
    'colon: while let Some(after) = further(left, found.len()) {
        let (list, after) = args(alloc, after, depth)?;
        found.push(list)?;
        left = after;
    }
    Ok((found, left))
}
