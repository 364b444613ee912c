//! Reading conditions.
ghost use Rattle.std.specs.Prelude.{◌≡◌, ◌<◌, ◌≤◌, ◌∷◌, [], false, MatchResult};
ghost use Rattle.jam_grammar.specs.Spelling.{Anywhere, WithinOr, WithinAnd, expr_syms, arg_syms};
ghost use Rattle.jam_grammar.specs.Grammar.{OneExpr, Both, Single, OneArg, Compared, Args};
ghost use Rattle.jam_grammar.specs.declared.mark.TokenMark.TheVariants as marks;
ghost use Rattle.jam_parser.specs.Starts.{starts_with};
ghost use Rattle.jam_parser.specs.PartReadings.{IsRead, EndsBy, ReadsOn, after_or, after_and, in_parens, with_sign};

use crate::args::{MAX_OPEN, arg, args};
use crate::reading::{ReadingFault, key_here, past};
use b2_base::token::Token;
use jam_grammar::mark::TokenMark;
use jam_grammar::tree::{Arg, Expr};
use std::alloc::Global;

/// Reads a condition, where depth are open.
#[cycle(exprs)]
pub fn expr<'a>(
    alloc: Global,
    rest: &'a [Token],
    depth: u8,
) -> Result<(Expr, &'a [Token]), ReadingFault<'a>>
    requires { depth ≤ 64 }
    ensures { MatchResult result (λ r. IsRead (OneExpr ∷ []) rest.now depth (expr_syms Anywhere r.0) r.1.now) (λ e. EndsBy (OneExpr ∷ []) rest.now depth e) }
{
    let (first, after) = both(alloc, rest, depth)?;
    match past(after, TokenMark::Or) {
        Some(right) => {
            let (whole, after) = or_rest(alloc, first, right, depth)?;
            Ok((whole, after))
        }
        None => Ok((first, after)),
    }
}

/// Reads what stands after the first `||` of a condition.
#[cycle(exprs)]
fn or_rest<'a>(
    alloc: Global,
    first: Expr,
    rest: &'a [Token],
    depth: u8,
) -> Result<(Expr, &'a [Token]), ReadingFault<'a>>
    requires { depth ≤ 64 }
    ensures { ReadsOn result (with_sign (expr_syms WithinOr first) marks.Or) after_or rest.now depth (λ r. expr_syms Anywhere r.0) (λ r. r.1.now) }
{
    let mut members = Vec::new(alloc);
    members.push(first)?;
    let mut left = rest;
    'each: loop {
        let (one, after) = both(alloc, left, depth)?;
        members.push(one)?;
        match past(after, TokenMark::Or) {
            Some(right) => left = right,
            None => return Ok((Expr::Or(members), after)),
        }
    }
}

/// Reads a condition without `||`.
#[cycle(exprs)]
fn both<'a>(
    alloc: Global,
    rest: &'a [Token],
    depth: u8,
) -> Result<(Expr, &'a [Token]), ReadingFault<'a>>
    requires { depth ≤ 64 }
    ensures { MatchResult result (λ r. IsRead (Both ∷ []) rest.now depth (expr_syms WithinOr r.0) r.1.now) (λ e. EndsBy (Both ∷ []) rest.now depth e) }
{
    let (first, after) = single(alloc, rest, depth)?;
    match past(after, TokenMark::And) {
        Some(right) => {
            let (whole, after) = and_rest(alloc, first, right, depth)?;
            Ok((whole, after))
        }
        None => Ok((first, after)),
    }
}

/// Reads what stands after the first `&&` of a condition.
#[cycle(exprs)]
fn and_rest<'a>(
    alloc: Global,
    first: Expr,
    rest: &'a [Token],
    depth: u8,
) -> Result<(Expr, &'a [Token]), ReadingFault<'a>>
    requires { depth ≤ 64 }
    ensures { ReadsOn result (with_sign (expr_syms WithinAnd first) marks.And) after_and rest.now depth (λ r. expr_syms WithinOr r.0) (λ r. r.1.now) }
{
    let mut members = Vec::new(alloc);
    members.push(first)?;
    let mut left = rest;
    'each: loop {
        let (one, after) = single(alloc, left, depth)?;
        members.push(one)?;
        match past(after, TokenMark::And) {
            Some(right) => left = right,
            None => return Ok((Expr::And(members), after)),
        }
    }
}

/// Reads a condition without `||` and `&&`.
#[cycle(exprs)]
fn single<'a>(
    alloc: Global,
    rest: &'a [Token],
    depth: u8,
) -> Result<(Expr, &'a [Token]), ReadingFault<'a>>
    requires { depth ≤ 64 }
    ensures { MatchResult result (λ r. IsRead (Single ∷ []) rest.now depth (expr_syms WithinAnd r.0) r.1.now) (λ e. EndsBy (Single ∷ []) rest.now depth e) }
{
    match past(rest, TokenMark::Not) {
        Some(after) if depth < MAX_OPEN => negated(alloc, after, depth + 1),
        Some(_) => Err(ReadingFault::At(rest)),
        None => positive(alloc, rest, depth),
    }
}

/// Reads what stands after `!`, which is counted in depth.
#[cycle(exprs)]
fn negated<'a>(
    alloc: Global,
    rest: &'a [Token],
    depth: u8,
) -> Result<(Expr, &'a [Token]), ReadingFault<'a>>
    requires { depth ≤ 64 }
    ensures { ReadsOn result (with_sign [] marks.Not) (Single ∷ []) rest.now depth (λ r. expr_syms WithinAnd r.0) (λ r. r.1.now) }
{
    let (inner, after) = single(alloc, rest, depth)?;
    let inner = Box::new(alloc, inner)?;
    Ok((Expr::Not(inner), after))
}

/// Reads a condition that begins with no `!`.
#[cycle(exprs)]
fn positive<'a>(
    alloc: Global,
    rest: &'a [Token],
    depth: u8,
) -> Result<(Expr, &'a [Token]), ReadingFault<'a>>
    requires capped { depth ≤ 64 }
    requires no_not { starts_with marks.Not rest.now ≡ false }
    ensures { MatchResult result (λ r. IsRead (Single ∷ []) rest.now depth (expr_syms WithinAnd r.0) r.1.now) (λ e. EndsBy (Single ∷ []) rest.now depth e) }
{
    match past(rest, TokenMark::ParenOpen) {
        Some(after) if depth < MAX_OPEN => group(alloc, after, depth),
        Some(_) => Err(ReadingFault::At(rest)),
        None => operand(alloc, rest, depth),
    }
}

/// Reads what stands after an opening parenthesis, which is not counted in depth.
#[cycle(exprs)]
fn group<'a>(
    alloc: Global,
    rest: &'a [Token],
    depth: u8,
) -> Result<(Expr, &'a [Token]), ReadingFault<'a>>
    requires { depth < 64 }
    ensures { ReadsOn result (with_sign [] marks.ParenOpen) in_parens rest.now depth (λ r. expr_syms WithinAnd r.0) (λ r. r.1.now) }
{
    let (inner, after) = expr(alloc, rest, depth + 1)?;
    let inner = Box::new(alloc, inner)?;
    let after = key_here(after, TokenMark::ParenClose, depth)?;
    Ok((Expr::Group(inner), after))
}

/// Reads an argument, alone or compared.
fn operand<'a>(
    alloc: Global,
    rest: &'a [Token],
    depth: u8,
) -> Result<(Expr, &'a [Token]), ReadingFault<'a>>
    requires { depth ≤ 64 }
    ensures { MatchResult result (λ r. IsRead (OneArg ∷ Compared ∷ []) rest.now depth (expr_syms WithinAnd r.0) r.1.now) (λ e. EndsBy (OneArg ∷ Compared ∷ []) rest.now depth e) }
{
    let (left, after) = arg(alloc, rest, depth)?;
    let (whole, after) = compared(alloc, left, after, depth)?;
    Ok((whole, after))
}

/// Reads what may stand after an argument in a condition.
fn compared<'a>(
    alloc: Global,
    left: Arg,
    rest: &'a [Token],
    depth: u8,
) -> Result<(Expr, &'a [Token]), ReadingFault<'a>>
    requires { depth ≤ 64 }
    ensures { ReadsOn result (arg_syms left) (Compared ∷ []) rest.now depth (λ r. expr_syms WithinAnd r.0) (λ r. r.1.now) }
{
    if let Some(after) = past(rest, TokenMark::Equals) {
        return equal(alloc, left, after, depth);
    }
    if let Some(after) = past(rest, TokenMark::NotEquals) {
        return differ(alloc, left, after, depth);
    }
    match past(rest, TokenMark::In) {
        Some(after) => within(alloc, left, after, depth),
        None => Ok((Expr::Bare(left), rest)),
    }
}

/// Reads what stands after `left =`.
fn equal<'a>(
    alloc: Global,
    left: Arg,
    rest: &'a [Token],
    depth: u8,
) -> Result<(Expr, &'a [Token]), ReadingFault<'a>>
    requires { depth ≤ 64 }
    ensures { ReadsOn result (with_sign (arg_syms left) marks.Equals) (OneArg ∷ []) rest.now depth (λ r. expr_syms WithinAnd r.0) (λ r. r.1.now) }
{
    let (right, after) = arg(alloc, rest, depth)?;
    Ok((Expr::Equal(left, right), after))
}

/// Reads what stands after `left !=`.
fn differ<'a>(
    alloc: Global,
    left: Arg,
    rest: &'a [Token],
    depth: u8,
) -> Result<(Expr, &'a [Token]), ReadingFault<'a>>
    requires { depth ≤ 64 }
    ensures { ReadsOn result (with_sign (arg_syms left) marks.NotEquals) (OneArg ∷ []) rest.now depth (λ r. expr_syms WithinAnd r.0) (λ r. r.1.now) }
{
    let (right, after) = arg(alloc, rest, depth)?;
    Ok((Expr::Differ(left, right), after))
}

/// Reads what stands after `left in`.
fn within<'a>(
    alloc: Global,
    left: Arg,
    rest: &'a [Token],
    depth: u8,
) -> Result<(Expr, &'a [Token]), ReadingFault<'a>>
    requires { depth ≤ 64 }
    ensures { ReadsOn result (with_sign (arg_syms left) marks.In) (Args ∷ []) rest.now depth (λ r. expr_syms WithinAnd r.0) (λ r. r.1.now) }
{
    let (list, after) = args(alloc, rest, depth)?;
    Ok((Expr::Within(left, list), after))
}
