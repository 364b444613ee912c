//! Reading statements without blocks of statements.
ghost use Rattle.std.specs.Prelude.{◌≡◌, ◌<◌, ◌≤◌, ◌∷◌, ◌++◌, [], false, MatchOption, MatchResult};
ghost use Rattle.jam_grammar.specs.Trees.{value_tree};
ghost use Rattle.jam_grammar.specs.Spelling.{form_syms, arg_syms, args_syms, value_syms, braced, sign_mark};
ghost use Rattle.jam_grammar.specs.Spelling as spelling;
ghost use Rattle.jam_grammar.specs.Grammar.{Tail, Assigned, LocalTail, Heading, BodyBlock, OneArg, Args, More, Key};
ghost use Rattle.jam_grammar.specs.declared.mark.TokenMark.TheVariants as marks;
ghost use Rattle.jam_parser.specs.Starts.{starts_sign, StandsAfter};
ghost use Rattle.jam_parser.specs.PartReadings.{IsRead, ComesTo, Completes, EndsBy, Reads, ReadsOn, list_to_end};

use crate::args::{arg, args, lists};
use crate::heading::{Modes, heading};
use crate::reading::{ReadingFault, body_here, key_here, next_of, past};
use b2_base::text::Text;
use b2_base::token::Token;
use jam_grammar::mark::TokenMark;
use jam_grammar::tree::{Arg, Form, Sign};
use std::alloc::Global;

/// Reads a list up to the end of the statement.
fn list_end<'a>(
    alloc: Global,
    rest: &'a [Token],
    depth: u8,
) -> Result<(Vec<Arg>, &'a [Token]), ReadingFault<'a>>
    requires { depth ≤ 64 }
    ensures { Reads result list_to_end rest.now depth (λ r. args_syms r.0.items ++ spelling.Key marks.Semicolon ∷ []) (λ r. r.1.now) }
{
    let (list, after) = args(alloc, rest, depth)?;
    let after = key_here(after, TokenMark::Semicolon, depth)?;
    Ok((list, after))
}

/// Reads what stands after `include`.
pub fn include<'a>(
    alloc: Global,
    rest: &'a [Token],
    depth: u8,
) -> Result<(Form, &'a [Token]), ReadingFault<'a>>
    requires { depth ≤ 64 }
    ensures { ReadsOn result (spelling.Key marks.Include ∷ []) list_to_end rest.now depth (λ r. form_syms r.0) (λ r. r.1.now) }
{
    let (names, after) = list_end(alloc, rest, depth)?;
    Ok((Form::Include(names), after))
}

/// Reads what stands after `return`.
pub fn returned<'a>(
    alloc: Global,
    rest: &'a [Token],
    depth: u8,
) -> Result<(Form, &'a [Token]), ReadingFault<'a>>
    requires { depth ≤ 64 }
    ensures { ReadsOn result (spelling.Key marks.Return ∷ []) list_to_end rest.now depth (λ r. form_syms r.0) (λ r. r.1.now) }
{
    let (value, after) = list_end(alloc, rest, depth)?;
    Ok((Form::Return(value), after))
}

/// Reads what stands after `local`.
pub fn local<'a>(
    alloc: Global,
    rest: &'a [Token],
    depth: u8,
) -> Result<(Form, &'a [Token]), ReadingFault<'a>>
    requires { depth ≤ 64 }
    ensures { ReadsOn result (spelling.Key marks.Local ∷ []) (Args ∷ LocalTail ∷ []) rest.now depth (λ r. form_syms r.0) (λ r. r.1.now) }
{
    let (names, after) = args(alloc, rest, depth)?;
    let (value, after) = local_value(alloc, after, depth)?;
    Ok((Form::Local { names, value }, after))
}

/// Reads what stands after the names of `local`.
fn local_value<'a>(
    alloc: Global,
    rest: &'a [Token],
    depth: u8,
) -> Result<(Option<Vec<Arg>>, &'a [Token]), ReadingFault<'a>>
    requires { depth ≤ 64 }
    ensures { MatchResult result (λ r. IsRead (LocalTail ∷ []) rest.now depth (value_syms (value_tree r.0)) r.1.now) (λ e. EndsBy (LocalTail ∷ []) rest.now depth e) }
{
    match next_of(rest) {
        Some((TokenMark::Semicolon, _, after)) => Ok((None, after)),
        Some((TokenMark::Equals, _, after)) => {
            let (value, after) = list_end(alloc, after, depth)?;
            Ok((Some(value), after))
        }
        _ => Err(ReadingFault::At(rest)),
    }
}

/// Reads what stands after `actions`.
pub fn actions<'a>(rest: &'a [Token], depth: u8) -> Result<(Form, &'a [Token]), ReadingFault<'a>>
    requires { depth < 64 }
    ensures { ReadsOn result (spelling.Key marks.Actions ∷ []) (Heading false false false ∷ BodyBlock ∷ []) rest.now depth (λ r. form_syms r.0) (λ r. r.1.now) }
{
    let none = Modes {
        together: false,
        existing: false,
        quietly: false,
    };
    let (modes, name, after) = heading(rest, none, depth)?;
    let (body, after) = body_block(after, depth)?;
    Ok((
        Form::Actions {
            name,
            together: modes.together,
            existing: modes.existing,
            quietly: modes.quietly,
            body,
        },
        after,
    ))
}

/// Reads a body in braces.
fn body_block<'a>(rest: &'a [Token], depth: u8) -> Result<(Text, &'a [Token]), ReadingFault<'a>>
    requires { depth < 64 }
    ensures { MatchResult result (λ r. IsRead (BodyBlock ∷ []) rest.now depth (braced (spelling.Raw r.0 ∷ [])) r.1.now) (λ e. EndsBy (BodyBlock ∷ []) rest.now depth e) }
{
    match past(rest, TokenMark::BraceOpen) {
        Some(after) => {
            let (body, after) = body_here(after, depth + 1)?;
            let after = key_here(after, TokenMark::BraceClose, depth)?;
            Ok((body, after))
        }
        None => Err(ReadingFault::At(rest)),
    }
}

/// Reads a statement that begins with an argument.
pub fn by_arg<'a>(
    alloc: Global,
    rest: &'a [Token],
    depth: u8,
) -> Result<(Form, &'a [Token]), ReadingFault<'a>>
    requires { depth ≤ 64 }
    ensures { MatchResult result (λ r. IsRead (OneArg ∷ Tail ∷ []) rest.now depth (form_syms r.0) r.1.now) (λ e. EndsBy (OneArg ∷ Tail ∷ []) rest.now depth e) }
{
    let (head, after) = arg(alloc, rest, depth)?;
    let (form, after) = tail(alloc, head, after, depth)?;
    Ok((form, after))
}

/// Reads what stands after the first argument of a statement.
fn tail<'a>(
    alloc: Global,
    head: Arg,
    rest: &'a [Token],
    depth: u8,
) -> Result<(Form, &'a [Token]), ReadingFault<'a>>
    requires { depth ≤ 64 }
    ensures { MatchResult result (λ r. Completes (arg_syms head) (Tail ∷ []) rest.now depth (form_syms r.0) r.1.now) (λ e. EndsBy (Tail ∷ []) rest.now depth e) }
{
    match past(rest, TokenMark::On) {
        Some(after) => assign_on(alloc, head, after, depth),
        None => match sign_here(rest) {
            Some((sign, after)) => assign(alloc, head, sign, after, depth),
            None => call(alloc, head, rest, depth),
        },
    }
}

/// The sign of an assignment that stands here, and what stands after it.
fn sign_here(rest: &[Token]) -> Option<(Sign, &[Token])>
    ensures { MatchOption result (starts_sign rest.now ≡ false) (λ r. StandsAfter (sign_mark r.0) rest.now r.1.now) }
{
    match next_of(rest) {
        Some((TokenMark::Equals, _, after)) => Some((Sign::Set, after)),
        Some((TokenMark::PlusEquals, _, after)) => Some((Sign::Add, after)),
        Some((TokenMark::QueryEquals, _, after)) => Some((Sign::Fill, after)),
        _ => None,
    }
}

/// Reads what stands after the sign of an assignment.
fn assign<'a>(
    alloc: Global,
    target: Arg,
    sign: Sign,
    rest: &'a [Token],
    depth: u8,
) -> Result<(Form, &'a [Token]), ReadingFault<'a>>
    requires { depth ≤ 64 }
    ensures { ReadsOn result (arg_syms target ++ spelling.Key (sign_mark sign) ∷ []) list_to_end rest.now depth (λ r. form_syms r.0) (λ r. r.1.now) }
{
    let (value, after) = list_end(alloc, rest, depth)?;
    Ok((
        Form::Assign {
            target,
            sign,
            value,
        },
        after,
    ))
}

/// Reads what stands after `target on`.
fn assign_on<'a>(
    alloc: Global,
    target: Arg,
    rest: &'a [Token],
    depth: u8,
) -> Result<(Form, &'a [Token]), ReadingFault<'a>>
    requires { depth ≤ 64 }
    ensures { ReadsOn result (arg_syms target ++ spelling.Key marks.On ∷ []) (Args ∷ Assigned ∷ []) rest.now depth (λ r. form_syms r.0) (λ r. r.1.now) }
{
    let (on, after) = args(alloc, rest, depth)?;
    let (sign, after) = sign_read(after, depth)?;
    let (value, after) = list_end(alloc, after, depth)?;
    Ok((
        Form::AssignOn {
            target,
            on,
            sign,
            value,
        },
        after,
    ))
}

/// Reads the sign of an assignment, which has to stand here.
fn sign_read<'a>(rest: &'a [Token], depth: u8) -> Result<(Sign, &'a [Token]), ReadingFault<'a>>
    ensures { MatchResult result (λ r. ComesTo (Assigned ∷ []) list_to_end rest.now depth (spelling.Key (sign_mark r.0) ∷ []) r.1.now) (λ e. EndsBy (Assigned ∷ []) rest.now depth e) }
{
    match sign_here(rest) {
        Some((sign, after)) => Ok((sign, after)),
        None => Err(ReadingFault::At(rest)),
    }
}

/// Reads the lists of a call up to the end of the statement.
fn call<'a>(
    alloc: Global,
    head: Arg,
    rest: &'a [Token],
    depth: u8,
) -> Result<(Form, &'a [Token]), ReadingFault<'a>>
    requires { depth ≤ 64 }
    ensures { ReadsOn result (arg_syms head) (Args ∷ More 8 ∷ Key marks.Semicolon ∷ []) rest.now depth (λ r. form_syms r.0) (λ r. r.1.now) }
{
    let (lists, after) = lists(alloc, rest, depth)?;
    let after = key_here(after, TokenMark::Semicolon, depth)?;
    Ok((Form::Call { head, lists }, after))
}
