//! The lexemes of parameters.
ghost use Rattle.std.specs.Prelude.{◌∷◌, [], IfOk, map, flat_map};
ghost use Rattle.jam_grammar.specs.Spelling.{params_syms, further_params, param_syms, mark_syms};
ghost use Rattle.jam_printer.specs.Lexemes.{Appends};

use crate::lexemes::{push_key, push_word};
use b2_base::fault::OutOfMemory;
use jam_grammar::mark::TokenMark;
use jam_grammar::tree::Param;
use jam_spelling::lexeme::Lexeme;

/// Appends the mark of a parameter, if it has one of the three.
fn push_mark(lexemes: &mut Vec<Lexeme>, mark: Option<char>) -> Result<(), OutOfMemory>
    ensures { IfOk result (λ _. Appends (mark_syms mark) lexemes.old lexemes.new) }
{
    match mark {
        Some('?') => push_key(lexemes, TokenMark::Query),
        Some('*') => push_key(lexemes, TokenMark::Star),
        Some('+') => push_key(lexemes, TokenMark::Plus),
        _ => Ok(()),
    }
}

/// Appends a list of parameters.
fn push_list(lexemes: &mut Vec<Lexeme>, params: &[Param]) -> Result<(), OutOfMemory>
    ensures { IfOk result (λ _. Appends (flat_map param_syms params.now) lexemes.old lexemes.new) }
{
    for param in params {
        push_word(lexemes, &param.name)?;
        push_mark(lexemes, param.mark)?;
    }
    Ok(())
}

/// Appends lists of parameters with a colon before each.
fn push_further(lexemes: &mut Vec<Lexeme>, lists: &[Vec<Param>]) -> Result<(), OutOfMemory>
    ensures { IfOk result (λ _. Appends (further_params (map (λ list. list.items) lists.now)) lexemes.old lexemes.new) }
{
    for list in lists {
        push_key(lexemes, TokenMark::Colon)?;
        push_list(lexemes, list)?;
    }
    Ok(())
}

/// Appends a list of parameters and those after it, in parentheses.
fn push_parens(
    lexemes: &mut Vec<Lexeme>,
    first: &[Param],
    more: &[Vec<Param>],
) -> Result<(), OutOfMemory>
    ensures { IfOk result (λ _. Appends (params_syms (first.now ∷ map (λ list. list.items) more.now)) lexemes.old lexemes.new) }
{
    push_key(lexemes, TokenMark::ParenOpen)?;
    push_list(lexemes, first)?;
    push_further(lexemes, more)?;
    push_key(lexemes, TokenMark::ParenClose)
}

/// Appends the lists of parameters in parentheses, if there are any.
pub fn push_params(lexemes: &mut Vec<Lexeme>, lists: &[Vec<Param>]) -> Result<(), OutOfMemory>
    ensures { IfOk result (λ _. Appends (params_syms (map (λ list. list.items) lists.now)) lexemes.old lexemes.new) }
{
    match lists {
        [] => Ok(()),
        [first, more @ ..] => push_parens(lexemes, first, more),
    }
}
