//! Arguments.
ghost use Rattle.std.specs.Prelude.{IfOk};
ghost use Rattle.jam_grammar.specs.Spelling.{arg_syms, inner_syms, args_syms, lists_syms, further_syms};
ghost use Rattle.jam_printer.specs.Lexemes.{Appends};

use crate::lexemes::{push_key, push_word};
use b2_base::fault::OutOfMemory;
use jam_grammar::mark::TokenMark;
use jam_grammar::tree::{Arg, Inner};
use jam_spelling::lexeme::Lexeme;

/// Appends an argument.
#[cycle(args)]
pub fn push_arg(lexemes: &mut Vec<Lexeme>, arg: &Arg) -> Result<(), OutOfMemory>
    ensures { IfOk result (λ _. Appends (arg_syms arg.now) lexemes.old lexemes.new) }
{
    match arg {
        Arg::Word(word) => push_word(lexemes, word.text()),
        Arg::Bracket(inner) => {
            push_key(lexemes, TokenMark::SquareOpen)?;
            push_inner(lexemes, inner)?;
            push_key(lexemes, TokenMark::SquareClose)
        }
    }
}

/// Appends what stands in brackets.
#[cycle(args)]
fn push_inner(lexemes: &mut Vec<Lexeme>, inner: &Inner) -> Result<(), OutOfMemory>
    ensures { IfOk result (λ _. Appends (inner_syms inner.now) lexemes.old lexemes.new) }
{
    match inner {
        Inner::Call { head, lists } => {
            push_arg(lexemes, head)?;
            push_lists(lexemes, lists)
        }
        Inner::On { target, inner } => {
            push_key(lexemes, TokenMark::On)?;
            push_arg(lexemes, target)?;
            push_inner(lexemes, inner)
        }
        Inner::OnReturn { target, value } => {
            push_key(lexemes, TokenMark::On)?;
            push_arg(lexemes, target)?;
            push_key(lexemes, TokenMark::Return)?;
            push_args(lexemes, value)
        }
    }
}

/// Appends arguments one after another.
#[cycle(args)]
pub fn push_args(lexemes: &mut Vec<Lexeme>, args: &[Arg]) -> Result<(), OutOfMemory>
    ensures { IfOk result (λ _. Appends (args_syms args.now) lexemes.old lexemes.new) }
{
    for arg in args {
        push_arg(lexemes, arg)?;
    }
    Ok(())
}

/// Appends lists with colons between them.
#[cycle(args)]
pub fn push_lists(lexemes: &mut Vec<Lexeme>, lists: &[Vec<Arg>]) -> Result<(), OutOfMemory>
    ensures { IfOk result (λ _. Appends (lists_syms lists.now) lexemes.old lexemes.new) }
{
    match lists {
        [] => Ok(()),
        [first, more @ ..] => {
            push_args(lexemes, first)?;
            push_further(lexemes, more)
        }
    }
}

/// Appends lists with a colon before each.
#[cycle(args)]
fn push_further(lexemes: &mut Vec<Lexeme>, lists: &[Vec<Arg>]) -> Result<(), OutOfMemory>
    ensures { IfOk result (λ _. Appends (further_syms lists.now) lexemes.old lexemes.new) }
{
    for list in lists {
        push_key(lexemes, TokenMark::Colon)?;
        push_args(lexemes, list)?;
    }
    Ok(())
}
