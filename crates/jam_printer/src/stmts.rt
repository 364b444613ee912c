//! The lexemes of statements.
ghost use Rattle.std.specs.Prelude.{◌++◌, ◌∷◌, IfOk};
ghost use Rattle.jam_grammar.specs.declared.mark.TokenMark.TheVariants as marks;
ghost use Rattle.jam_grammar.specs.Spelling.{Key, arg_syms, args_syms, braced, block_syms, form_syms, other_syms, only, is_if, case_syms, cases_syms};
ghost use Rattle.jam_grammar.specs.Trees.{form_tree};
ghost use Rattle.jam_printer.specs.Lexemes.{Appends, if_syms, for_syms, while_syms, rule_syms};

use crate::args::{push_arg, push_args};
use crate::exprs::push_expr;
use crate::lexemes::{push_key, push_word};
use crate::params::push_params;
use crate::simple::push_simple;
use b2_base::fault::OutOfMemory;
use b2_base::text::Text;
use jam_grammar::mark::TokenMark;
use jam_grammar::tree::{Arg, Block, Case, Expr, Form, Other, Param, Stmt};
use jam_spelling::lexeme::Lexeme;

/// Appends a block in braces.
#[cycle(stmts)]
fn push_block(lexemes: &mut Vec<Lexeme>, block: &Block) -> Result<(), OutOfMemory>
    ensures { IfOk result (λ _. Appends (braced (block_syms block.now)) lexemes.old lexemes.new) }
{
    push_key(lexemes, TokenMark::BraceOpen)?;
    push_stmts(lexemes, block)?;
    push_key(lexemes, TokenMark::BraceClose)
}

/// Appends the statements of a block.
#[cycle(stmts)]
pub fn push_stmts(lexemes: &mut Vec<Lexeme>, block: &Block) -> Result<(), OutOfMemory>
    ensures { IfOk result (λ _. Appends (block_syms block.now) lexemes.old lexemes.new) }
{
    for stmt in &block.stmts {
        push_stmt(lexemes, stmt)?;
    }
    Ok(())
}

/// Appends a statement.
#[cycle(stmts)]
fn push_stmt(lexemes: &mut Vec<Lexeme>, stmt: &Stmt) -> Result<(), OutOfMemory>
    ensures { IfOk result (λ _. Appends (form_syms stmt.now.form) lexemes.old lexemes.new) }
{
    match &stmt.form {
        Form::Braces(block) => push_block(lexemes, block),
        Form::If { test, then, other } => {
            push_if(lexemes, test, then)?;
            push_other(lexemes, other)
        }
        Form::For {
            local,
            name,
            items,
            block,
        } => push_for(lexemes, *local, name, items, block),
        Form::While { test, block } => push_while(lexemes, test, block),
        Form::Switch { value, cases } => push_switch(lexemes, value, cases),
        Form::Module { name, block } => push_module(lexemes, name, block),
        Form::Rule {
            name,
            params,
            block,
        } => push_rule(lexemes, name, params, block),
        Form::On { target, stmt } => push_on(lexemes, target, stmt),
        _ => push_simple(lexemes, &stmt.form),
    }
}

/// Appends an `if` up to the end of its block.
#[cycle(stmts)]
fn push_if(lexemes: &mut Vec<Lexeme>, test: &Expr, block: &Block) -> Result<(), OutOfMemory>
    ensures { IfOk result (λ _. Appends (if_syms test.now block.now) lexemes.old lexemes.new) }
{
    push_key(lexemes, TokenMark::If)?;
    push_expr(lexemes, test)?;
    push_block(lexemes, block)
}

/// Appends what follows on an `if`.
#[cycle(stmts)]
fn push_other(lexemes: &mut Vec<Lexeme>, other: &Other) -> Result<(), OutOfMemory>
    ensures { IfOk result (λ _. Appends (other_syms other.now) lexemes.old lexemes.new) }
{
    match other {
        Other::Nothing => Ok(()),
        Other::Braces(block) => {
            push_key(lexemes, TokenMark::Else)?;
            push_block(lexemes, block)
        }
        Other::If(stmt) => {
            push_key(lexemes, TokenMark::Else)?;
            push_else_if(lexemes, stmt)
        }
    }
}

/// Appends the `if` after an `else`; no source gives another statement there.
#[cycle(stmts)]
fn push_else_if(lexemes: &mut Vec<Lexeme>, stmt: &Stmt) -> Result<(), OutOfMemory>
    ensures { IfOk result (λ _. Appends (only (is_if (form_tree stmt.now.form)) (form_syms stmt.now.form)) lexemes.old lexemes.new) }
{
    match &stmt.form {
        Form::If { .. } => push_stmt(lexemes, stmt),
        _ => Ok(()),
    }
}

#[cycle(stmts)]
fn push_for(
    lexemes: &mut Vec<Lexeme>,
    local: bool,
    name: &Text,
    items: &[Arg],
    block: &Block,
) -> Result<(), OutOfMemory>
    ensures { IfOk result (λ _. Appends (for_syms local name.now items.now block.now) lexemes.old lexemes.new) }
{
    push_key(lexemes, TokenMark::For)?;
    if local {
        push_key(lexemes, TokenMark::Local)?;
    }
    push_word(lexemes, name)?;
    push_key(lexemes, TokenMark::In)?;
    push_args(lexemes, items)?;
    push_block(lexemes, block)
}

#[cycle(stmts)]
fn push_while(lexemes: &mut Vec<Lexeme>, test: &Expr, block: &Block) -> Result<(), OutOfMemory>
    ensures { IfOk result (λ _. Appends (while_syms test.now block.now) lexemes.old lexemes.new) }
{
    push_key(lexemes, TokenMark::While)?;
    push_expr(lexemes, test)?;
    push_block(lexemes, block)
}

#[cycle(stmts)]
fn push_switch(lexemes: &mut Vec<Lexeme>, value: &[Arg], cases: &[Case]) -> Result<(), OutOfMemory>
    ensures { IfOk result (λ _. Appends (Key marks.Switch ∷ (args_syms value.now ++ braced (cases_syms cases.now))) lexemes.old lexemes.new) }
{
    push_key(lexemes, TokenMark::Switch)?;
    push_args(lexemes, value)?;
    push_key(lexemes, TokenMark::BraceOpen)?;
    push_cases(lexemes, cases)?;
    push_key(lexemes, TokenMark::BraceClose)
}

/// Appends the cases of a `switch`.
#[cycle(stmts)]
fn push_cases(lexemes: &mut Vec<Lexeme>, cases: &[Case]) -> Result<(), OutOfMemory>
    ensures { IfOk result (λ _. Appends (cases_syms cases.now) lexemes.old lexemes.new) }
{
    for case in cases {
        push_case(lexemes, case)?;
    }
    Ok(())
}

/// Appends a case of a `switch`.
#[cycle(stmts)]
fn push_case(lexemes: &mut Vec<Lexeme>, case: &Case) -> Result<(), OutOfMemory>
    ensures { IfOk result (λ _. Appends (case_syms case.now) lexemes.old lexemes.new) }
{
    push_key(lexemes, TokenMark::Case)?;
    push_word(lexemes, &case.pattern)?;
    push_key(lexemes, TokenMark::Colon)?;
    push_stmts(lexemes, &case.block)
}

#[cycle(stmts)]
fn push_module(lexemes: &mut Vec<Lexeme>, name: &[Arg], block: &Block) -> Result<(), OutOfMemory>
    ensures { IfOk result (λ _. Appends (Key marks.Module ∷ (args_syms name.now ++ braced (block_syms block.now))) lexemes.old lexemes.new) }
{
    push_key(lexemes, TokenMark::Module)?;
    push_args(lexemes, name)?;
    push_block(lexemes, block)
}

#[cycle(stmts)]
fn push_rule(
    lexemes: &mut Vec<Lexeme>,
    name: &Text,
    params: &[Vec<Param>],
    block: &Block,
) -> Result<(), OutOfMemory>
    ensures { IfOk result (λ _. Appends (rule_syms name.now params.now block.now) lexemes.old lexemes.new) }
{
    push_key(lexemes, TokenMark::Rule)?;
    push_word(lexemes, name)?;
    push_params(lexemes, params)?;
    push_block(lexemes, block)
}

/// Appends an `on` before a statement.
#[cycle(stmts)]
fn push_on(lexemes: &mut Vec<Lexeme>, target: &Arg, stmt: &Stmt) -> Result<(), OutOfMemory>
    ensures { IfOk result (λ _. Appends (Key marks.On ∷ (arg_syms target.now ++ form_syms stmt.now.form)) lexemes.old lexemes.new) }
{
    push_key(lexemes, TokenMark::On)?;
    push_arg(lexemes, target)?;
    push_stmt(lexemes, stmt)
}
