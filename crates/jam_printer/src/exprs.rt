//! The lexemes of conditions.
ghost use Rattle.std.specs.Prelude.{◌≡◌, ◌++◌, ◌∷◌, IfOk};
ghost use Rattle.jam_grammar.specs.Spelling.{Key, Anywhere, arg_syms, args_syms, expr_syms, pair_syms, joined_syms};
ghost use Rattle.jam_grammar.specs.declared.mark.TokenMark.TheVariants as marks;
ghost use Rattle.jam_printer.specs.Lexemes.{Appends};
ghost use Rattle.jam_printer.specs.Joints.{joint_level, joint_mark};

use crate::args::{push_arg, push_args};
use crate::lexemes::push_key;
use b2_base::fault::OutOfMemory;
use jam_grammar::mark::TokenMark;
use jam_grammar::tree::{Arg, Expr};
use jam_spelling::lexeme::Lexeme;

/// Appends an argument, a sign and another argument.
fn push_pair(
    lexemes: &mut Vec<Lexeme>,
    left: &Arg,
    sign: TokenMark,
    right: &Arg,
) -> Result<(), OutOfMemory>
    ensures { IfOk result (λ _. Appends (arg_syms left.now ++ Key sign ∷ arg_syms right.now) lexemes.old lexemes.new) }
{
    push_arg(lexemes, left)?;
    push_key(lexemes, sign)?;
    push_arg(lexemes, right)
}

/// Appends an argument, `in` and a list.
fn push_within(lexemes: &mut Vec<Lexeme>, item: &Arg, list: &[Arg]) -> Result<(), OutOfMemory>
    ensures { IfOk result (λ _. Appends (arg_syms item.now ++ Key marks.In ∷ args_syms list.now) lexemes.old lexemes.new) }
{
    push_arg(lexemes, item)?;
    push_key(lexemes, TokenMark::In)?;
    push_args(lexemes, list)
}

/// What stands between the members of a condition.
#[derive(Clone, Copy)]
enum Joint {
    /// `||`
    Or,
    /// `&&`
    And,
}

/// The mark of what stands between members.
fn joint_mark(joint: Joint) -> TokenMark
    ensures { result ≡ joint_mark joint }
{
    match joint {
        Joint::Or => TokenMark::Or,
        Joint::And => TokenMark::And,
    }
}

/// Appends a condition.
#[cycle(exprs)]
pub fn push_expr(lexemes: &mut Vec<Lexeme>, expr: &Expr) -> Result<(), OutOfMemory>
    ensures { IfOk result (λ _. Appends (expr_syms Anywhere expr.now) lexemes.old lexemes.new) }
{
    match expr {
        Expr::Or(members) => push_members(lexemes, members, Joint::Or),
        Expr::And(members) => push_members(lexemes, members, Joint::And),
        Expr::Not(inner) => {
            push_key(lexemes, TokenMark::Not)?;
            push_member(lexemes, inner, Joint::And)
        }
        Expr::Group(inner) => {
            push_key(lexemes, TokenMark::ParenOpen)?;
            push_expr(lexemes, inner)?;
            push_key(lexemes, TokenMark::ParenClose)
        }
        Expr::Bare(arg) => push_arg(lexemes, arg),
        Expr::Equal(left, right) => push_pair(lexemes, left, TokenMark::Equals, right),
        Expr::Differ(left, right) => push_pair(lexemes, left, TokenMark::NotEquals, right),
        Expr::Within(item, list) => push_within(lexemes, item, list),
    }
}

/// Appends a condition where it can be a member without parentheses; no source gives another.
#[cycle(exprs)]
fn push_member(lexemes: &mut Vec<Lexeme>, member: &Expr, joint: Joint) -> Result<(), OutOfMemory>
    ensures { IfOk result (λ _. Appends (expr_syms (joint_level joint) member.now) lexemes.old lexemes.new) }
{
    match (joint, member) {
        (_, Expr::Or(_)) | (Joint::And, Expr::And(_)) => Ok(()),
        _ => push_expr(lexemes, member),
    }
}

/// Appends conditions with a sign between them.
#[cycle(exprs)]
fn push_members(
    lexemes: &mut Vec<Lexeme>,
    members: &[Expr],
    joint: Joint,
) -> Result<(), OutOfMemory>
    ensures { IfOk result (λ _. Appends (pair_syms (joint_level joint) (joint_mark joint) members.now) lexemes.old lexemes.new) }
{
    match members {
        [] => Ok(()),
        [first, more @ ..] => {
            push_member(lexemes, first, joint)?;
            push_after(lexemes, more, joint)
        }
    }
}

/// Appends conditions with a sign before each.
#[cycle(exprs)]
fn push_after(lexemes: &mut Vec<Lexeme>, members: &[Expr], joint: Joint) -> Result<(), OutOfMemory>
    ensures { IfOk result (λ _. Appends (joined_syms (joint_level joint) (joint_mark joint) members.now) lexemes.old lexemes.new) }
{
    for member in members {
        push_key(lexemes, joint_mark(joint))?;
        push_member(lexemes, member, joint)?;
    }
    Ok(())
}
