//! The lexemes of statements that hold no others.
ghost use Rattle.std.specs.Prelude.{◌≡◌, ◌++◌, ◌∷◌, [], false, IfOk, option_copied};
ghost use Rattle.jam_grammar.specs.declared.mark.TokenMark.TheVariants as marks;
ghost use Rattle.jam_grammar.specs.Spelling.{Key, Heads, arg_syms, args_syms, lists_syms, set_syms, sign_mark};
ghost use Rattle.jam_printer.specs.Lexemes.{Appends, modifier_lexemes, locals_syms, assign_on_syms, actions_syms, simple_syms};

use crate::args::{push_arg, push_args, push_lists};
use crate::lexemes::{push_body, push_key, push_word};
use b2_base::fault::OutOfMemory;
use b2_base::text::Text;
use jam_grammar::mark::TokenMark;
use jam_grammar::tree::{Arg, Form, Sign};
use jam_spelling::lexeme::Lexeme;

/// What stands between a name and its new value.
fn sign_mark(sign: Sign) -> TokenMark
    ensures { result ≡ sign_mark sign }
{
    match sign {
        Sign::Set => TokenMark::Equals,
        Sign::Add => TokenMark::PlusEquals,
        Sign::Fill => TokenMark::QueryEquals,
    }
}

/// Appends a sign or a key, a list, and the end of the statement.
fn push_set(lexemes: &mut Vec<Lexeme>, mark: TokenMark, list: &[Arg]) -> Result<(), OutOfMemory>
    ensures { IfOk result (λ _. Appends (set_syms mark (args_syms list.now)) lexemes.old lexemes.new) }
{
    push_key(lexemes, mark)?;
    push_args(lexemes, list)?;
    push_key(lexemes, TokenMark::Semicolon)
}

/// Appends a `local`.
fn push_local(
    lexemes: &mut Vec<Lexeme>,
    names: &[Arg],
    value: Option<&Vec<Arg>>,
) -> Result<(), OutOfMemory>
    ensures { IfOk result (λ _. Appends (locals_syms names.now (option_copied value.entry)) lexemes.old lexemes.new) }
{
    push_key(lexemes, TokenMark::Local)?;
    push_args(lexemes, names)?;
    match value {
        None => push_key(lexemes, TokenMark::Semicolon),
        Some(value) => push_set(lexemes, TokenMark::Equals, value),
    }
}

/// Appends an assignment.
fn push_assign(
    lexemes: &mut Vec<Lexeme>,
    target: &Arg,
    sign: Sign,
    value: &[Arg],
) -> Result<(), OutOfMemory>
    ensures { IfOk result (λ _. Appends (arg_syms target.now ++ set_syms (sign_mark sign) (args_syms value.now)) lexemes.old lexemes.new) }
{
    push_arg(lexemes, target)?;
    push_set(lexemes, sign_mark(sign), value)
}

/// Appends an assignment on targets.
fn push_assign_on(
    lexemes: &mut Vec<Lexeme>,
    target: &Arg,
    on: &[Arg],
    sign: Sign,
    value: &[Arg],
) -> Result<(), OutOfMemory>
    ensures { IfOk result (λ _. Appends (assign_on_syms target.now on.now sign value.now) lexemes.old lexemes.new) }
{
    push_arg(lexemes, target)?;
    push_key(lexemes, TokenMark::On)?;
    push_args(lexemes, on)?;
    push_set(lexemes, sign_mark(sign), value)
}

/// Appends a modifier, if it stands.
fn push_modifier(
    lexemes: &mut Vec<Lexeme>,
    stands: bool,
    mark: TokenMark,
) -> Result<(), OutOfMemory>
    ensures { IfOk result (λ _. lexemes.new.items ≡ lexemes.old.items ++ modifier_lexemes stands mark) }
{
    if stands {
        push_key(lexemes, mark)
    } else {
        Ok(())
    }
}

/// Appends the modifiers that stand, in the order `together`, `existing`, `quietly`.
fn push_modifiers(
    lexemes: &mut Vec<Lexeme>,
    together: bool,
    existing: bool,
    quietly: bool,
) -> Result<(), OutOfMemory>
    ensures { IfOk result (λ _. Appends (Heads false false false together existing quietly ∷ []) lexemes.old lexemes.new) }
{
    push_modifier(lexemes, together, TokenMark::Together)?;
    push_modifier(lexemes, existing, TokenMark::Existing)?;
    push_modifier(lexemes, quietly, TokenMark::Quietly)
}

/// Appends an `actions`.
fn push_actions(
    lexemes: &mut Vec<Lexeme>,
    name: &Text,
    together: bool,
    existing: bool,
    quietly: bool,
    body: &Text,
) -> Result<(), OutOfMemory>
    ensures { IfOk result (λ _. Appends (actions_syms name.now together existing quietly body.now) lexemes.old lexemes.new) }
{
    push_key(lexemes, TokenMark::Actions)?;
    push_modifiers(lexemes, together, existing, quietly)?;
    push_word(lexemes, name)?;
    push_key(lexemes, TokenMark::BraceOpen)?;
    push_body(lexemes, body)?;
    push_key(lexemes, TokenMark::BraceClose)
}

/// Appends a call.
fn push_call(lexemes: &mut Vec<Lexeme>, head: &Arg, lists: &[Vec<Arg>]) -> Result<(), OutOfMemory>
    ensures { IfOk result (λ _. Appends (arg_syms head.now ++ (lists_syms lists.now ++ Key marks.Semicolon ∷ [])) lexemes.old lexemes.new) }
{
    push_arg(lexemes, head)?;
    push_lists(lexemes, lists)?;
    push_key(lexemes, TokenMark::Semicolon)
}

/// Appends a statement that holds no other statement, and nothing for one that does.
pub fn push_simple(lexemes: &mut Vec<Lexeme>, form: &Form) -> Result<(), OutOfMemory>
    ensures { IfOk result (λ _. Appends (simple_syms form.now) lexemes.old lexemes.new) }
{
    match form {
        Form::Local { names, value } => push_local(lexemes, names, value.as_ref()),
        Form::Assign {
            target,
            sign,
            value,
        } => push_assign(lexemes, target, *sign, value),
        Form::AssignOn {
            target,
            on,
            sign,
            value,
        } => push_assign_on(lexemes, target, on, *sign, value),
        Form::Include(names) => push_set(lexemes, TokenMark::Include, names),
        Form::Return(value) => push_set(lexemes, TokenMark::Return, value),
        Form::Actions {
            name,
            together,
            existing,
            quietly,
            body,
        } => push_actions(lexemes, name, *together, *existing, *quietly, body),
        Form::Call { head, lists } => push_call(lexemes, head, lists),
        _ => Ok(()),
    }
}
