//! Reading statements.
ghost use Rattle.std.specs.Prelude.{◌<◌, ◌≤◌, ◌∷◌, ◌++◌, [], MatchResult};
ghost use Rattle.jam_grammar.specs.Trees.{form_tree};
ghost use Rattle.jam_grammar.specs.Spelling.{stmt_syms, stmts_syms, form_syms, block_syms, braced, case_syms, cases_syms, other_syms, local_syms, is_if, only};
ghost use Rattle.jam_grammar.specs.Spelling as spelling;
ghost use Rattle.jam_grammar.specs.Grammar.{Stmts, OneStmt, OneBlock, OneExpr, OneElse, ElseTail, ForTail, RuleTail, CaseBlock, Cases, OneWord, OneArg, Args, Key};
ghost use Rattle.jam_grammar.specs.declared.mark.TokenMark.TheVariants as marks;
ghost use Rattle.jam_parser.specs.PartReadings.{IsRead, EndsBy, Reads, ReadsOn, after_params};

use crate::args::{MAX_OPEN, arg, args};
use crate::exprs::expr;
use crate::params::params;
use crate::reading::{ReadingFault, key_here, next_of, past, word_here};
use crate::simple::{actions, by_arg, include, local, returned};
use crate::start::{Start, at_stmt, line_of, start_of};
use b2_base::text::Text;
use b2_base::token::Token;
use jam_grammar::mark::TokenMark;
use jam_grammar::tree::{Block, Case, Form, Other, Stmt};
use std::alloc::Global;
use std::rc::Rc;

/// Reads statements as long as there are, where depth are open.
#[cycle(stmts)]
pub fn stmts<'a>(
    alloc: Global,
    rest: &'a [Token],
    depth: u8,
) -> Result<(Vec<Stmt>, &'a [Token]), ReadingFault<'a>>
    requires { depth ≤ 64 }
    ensures { MatchResult result (λ r. IsRead (Stmts ∷ []) rest.now depth (stmts_syms r.0.items) r.1.now) (λ e. EndsBy (Stmts ∷ []) rest.now depth e) }
{
    let mut found = Vec::new(alloc);
    let mut left = rest;
    'each: while at_stmt(left) {
        let (one, after) = stmt(alloc, left, depth)?;
        found.push(one)?;
        left = after;
    }
    Ok((found, left))
}

/// Reads a statement with its line.
#[cycle(stmts)]
fn stmt<'a>(
    alloc: Global,
    rest: &'a [Token],
    depth: u8,
) -> Result<(Stmt, &'a [Token]), ReadingFault<'a>>
    requires { depth ≤ 64 }
    ensures { MatchResult result (λ r. IsRead (OneStmt ∷ []) rest.now depth (stmt_syms r.0) r.1.now) (λ e. EndsBy (OneStmt ∷ []) rest.now depth e) }
{
    match next_of(rest) {
        Some((_, first, _)) => {
            let (form, after) = form(alloc, rest, depth)?;
            Ok((
                Stmt {
                    line: first.line,
                    form,
                },
                after,
            ))
        }
        None => Err(ReadingFault::At(rest)),
    }
}

/// Reads what a statement says.
#[cycle(stmts)]
fn form<'a>(
    alloc: Global,
    rest: &'a [Token],
    depth: u8,
) -> Result<(Form, &'a [Token]), ReadingFault<'a>>
    requires { depth ≤ 64 }
    ensures { MatchResult result (λ r. IsRead (OneStmt ∷ []) rest.now depth (form_syms r.0) r.1.now) (λ e. EndsBy (OneStmt ∷ []) rest.now depth e) }
{
    match start_of(rest) {
        Start::Argument => by_arg(alloc, rest, depth),
        Start::Brace => braces(alloc, rest, depth),
        Start::Local(after) => local(alloc, after, depth),
        Start::Include(after) => include(alloc, after, depth),
        Start::Return(after) => returned(alloc, after, depth),
        Start::If(after) if depth < MAX_OPEN => if_form(alloc, after, depth),
        Start::For(after) if depth < MAX_OPEN => for_form(alloc, after, depth),
        Start::While(after) if depth < MAX_OPEN => while_form(alloc, after, depth),
        Start::Switch(after) if depth < MAX_OPEN => switch_form(alloc, after, depth),
        Start::Module(after) if depth < MAX_OPEN => module_form(alloc, after, depth),
        Start::Rule(after) if depth < MAX_OPEN => rule_form(alloc, after, depth),
        Start::Actions(after) if depth < MAX_OPEN => actions(after, depth),
        Start::On(after) if depth < MAX_OPEN => on_form(alloc, after, depth + 1),
        _ => Err(ReadingFault::At(rest)),
    }
}

/// Reads a block in braces.
#[cycle(stmts)]
fn block<'a>(
    alloc: Global,
    rest: &'a [Token],
    depth: u8,
) -> Result<(Block, &'a [Token]), ReadingFault<'a>>
    requires { depth ≤ 64 }
    ensures { MatchResult result (λ r. IsRead (OneBlock ∷ []) rest.now depth (braced (block_syms r.0)) r.1.now) (λ e. EndsBy (OneBlock ∷ []) rest.now depth e) }
{
    match past(rest, TokenMark::BraceOpen) {
        Some(after) if depth < MAX_OPEN => {
            let (stmts, after) = stmts(alloc, after, depth + 1)?;
            let after = key_here(after, TokenMark::BraceClose, depth)?;
            Ok((Block { stmts }, after))
        }
        _ => Err(ReadingFault::At(rest)),
    }
}

/// Reads a block that is a statement.
#[cycle(stmts)]
fn braces<'a>(
    alloc: Global,
    rest: &'a [Token],
    depth: u8,
) -> Result<(Form, &'a [Token]), ReadingFault<'a>>
    requires { depth ≤ 64 }
    ensures { MatchResult result (λ r. IsRead (OneBlock ∷ []) rest.now depth (form_syms r.0) r.1.now) (λ e. EndsBy (OneBlock ∷ []) rest.now depth e) }
{
    let (block, after) = block(alloc, rest, depth)?;
    Ok((Form::Braces(block), after))
}

/// Reads what stands after `if`.
#[cycle(stmts)]
fn if_form<'a>(
    alloc: Global,
    rest: &'a [Token],
    depth: u8,
) -> Result<(Form, &'a [Token]), ReadingFault<'a>>
    requires { depth < 64 }
    ensures { ReadsOn result (spelling.Key marks.If ∷ []) (OneExpr ∷ OneBlock ∷ OneElse ∷ []) rest.now depth (λ r. only (is_if (form_tree r.0)) (form_syms r.0)) (λ r. r.1.now) }
{
    let (test, after) = expr(alloc, rest, depth)?;
    match branches(alloc, after, depth) {
        Ok((then, other, after)) => Ok((Form::If { test, then, other }, after)),
        Err(fault) => {
            drop(test);
            Err(fault)
        }
    }
}

/// Reads the block of an `if`, and what may follow on it.
#[cycle(stmts)]
fn branches<'a>(
    alloc: Global,
    rest: &'a [Token],
    depth: u8,
) -> Result<(Block, Other, &'a [Token]), ReadingFault<'a>>
    requires { depth < 64 }
    ensures { Reads result (OneBlock ∷ OneElse ∷ []) rest.now depth (λ r. braced (block_syms r.0) ++ other_syms r.1) (λ r. r.2.now) }
{
    let (then, after) = block(alloc, rest, depth)?;
    let (other, after) = other(alloc, after, depth)?;
    Ok((then, other, after))
}

/// Reads what may follow on the block of an `if`.
#[cycle(stmts)]
fn other<'a>(
    alloc: Global,
    rest: &'a [Token],
    depth: u8,
) -> Result<(Other, &'a [Token]), ReadingFault<'a>>
    requires { depth < 64 }
    ensures { MatchResult result (λ r. IsRead (OneElse ∷ []) rest.now depth (other_syms r.0) r.1.now) (λ e. EndsBy (OneElse ∷ []) rest.now depth e) }
{
    match past(rest, TokenMark::Else) {
        Some(after) => else_tail(alloc, after, depth),
        None => Ok((Other::Nothing, rest)),
    }
}

/// Reads what stands after `else`.
#[cycle(stmts)]
fn else_tail<'a>(
    alloc: Global,
    rest: &'a [Token],
    depth: u8,
) -> Result<(Other, &'a [Token]), ReadingFault<'a>>
    requires { depth < 64 }
    ensures { ReadsOn result (spelling.Key marks.Else ∷ []) (ElseTail ∷ []) rest.now depth (λ r. other_syms r.0) (λ r. r.1.now) }
{
    match past(rest, TokenMark::If) {
        Some(after) if depth + 1 < MAX_OPEN => else_if(alloc, line_of(rest), after, depth + 1),
        Some(_) => Err(ReadingFault::At(rest)),
        None => {
            let (block, after) = block(alloc, rest, depth)?;
            Ok((Other::Braces(block), after))
        }
    }
}

/// Reads what stands after `else if`, of which `if` is on the line; the `else` is counted in depth.
#[cycle(stmts)]
fn else_if<'a>(
    alloc: Global,
    line: u32,
    rest: &'a [Token],
    depth: u8,
) -> Result<(Other, &'a [Token]), ReadingFault<'a>>
    requires { depth < 64 }
    ensures { ReadsOn result (spelling.Key marks.Else ∷ spelling.From line ∷ spelling.Key marks.If ∷ []) (OneExpr ∷ OneBlock ∷ OneElse ∷ []) rest.now depth (λ r. other_syms r.0) (λ r. r.1.now) }
{
    let (form, after) = if_form(alloc, rest, depth)?;
    let stmt = Box::new(alloc, Stmt { line, form })?;
    Ok((Other::If(stmt), after))
}

/// Reads what stands after `for`.
#[cycle(stmts)]
fn for_form<'a>(
    alloc: Global,
    rest: &'a [Token],
    depth: u8,
) -> Result<(Form, &'a [Token]), ReadingFault<'a>>
    requires { depth ≤ 64 }
    ensures { ReadsOn result (spelling.Key marks.For ∷ []) (ForTail ∷ []) rest.now depth (λ r. form_syms r.0) (λ r. r.1.now) }
{
    match past(rest, TokenMark::Local) {
        Some(after) => for_rest(alloc, true, after, depth),
        None => for_rest(alloc, false, rest, depth),
    }
}

/// Reads what stands after `for`, and after `local` there.
#[cycle(stmts)]
fn for_rest<'a>(
    alloc: Global,
    local: bool,
    rest: &'a [Token],
    depth: u8,
) -> Result<(Form, &'a [Token]), ReadingFault<'a>>
    requires { depth ≤ 64 }
    ensures { ReadsOn result (spelling.Key marks.For ∷ local_syms local) (OneWord ∷ Key marks.In ∷ Args ∷ OneBlock ∷ []) rest.now depth (λ r. form_syms r.0) (λ r. r.1.now) }
{
    let (name, after) = word_here(rest, depth)?;
    let after = key_here(after, TokenMark::In, depth)?;
    let (items, after) = args(alloc, after, depth)?;
    let (block, after) = block(alloc, after, depth)?;
    Ok((
        Form::For {
            local,
            name,
            items,
            block,
        },
        after,
    ))
}

/// Reads what stands after `while`.
#[cycle(stmts)]
fn while_form<'a>(
    alloc: Global,
    rest: &'a [Token],
    depth: u8,
) -> Result<(Form, &'a [Token]), ReadingFault<'a>>
    requires { depth ≤ 64 }
    ensures { ReadsOn result (spelling.Key marks.While ∷ []) (OneExpr ∷ OneBlock ∷ []) rest.now depth (λ r. form_syms r.0) (λ r. r.1.now) }
{
    let (test, after) = expr(alloc, rest, depth)?;
    match block(alloc, after, depth) {
        Ok((block, after)) => Ok((Form::While { test, block }, after)),
        Err(fault) => {
            drop(test);
            Err(fault)
        }
    }
}

/// Reads what stands after `module`.
#[cycle(stmts)]
fn module_form<'a>(
    alloc: Global,
    rest: &'a [Token],
    depth: u8,
) -> Result<(Form, &'a [Token]), ReadingFault<'a>>
    requires { depth ≤ 64 }
    ensures { ReadsOn result (spelling.Key marks.Module ∷ []) (Args ∷ OneBlock ∷ []) rest.now depth (λ r. form_syms r.0) (λ r. r.1.now) }
{
    let (name, after) = args(alloc, rest, depth)?;
    let (block, after) = block(alloc, after, depth)?;
    Ok((Form::Module { name, block }, after))
}

/// Reads what stands after `switch`.
#[cycle(stmts)]
fn switch_form<'a>(
    alloc: Global,
    rest: &'a [Token],
    depth: u8,
) -> Result<(Form, &'a [Token]), ReadingFault<'a>>
    requires { depth ≤ 64 }
    ensures { ReadsOn result (spelling.Key marks.Switch ∷ []) (Args ∷ CaseBlock ∷ []) rest.now depth (λ r. form_syms r.0) (λ r. r.1.now) }
{
    let (value, after) = args(alloc, rest, depth)?;
    let (cases, after) = case_block(alloc, after, depth)?;
    Ok((Form::Switch { value, cases }, after))
}

/// Reads cases in braces.
#[cycle(stmts)]
fn case_block<'a>(
    alloc: Global,
    rest: &'a [Token],
    depth: u8,
) -> Result<(Vec<Case>, &'a [Token]), ReadingFault<'a>>
    requires { depth ≤ 64 }
    ensures { MatchResult result (λ r. IsRead (CaseBlock ∷ []) rest.now depth (braced (cases_syms r.0.items)) r.1.now) (λ e. EndsBy (CaseBlock ∷ []) rest.now depth e) }
{
    match past(rest, TokenMark::BraceOpen) {
        Some(after) if depth < MAX_OPEN => {
            let (found, after) = cases(alloc, after, depth + 1)?;
            let after = key_here(after, TokenMark::BraceClose, depth)?;
            Ok((found, after))
        }
        _ => Err(ReadingFault::At(rest)),
    }
}

/// Reads cases as long as there are.
#[cycle(stmts)]
fn cases<'a>(
    alloc: Global,
    rest: &'a [Token],
    depth: u8,
) -> Result<(Vec<Case>, &'a [Token]), ReadingFault<'a>>
    requires { depth ≤ 64 }
    ensures { MatchResult result (λ r. IsRead (Cases ∷ []) rest.now depth (cases_syms r.0.items) r.1.now) (λ e. EndsBy (Cases ∷ []) rest.now depth e) }
{
    let mut found = Vec::new(alloc);
    let mut left = rest;
    'each: while let Some(after) = past(left, TokenMark::Case) {
        let (one, after) = one_case(alloc, after, depth)?;
        found.push(one)?;
        left = after;
    }
    Ok((found, left))
}

/// Reads what stands after `case`.
#[cycle(stmts)]
fn one_case<'a>(
    alloc: Global,
    rest: &'a [Token],
    depth: u8,
) -> Result<(Case, &'a [Token]), ReadingFault<'a>>
    requires { depth ≤ 64 }
    ensures { ReadsOn result (spelling.Key marks.Case ∷ []) (OneWord ∷ Key marks.Colon ∷ Stmts ∷ []) rest.now depth (λ r. case_syms r.0) (λ r. r.1.now) }
{
    let (pattern, after) = word_here(rest, depth)?;
    let after = key_here(after, TokenMark::Colon, depth)?;
    let (stmts, after) = stmts(alloc, after, depth)?;
    Ok((
        Case {
            pattern,
            block: Block { stmts },
        },
        after,
    ))
}

/// Reads what stands after `rule`.
#[cycle(stmts)]
fn rule_form<'a>(
    alloc: Global,
    rest: &'a [Token],
    depth: u8,
) -> Result<(Form, &'a [Token]), ReadingFault<'a>>
    requires { depth < 64 }
    ensures { ReadsOn result (spelling.Key marks.Rule ∷ []) (OneWord ∷ RuleTail ∷ []) rest.now depth (λ r. form_syms r.0) (λ r. r.1.now) }
{
    let (name, after) = word_here(rest, depth)?;
    let (form, after) = rule_tail(alloc, name, after, depth)?;
    Ok((form, after))
}

/// Reads what stands after the name of a rule.
#[cycle(stmts)]
fn rule_tail<'a>(
    alloc: Global,
    name: Text,
    rest: &'a [Token],
    depth: u8,
) -> Result<(Form, &'a [Token]), ReadingFault<'a>>
    requires { depth < 64 }
    ensures { ReadsOn result (spelling.Key marks.Rule ∷ spelling.Says name ∷ []) (RuleTail ∷ []) rest.now depth (λ r. form_syms r.0) (λ r. r.1.now) }
{
    match past(rest, TokenMark::ParenOpen) {
        Some(after) => with_params(alloc, name, after, depth),
        None => {
            let (block, after) = block(alloc, rest, depth)?;
            let params = Vec::new(alloc);
            let block = Rc::new(alloc, block)?;
            Ok((
                Form::Rule {
                    name,
                    params,
                    block,
                },
                after,
            ))
        }
    }
}

/// Reads what stands after the opening parenthesis of a rule.
#[cycle(stmts)]
fn with_params<'a>(
    alloc: Global,
    name: Text,
    rest: &'a [Token],
    depth: u8,
) -> Result<(Form, &'a [Token]), ReadingFault<'a>>
    requires { depth < 64 }
    ensures { ReadsOn result (spelling.Key marks.Rule ∷ spelling.Says name ∷ spelling.Key marks.ParenOpen ∷ []) after_params rest.now depth (λ r. form_syms r.0) (λ r. r.1.now) }
{
    let (params, after) = params(alloc, rest, depth + 1)?;
    let after = key_here(after, TokenMark::ParenClose, depth)?;
    let (block, after) = block(alloc, after, depth)?;
    let block = Rc::new(alloc, block)?;
    Ok((
        Form::Rule {
            name,
            params,
            block,
        },
        after,
    ))
}

/// Reads what stands after `on`, which is counted in depth.
#[cycle(stmts)]
fn on_form<'a>(
    alloc: Global,
    rest: &'a [Token],
    depth: u8,
) -> Result<(Form, &'a [Token]), ReadingFault<'a>>
    requires { depth ≤ 64 }
    ensures { ReadsOn result (spelling.Key marks.On ∷ []) (OneArg ∷ OneStmt ∷ []) rest.now depth (λ r. form_syms r.0) (λ r. r.1.now) }
{
    let (target, after) = arg(alloc, rest, depth)?;
    let (stmt, after) = stmt(alloc, after, depth)?;
    let stmt = Box::new(alloc, stmt)?;
    Ok((Form::On { target, stmt }, after))
}
