//! Conditions.
ghost use Rattle.jam_effects.specs.Does.{DoesOn};
ghost use Rattle.jam_effects.specs.Views.{truth};
ghost use Rattle.jam_interp.specs.FunctionParts.{expr_at, any_of_at, all_of_at, bare_at, same_at, among_at};

use crate::arguments::{arg, args};
use b2_host::files::Files;
use jam_effects::at::At;
use jam_effects::fault::EvalFault;
use jam_effects::lending::{lent_same, lent_true, lent_within};
use jam_effects::turns::Turns;
use jam_grammar::tree::{Arg, Expr};
use jam_meaning::natives::Natives;
use jam_scope::world::World;
use jam_values::conditions::{is_same, is_true, is_within};
use std::alloc::Global;

/// Whether a condition holds.
#[cycle(evaluation)]
pub(crate) fn expr<N: Natives, F: Files>(
    alloc: Global,
    world: &mut World,
    turns: &mut Turns,
    natives: &mut N,
    files: &mut F,
    test: &Expr,
    at: &At<'_>,
    nested: u32,
) -> Result<bool, EvalFault>
    ensures { DoesOn N.kept N.meaning F.outside truth (expr_at test.now at.now) world.old turns.old natives.old files.old world.new turns.new natives.new files.new result }
{
    match test {
        Expr::Or(members) => any_of(alloc, world, turns, natives, files, members, at, nested),
        Expr::And(members) => all_of(alloc, world, turns, natives, files, members, at, nested),
        Expr::Not(test) => {
            let holds = within_expr(alloc, world, turns, natives, files, test, at, nested)?;
            Ok(!holds)
        }
        Expr::Group(test) => within_expr(alloc, world, turns, natives, files, test, at, nested),
        Expr::Bare(value) => bare(alloc, world, turns, natives, files, value, at),
        Expr::Equal(left, right) => same(alloc, world, turns, natives, files, left, right, at),
        Expr::Differ(left, right) => {
            let holds = same(alloc, world, turns, natives, files, left, right, at)?;
            Ok(!holds)
        }
        Expr::Within(value, among) => among_list(
            alloc, world, turns, natives, files, value, among, at,
        ),
    }
}

/// Whether a condition within another one holds.
#[cycle(evaluation)]
fn within_expr<N: Natives, F: Files>(
    alloc: Global,
    world: &mut World,
    turns: &mut Turns,
    natives: &mut N,
    files: &mut F,
    test: &Expr,
    at: &At<'_>,
    nested: u32,
) -> Result<bool, EvalFault>
    ensures { DoesOn N.kept N.meaning F.outside truth (expr_at test.now at.now) world.old turns.old natives.old files.old world.new turns.new natives.new files.new result }
{
    if nested == 0 {
        return Err(EvalFault::OutOfMemory);
    }
    expr(alloc, world, turns, natives, files, test, at, nested - 1)
}

/// Whether some member holds; the members after it are not evaluated.
#[cycle(evaluation)]
fn any_of<N: Natives, F: Files>(
    alloc: Global,
    world: &mut World,
    turns: &mut Turns,
    natives: &mut N,
    files: &mut F,
    members: &[Expr],
    at: &At<'_>,
    nested: u32,
) -> Result<bool, EvalFault>
    ensures { DoesOn N.kept N.meaning F.outside truth (any_of_at members.now at.now) world.old turns.old natives.old files.old world.new turns.new natives.new files.new result }
{
    'each: for member in members {
        if within_expr(alloc, world, turns, natives, files, member, at, nested)? {
            return Ok(true);
        }
    }
    Ok(false)
}

/// Whether all members hold; those after one that does not are not evaluated.
#[cycle(evaluation)]
fn all_of<N: Natives, F: Files>(
    alloc: Global,
    world: &mut World,
    turns: &mut Turns,
    natives: &mut N,
    files: &mut F,
    members: &[Expr],
    at: &At<'_>,
    nested: u32,
) -> Result<bool, EvalFault>
    ensures { DoesOn N.kept N.meaning F.outside truth (all_of_at members.now at.now) world.old turns.old natives.old files.old world.new turns.new natives.new files.new result }
{
    'each: for member in members {
        if !within_expr(alloc, world, turns, natives, files, member, at, nested)? {
            return Ok(false);
        }
    }
    Ok(true)
}

/// Whether an argument's list is true.
#[cycle(evaluation)]
fn bare<N: Natives, F: Files>(
    alloc: Global,
    world: &mut World,
    turns: &mut Turns,
    natives: &mut N,
    files: &mut F,
    value: &Arg,
    at: &At<'_>,
) -> Result<bool, EvalFault>
    ensures { DoesOn N.kept N.meaning F.outside truth (bare_at value.now at.now) world.old turns.old natives.old files.old world.new turns.new natives.new files.new result }
{
    if let Some(holds) = lent_true(world, value) {
        return Ok(holds);
    }
    let value = arg(alloc, world, turns, natives, files, value, at)?;
    Ok(is_true(value.as_slice()))
}

/// Whether two arguments have the same list.
#[cycle(evaluation)]
fn same<N: Natives, F: Files>(
    alloc: Global,
    world: &mut World,
    turns: &mut Turns,
    natives: &mut N,
    files: &mut F,
    left: &Arg,
    right: &Arg,
    at: &At<'_>,
) -> Result<bool, EvalFault>
    ensures { DoesOn N.kept N.meaning F.outside truth (same_at left.now right.now at.now) world.old turns.old natives.old files.old world.new turns.new natives.new files.new result }
{
    if let Some(holds) = lent_same(world, left, right) {
        return Ok(holds);
    }
    let first = arg(alloc, world, turns, natives, files, left, at)?;
    let second = arg(alloc, world, turns, natives, files, right, at)?;
    Ok(is_same(first.as_slice(), second.as_slice()))
}

/// Whether each text of an argument is in a list.
#[cycle(evaluation)]
fn among_list<N: Natives, F: Files>(
    alloc: Global,
    world: &mut World,
    turns: &mut Turns,
    natives: &mut N,
    files: &mut F,
    value: &Arg,
    among: &[Arg],
    at: &At<'_>,
) -> Result<bool, EvalFault>
    ensures { DoesOn N.kept N.meaning F.outside truth (among_at value.now among.now at.now) world.old turns.old natives.old files.old world.new turns.new natives.new files.new result }
{
    if let Some(holds) = lent_within(alloc, world, value, among) {
        return Ok(holds);
    }
    let texts = arg(alloc, world, turns, natives, files, value, at)?;
    let others = args(alloc, world, turns, natives, files, among, at)?;
    Ok(is_within(alloc, texts.as_slice(), others.as_slice()))
}
