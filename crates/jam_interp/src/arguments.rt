//! Arguments and what stands in brackets.
//!
//! The functions here and in the modules of calls, conditions and statements evaluate one another. Each does what the
//! definition of its name does, where so many levels more may be opened, and closes what it opened before it hands a fault on.
ghost use Rattle.jam_effects.specs.Does.{DoesOn};
ghost use Rattle.jam_effects.specs.Views.{value, values};
ghost use Rattle.jam_interp.specs.FunctionParts.{arg_at, bracket_at, inner_at, on_inner_at, on_return_at, args_at, lists_at};

use crate::calls::call_of;
use b2_base::text_list::TextList;
use b2_host::files::Files;
use jam_effects::at::{At, NESTED};
use jam_effects::fault::{EvalCause, EvalFault};
use jam_effects::frames::enter_target;
use jam_effects::lending::only_word;
use jam_effects::turns::Turns;
use jam_effects::words::{join_at, word};
use jam_expand::limit::LimitedList;
use jam_grammar::tree::{Arg, Inner};
use jam_meaning::natives::Natives;
use jam_scope::world::World;
use jam_values::lists::TextLists;
use std::alloc::Global;

/// The value of an argument: a word stands for its expansion, and brackets open a level.
#[cycle(evaluation)]
pub(crate) fn arg<N: Natives, F: Files>(
    alloc: Global,
    world: &mut World,
    turns: &mut Turns,
    natives: &mut N,
    files: &mut F,
    arg: &Arg,
    at: &At<'_>,
) -> Result<TextList, EvalFault>
    ensures { DoesOn N.kept N.meaning F.outside value (arg_at arg.now at.now) world.old turns.old natives.old files.old world.new turns.new natives.new files.new result }
{
    match arg {
        Arg::Word(one) => word(alloc, world, one, at),
        Arg::Bracket(inner) => bracket(alloc, world, turns, natives, files, inner, at),
    }
}

/// The value of brackets, which open a level.
#[cycle(evaluation)]
fn bracket<N: Natives, F: Files>(
    alloc: Global,
    world: &mut World,
    turns: &mut Turns,
    natives: &mut N,
    files: &mut F,
    inner: &Inner,
    at: &At<'_>,
) -> Result<TextList, EvalFault>
    ensures { DoesOn N.kept N.meaning F.outside value (bracket_at inner.now at.now) world.old turns.old natives.old files.old world.new turns.new natives.new files.new result }
{
    if at.levels == 0 {
        return Err(at.fault(EvalCause::Depth));
    }
    let within = At {
        path: at.path,
        line: at.line,
        levels: at.levels - 1,
    };
    inside(alloc, world, turns, natives, files, inner, &within, NESTED)
}

/// The value of what stands in brackets.
#[cycle(evaluation)]
fn inside<N: Natives, F: Files>(
    alloc: Global,
    world: &mut World,
    turns: &mut Turns,
    natives: &mut N,
    files: &mut F,
    inner: &Inner,
    at: &At<'_>,
    nested: u32,
) -> Result<TextList, EvalFault>
    ensures { DoesOn N.kept N.meaning F.outside value (inner_at inner.now at.now) world.old turns.old natives.old files.old world.new turns.new natives.new files.new result }
{
    match inner {
        Inner::Call { head, lists } => call_of(
            alloc, world, turns, natives, files, head, lists, at,
        ),
        Inner::On { target, inner } => on_inside(
            alloc, world, turns, natives, files, target, inner, at, nested,
        ),
        Inner::OnReturn { target, value } => on_return(
            alloc, world, turns, natives, files, target, value, at,
        ),
    }
}

/// What stands in brackets after a target, with the target's own values.
#[cycle(evaluation)]
fn on_inside<N: Natives, F: Files>(
    alloc: Global,
    world: &mut World,
    turns: &mut Turns,
    natives: &mut N,
    files: &mut F,
    target: &Arg,
    inner: &Inner,
    at: &At<'_>,
    nested: u32,
) -> Result<TextList, EvalFault>
    ensures { DoesOn N.kept N.meaning F.outside value (on_inner_at target.now inner.now at.now) world.old turns.old natives.old files.old world.new turns.new natives.new files.new result }
{
    if nested == 0 {
        return Err(EvalFault::OutOfMemory);
    }
    let targets = arg(alloc, world, turns, natives, files, target, at)?;
    enter_target(alloc, world, targets.as_slice())?;
    let ended = inside(alloc, world, turns, natives, files, inner, at, nested - 1);
    world.leave();
    ended
}

/// A list in brackets after a target and `return`, with the target's own values.
#[cycle(evaluation)]
fn on_return<N: Natives, F: Files>(
    alloc: Global,
    world: &mut World,
    turns: &mut Turns,
    natives: &mut N,
    files: &mut F,
    target: &Arg,
    list: &[Arg],
    at: &At<'_>,
) -> Result<TextList, EvalFault>
    ensures { DoesOn N.kept N.meaning F.outside value (on_return_at target.now list.now at.now) world.old turns.old natives.old files.old world.new turns.new natives.new files.new result }
{
    let targets = arg(alloc, world, turns, natives, files, target, at)?;
    enter_target(alloc, world, targets.as_slice())?;
    let ended = args(alloc, world, turns, natives, files, list, at);
    world.leave();
    ended
}

/// The values of arguments, from left to right, each joined to those before it. What one word stands for is not too large, and
/// is not joined again.
#[cycle(evaluation)]
pub(crate) fn args<N: Natives, F: Files>(
    alloc: Global,
    world: &mut World,
    turns: &mut Turns,
    natives: &mut N,
    files: &mut F,
    args: &[Arg],
    at: &At<'_>,
) -> Result<TextList, EvalFault>
    ensures { DoesOn N.kept N.meaning F.outside value (args_at args.now at.now) world.old turns.old natives.old files.old world.new turns.new natives.new files.new result }
{
    if let Some(only) = only_word(args) {
        return word(alloc, world, only, at);
    }
    let mut gathered = LimitedList::new(alloc);
    'each: for one in args {
        let value = arg(alloc, world, turns, natives, files, one, at)?;
        join_at(&mut gathered, value.as_slice(), at)?;
    }
    Ok(gathered.into_list())
}

/// The values of lists of arguments, in order.
#[cycle(evaluation)]
pub(crate) fn lists<N: Natives, F: Files>(
    alloc: Global,
    world: &mut World,
    turns: &mut Turns,
    natives: &mut N,
    files: &mut F,
    lists: &[Vec<Arg>],
    at: &At<'_>,
) -> Result<TextLists, EvalFault>
    ensures { DoesOn N.kept N.meaning F.outside values (lists_at lists.now at.now) world.old turns.old natives.old files.old world.new turns.new natives.new files.new result }
{
    let mut made = TextLists::new(alloc);
    'each: for list in lists {
        let value = args(alloc, world, turns, natives, files, list, at)?;
        made.push(value)?;
    }
    Ok(made)
}
