//! Calls.
ghost use Rattle.jam_effects.specs.Does.{DoesOn, DoesInCallOn};
ghost use Rattle.jam_effects.specs.Views.{value};
ghost use Rattle.jam_interp.specs.FunctionParts.{call_of_at, call_head_at, call_at, applied_at, ruled_at, run_rule_at, unruled_at, stepped_at, transformed_at, filtered_at, bracket_call_at};

use crate::arguments::{arg, lists};
use crate::statements::stmts;
use b2_base::text::Text;
use b2_base::text_list::TextList;
use b2_host::files::Files;
use jam_effects::at::At;
use jam_effects::calling::{named_call, one_list, rule_named};
use jam_effects::fault::{EvalCause, EvalFault};
use jam_effects::flow::value_of;
use jam_effects::frames::enter_call;
use jam_effects::natives::{arity, native_step, record_call, unknown_rule};
use jam_effects::turns::{Turns, take_turn};
use jam_effects::words::{join_at, keep_if};
use jam_expand::limit::LimitedList;
use jam_grammar::tree::Arg;
use jam_meaning::natives::{NativeStep, Natives};
use jam_scope::rule::Rule;
use jam_scope::world::World;
use jam_values::bindings::call_binds;
use jam_values::conditions::is_true;
use jam_values::lists::TextLists;
use std::alloc::Global;

/// A call: its first argument is evaluated, then its lists.
#[cycle(evaluation)]
pub(crate) fn call_of<N: Natives, F: Files>(
    alloc: Global,
    world: &mut World,
    turns: &mut Turns,
    natives: &mut N,
    files: &mut F,
    head: &Arg,
    given: &[Vec<Arg>],
    at: &At<'_>,
) -> Result<TextList, EvalFault>
    ensures { DoesOn N.kept N.meaning F.outside value (call_of_at head.now given.now at.now) world.old turns.old natives.old files.old world.new turns.new natives.new files.new result }
{
    let names = arg(alloc, world, turns, natives, files, head, at)?;
    let values = lists(alloc, world, turns, natives, files, given, at)?;
    call_head(
        alloc,
        world,
        turns,
        natives,
        files,
        names.as_slice(),
        values,
        at,
    )
}

/// A call of the first of some names, whose others come before the first list; without a name nothing is called.
#[cycle(evaluation)]
fn call_head<N: Natives, F: Files>(
    alloc: Global,
    world: &mut World,
    turns: &mut Turns,
    natives: &mut N,
    files: &mut F,
    names: &[Text],
    given: TextLists,
    at: &At<'_>,
) -> Result<TextList, EvalFault>
    ensures { DoesOn N.kept N.meaning F.outside value (call_head_at names.now given at.now) world.old turns.old natives.old files.old world.new turns.new natives.new files.new result }
{
    match named_call(alloc, names, given, at)? {
        None => Ok(TextList::new(alloc)),
        Some(named) => call(
            alloc,
            world,
            turns,
            natives,
            files,
            &named.name,
            named.lists.as_slice(),
            at,
        ),
    }
}

/// A call, which takes its turn and then opens its level.
#[cycle(evaluation)]
pub(crate) fn call<N: Natives, F: Files>(
    alloc: Global,
    world: &mut World,
    turns: &mut Turns,
    natives: &mut N,
    files: &mut F,
    name: &Text,
    given: &[TextList],
    at: &At<'_>,
) -> Result<TextList, EvalFault>
    ensures { DoesOn N.kept N.meaning F.outside value (call_at name.now given.now at.now) world.old turns.old natives.old files.old world.new turns.new natives.new files.new result }
{
    take_turn(turns, at)?;
    if at.levels == 0 {
        return Err(at.fault(EvalCause::Depth));
    }
    let within = At {
        path: at.path,
        line: at.line,
        levels: at.levels - 1,
    };
    applied(alloc, world, turns, natives, files, name, given, &within)
}

/// A call whose level is open: of a rule, and after it the actions of its name; else of the actions, or of a native rule.
#[cycle(evaluation)]
fn applied<N: Natives, F: Files>(
    alloc: Global,
    world: &mut World,
    turns: &mut Turns,
    natives: &mut N,
    files: &mut F,
    name: &Text,
    given: &[TextList],
    at: &At<'_>,
) -> Result<TextList, EvalFault>
    ensures { DoesInCallOn N.kept N.meaning F.outside value (applied_at name.now given.now at.now) world.old turns.old natives.old files.old world.new turns.new natives.new files.new result }
{
    match rule_named(world, name)? {
        Some(rule) => ruled(alloc, world, turns, natives, files, &rule, name, given, at),
        None => unruled(alloc, world, turns, natives, files, name, given, at),
    }
}

/// A call of a rule, and of the actions of its name.
#[cycle(evaluation)]
fn ruled<N: Natives, F: Files>(
    alloc: Global,
    world: &mut World,
    turns: &mut Turns,
    natives: &mut N,
    files: &mut F,
    rule: &Rule,
    name: &Text,
    given: &[TextList],
    at: &At<'_>,
) -> Result<TextList, EvalFault>
    ensures { DoesInCallOn N.kept N.meaning F.outside value (ruled_at rule.now name.now given.now at.now) world.old turns.old natives.old files.old world.new turns.new natives.new files.new result }
{
    let value = run_rule(alloc, world, turns, natives, files, rule, name, given, at)?;
    let _recorded = record_call(alloc, world, natives, name, given, at)?;
    Ok(value)
}

/// Runs a rule in its home, in a frame that keeps the module of the call, with the argument lists and the parameters bound.
#[cycle(evaluation)]
fn run_rule<N: Natives, F: Files>(
    alloc: Global,
    world: &mut World,
    turns: &mut Turns,
    natives: &mut N,
    files: &mut F,
    rule: &Rule,
    name: &Text,
    given: &[TextList],
    at: &At<'_>,
) -> Result<TextList, EvalFault>
    ensures { DoesOn N.kept N.meaning F.outside value (run_rule_at rule.now name.now given.now at.now) world.old turns.old natives.old files.old world.new turns.new natives.new files.new result }
{
    let Some(bindings) = call_binds(alloc, rule.body().params(), given)? else {
        return Err(arity(name, at));
    };
    enter_call(world, rule.home(), bindings)?;
    let block = rule.body();
    let ended = stmts(
        alloc,
        world,
        turns,
        natives,
        files,
        block.block().stmts.as_slice(),
        block.path(),
        at.levels,
    );
    world.leave();
    value_of(alloc, ended)
}

/// A call of a name that no rule has.
#[cycle(evaluation)]
fn unruled<N: Natives, F: Files>(
    alloc: Global,
    world: &mut World,
    turns: &mut Turns,
    natives: &mut N,
    files: &mut F,
    name: &Text,
    given: &[TextList],
    at: &At<'_>,
) -> Result<TextList, EvalFault>
    ensures { DoesInCallOn N.kept N.meaning F.outside value (unruled_at name.now given.now at.now) world.old turns.old natives.old files.old world.new turns.new natives.new files.new result }
{
    if record_call(alloc, world, natives, name, given, at)? {
        return Ok(TextList::new(alloc));
    }
    let step = native_step(alloc, world, natives, files, name, given, at)?;
    stepped(alloc, world, turns, natives, files, step, name, at)
}

/// Does what a native rule asks for.
#[cycle(evaluation)]
fn stepped<N: Natives, F: Files>(
    alloc: Global,
    world: &mut World,
    turns: &mut Turns,
    natives: &mut N,
    files: &mut F,
    step: NativeStep,
    name: &Text,
    at: &At<'_>,
) -> Result<TextList, EvalFault>
    ensures { DoesOn N.kept N.meaning F.outside value (stepped_at step name.now at.now) world.old turns.old natives.old files.old world.new turns.new natives.new files.new result }
{
    match step {
        NativeStep::Unknown => Err(unknown_rule(name, at)),
        NativeStep::Value(value) => Ok(value),
        NativeStep::Exit(text) => Err(at.fault(EvalCause::Exit { text })),
        NativeStep::Each {
            rule,
            items,
            filter: false,
        } => transformed(
            alloc,
            world,
            turns,
            natives,
            files,
            rule.as_slice(),
            items.as_slice(),
            at,
        ),
        NativeStep::Each {
            rule,
            items,
            filter: true,
        } => filtered(
            alloc,
            world,
            turns,
            natives,
            files,
            rule.as_slice(),
            items.as_slice(),
            at,
        ),
    }
}

/// The values of calls of a rule, one for each item, joined.
#[cycle(evaluation)]
fn transformed<N: Natives, F: Files>(
    alloc: Global,
    world: &mut World,
    turns: &mut Turns,
    natives: &mut N,
    files: &mut F,
    rule: &[Text],
    items: &[Text],
    at: &At<'_>,
) -> Result<TextList, EvalFault>
    ensures { DoesOn N.kept N.meaning F.outside value (transformed_at rule.now items.now at.now) world.old turns.old natives.old files.old world.new turns.new natives.new files.new result }
{
    let mut gathered = LimitedList::new(alloc);
    'each: for item in items {
        let value = bracket_call(alloc, world, turns, natives, files, rule, item, at)?;
        join_at(&mut gathered, value.as_slice(), at)?;
    }
    Ok(gathered.into_list())
}

/// The items for which the value of a call of a rule is true.
#[cycle(evaluation)]
fn filtered<N: Natives, F: Files>(
    alloc: Global,
    world: &mut World,
    turns: &mut Turns,
    natives: &mut N,
    files: &mut F,
    rule: &[Text],
    items: &[Text],
    at: &At<'_>,
) -> Result<TextList, EvalFault>
    ensures { DoesOn N.kept N.meaning F.outside value (filtered_at rule.now items.now at.now) world.old turns.old natives.old files.old world.new turns.new natives.new files.new result }
{
    let mut kept = TextList::new(alloc);
    'each: for item in items {
        let value = bracket_call(alloc, world, turns, natives, files, rule, item, at)?;
        keep_if(&mut kept, item, is_true(value.as_slice()))?;
    }
    Ok(kept)
}

/// A call of a rule with an item, as in brackets.
#[cycle(evaluation)]
fn bracket_call<N: Natives, F: Files>(
    alloc: Global,
    world: &mut World,
    turns: &mut Turns,
    natives: &mut N,
    files: &mut F,
    rule: &[Text],
    item: &Text,
    at: &At<'_>,
) -> Result<TextList, EvalFault>
    ensures { DoesOn N.kept N.meaning F.outside value (bracket_call_at rule.now item.now at.now) world.old turns.old natives.old files.old world.new turns.new natives.new files.new result }
{
    if at.levels == 0 {
        return Err(at.fault(EvalCause::Depth));
    }
    let within = At {
        path: at.path,
        line: at.line,
        levels: at.levels - 1,
    };
    let given = one_list(alloc, item)?;
    call_head(alloc, world, turns, natives, files, rule, given, &within)
}
