//! Statements.
ghost use Rattle.std.specs.Prelude.{◌≡◌, ◌≢◌, [], true};
ghost use Rattle.jam_grammar.specs.Trees.{form_tree};
ghost use Rattle.jam_effects.specs.Does.{DoesOn};
ghost use Rattle.jam_effects.specs.Views.{value, flow_of};
ghost use Rattle.jam_interp.specs.FunctionParts.{stmts_at, started_at, form_at, sets_variables, block_at, deeper_at, local_at, local_value_at, assign_at, assign_on_at};
ghost use Rattle.jam_interp.specs.FunctionParts.{include_at, included_at, returned_at, if_at, other_at, for_at, rounds_at, while_at, switch_at, module_at, on_at, called_at};

use crate::arguments::{arg, args};
use crate::calls::call_of;
use crate::conditions::expr;
use b2_base::text::Text;
use b2_base::text_list::{TextList, first_of};
use b2_host::files::Files;
use jam_effects::at::{At, NESTED};
use jam_effects::fault::{EvalCause, EvalFault};
use jam_effects::flow::{Flow, file_ended};
use jam_effects::frames::{enter_here, enter_loop, enter_module, enter_target};
use jam_effects::including::read_include;
use jam_effects::naming::{bind_names, define_actions, define_rule, set_item, set_names, set_own};
use jam_effects::turns::{Turns, take_turn};
use jam_grammar::tree::{Arg, Block, Case, Expr, Form, Other, Sign, Stmt};
use jam_meaning::natives::Natives;
use jam_scope::world::World;
use jam_values::cases::chosen;
use std::alloc::Global;

/// Runs statements of a file in order.
#[cycle(evaluation)]
pub(crate) fn stmts<N: Natives, F: Files>(
    alloc: Global,
    world: &mut World,
    turns: &mut Turns,
    natives: &mut N,
    files: &mut F,
    stmts: &[Stmt],
    path: &Text,
    levels: u32,
) -> Result<Flow, EvalFault>
    requires { world.old.now.scopes.frames ≢ [] }
    ensures { DoesOn N.kept N.meaning F.outside flow_of (stmts_at stmts.now path.now levels) world.old turns.old natives.old files.old world.new turns.new natives.new files.new result }
{
    'each: for stmt in stmts {
        match started(alloc, world, turns, natives, files, stmt, path, levels)? {
            Flow::GoesOn => {}
            Flow::Returns(value) => return Ok(Flow::Returns(value)),
        }
    }
    Ok(Flow::GoesOn)
}

/// Runs a statement of a file: it takes its turn, and what it does is at its own line.
#[cycle(evaluation)]
fn started<N: Natives, F: Files>(
    alloc: Global,
    world: &mut World,
    turns: &mut Turns,
    natives: &mut N,
    files: &mut F,
    stmt: &Stmt,
    path: &Text,
    levels: u32,
) -> Result<Flow, EvalFault>
    requires { world.old.now.scopes.frames ≢ [] }
    ensures { DoesOn N.kept N.meaning F.outside flow_of (started_at stmt.now path.now levels) world.old turns.old natives.old files.old world.new turns.new natives.new files.new result }
{
    let at = At {
        path,
        line: stmt.line,
        levels,
    };
    take_turn(turns, &at)?;
    form(alloc, world, turns, natives, files, &stmt.form, &at)
}

/// Does what a statement says.
#[cycle(evaluation)]
fn form<N: Natives, F: Files>(
    alloc: Global,
    world: &mut World,
    turns: &mut Turns,
    natives: &mut N,
    files: &mut F,
    form: &Form,
    at: &At<'_>,
) -> Result<Flow, EvalFault>
    requires { world.old.now.scopes.frames ≢ [] }
    ensures { DoesOn N.kept N.meaning F.outside flow_of (form_at form.now at.now) world.old turns.old natives.old files.old world.new turns.new natives.new files.new result }
{
    match form {
        Form::Braces(inner) => block(alloc, world, turns, natives, files, inner, at),
        Form::Local { .. } | Form::Assign { .. } | Form::AssignOn { .. } => {
            set_form(alloc, world, turns, natives, files, form, at)
        }
        Form::Include(names) => include(alloc, world, turns, natives, files, names, at),
        Form::Return(value) => returned(alloc, world, turns, natives, files, value, at),
        Form::If { test, then, other } => if_form(
            alloc, world, turns, natives, files, test, then, other, at,
        ),
        Form::For {
            local,
            name,
            items,
            block,
        } => for_form(
            alloc, world, turns, natives, files, *local, name, items, block, at,
        ),
        Form::While { test, block } => while_form(
            alloc, world, turns, natives, files, test, block, at,
        ),
        Form::Switch { value, cases } => switch(
            alloc, world, turns, natives, files, value, cases, at,
        ),
        Form::Module { name, block } => module(
            alloc, world, turns, natives, files, name, block, at,
        ),
        Form::Rule {
            name,
            params,
            block,
        } => define_rule(alloc, world, name, params, block, at),
        Form::Actions {
            name,
            together,
            existing,
            quietly,
            body,
        } => define_actions(world, name, *together, *existing, *quietly, body),
        Form::On { target, stmt } => on_form(alloc, world, turns, natives, files, target, stmt, at),
        Form::Call { head, lists } => called(alloc, world, turns, natives, files, head, lists, at),
    }
}

/// Binds or sets variables.
#[cycle(evaluation)]
fn set_form<N: Natives, F: Files>(
    alloc: Global,
    world: &mut World,
    turns: &mut Turns,
    natives: &mut N,
    files: &mut F,
    form: &Form,
    at: &At<'_>,
) -> Result<Flow, EvalFault>
    requires frames { world.old.now.scopes.frames ≢ [] }
    requires sets { sets_variables (form_tree form.now) ≡ true }
    ensures { DoesOn N.kept N.meaning F.outside flow_of (form_at form.now at.now) world.old turns.old natives.old files.old world.new turns.new natives.new files.new result }
{
    match form {
        Form::Local { names, value } => local(
            alloc, world, turns, natives, files, names, value, at,
        ),
        Form::Assign {
            target,
            sign,
            value,
        } => assign(
            alloc, world, turns, natives, files, target, *sign, value, at,
        ),
        Form::AssignOn {
            target,
            on,
            sign,
            value,
        } => assign_on(
            alloc, world, turns, natives, files, target, on, *sign, value, at,
        ),
        _ => unreachable!(),
    }
}

/// Runs a block: one level deeper, in a frame of its own.
#[cycle(evaluation)]
fn block<N: Natives, F: Files>(
    alloc: Global,
    world: &mut World,
    turns: &mut Turns,
    natives: &mut N,
    files: &mut F,
    block: &Block,
    at: &At<'_>,
) -> Result<Flow, EvalFault>
    ensures { DoesOn N.kept N.meaning F.outside flow_of (block_at block.now at.now) world.old turns.old natives.old files.old world.new turns.new natives.new files.new result }
{
    enter_here(alloc, world)?;
    let ended = deeper(alloc, world, turns, natives, files, block, at.path, at);
    world.leave();
    ended
}

/// Runs statements of a file one level deeper.
#[cycle(evaluation)]
fn deeper<N: Natives, F: Files>(
    alloc: Global,
    world: &mut World,
    turns: &mut Turns,
    natives: &mut N,
    files: &mut F,
    block: &Block,
    path: &Text,
    at: &At<'_>,
) -> Result<Flow, EvalFault>
    requires { world.old.now.scopes.frames ≢ [] }
    ensures { DoesOn N.kept N.meaning F.outside flow_of (deeper_at block.now path.now at.now) world.old turns.old natives.old files.old world.new turns.new natives.new files.new result }
{
    if at.levels == 0 {
        return Err(at.fault(EvalCause::Depth));
    }
    stmts(
        alloc,
        world,
        turns,
        natives,
        files,
        block.stmts.as_slice(),
        path,
        at.levels - 1,
    )
}

/// Binds names in the newest frame.
#[cycle(evaluation)]
fn local<N: Natives, F: Files>(
    alloc: Global,
    world: &mut World,
    turns: &mut Turns,
    natives: &mut N,
    files: &mut F,
    names: &[Arg],
    value: &Option<Vec<Arg>>,
    at: &At<'_>,
) -> Result<Flow, EvalFault>
    requires { world.old.now.scopes.frames ≢ [] }
    ensures { DoesOn N.kept N.meaning F.outside flow_of (local_at names.now value.now at.now) world.old turns.old natives.old files.old world.new turns.new natives.new files.new result }
{
    let names = args(alloc, world, turns, natives, files, names, at)?;
    let value = local_value(alloc, world, turns, natives, files, value, at)?;
    bind_names(alloc, world, names.as_slice(), value.as_slice())?;
    Ok(Flow::GoesOn)
}

/// The value that names are bound to: the empty list where none is given.
#[cycle(evaluation)]
fn local_value<N: Natives, F: Files>(
    alloc: Global,
    world: &mut World,
    turns: &mut Turns,
    natives: &mut N,
    files: &mut F,
    list: &Option<Vec<Arg>>,
    at: &At<'_>,
) -> Result<TextList, EvalFault>
    ensures { DoesOn N.kept N.meaning F.outside value (local_value_at list.now at.now) world.old turns.old natives.old files.old world.new turns.new natives.new files.new result }
{
    match list {
        Some(list) => args(alloc, world, turns, natives, files, list, at),
        None => Ok(TextList::new(alloc)),
    }
}

/// Sets names.
#[cycle(evaluation)]
fn assign<N: Natives, F: Files>(
    alloc: Global,
    world: &mut World,
    turns: &mut Turns,
    natives: &mut N,
    files: &mut F,
    target: &Arg,
    sign: Sign,
    value: &[Arg],
    at: &At<'_>,
) -> Result<Flow, EvalFault>
    ensures { DoesOn N.kept N.meaning F.outside flow_of (assign_at target.now sign value.now at.now) world.old turns.old natives.old files.old world.new turns.new natives.new files.new result }
{
    let names = arg(alloc, world, turns, natives, files, target, at)?;
    let value = args(alloc, world, turns, natives, files, value, at)?;
    set_names(alloc, world, names.as_slice(), sign, value.as_slice(), at)?;
    Ok(Flow::GoesOn)
}

/// Sets own values of targets.
#[cycle(evaluation)]
fn assign_on<N: Natives, F: Files>(
    alloc: Global,
    world: &mut World,
    turns: &mut Turns,
    natives: &mut N,
    files: &mut F,
    target: &Arg,
    on: &[Arg],
    sign: Sign,
    value: &[Arg],
    at: &At<'_>,
) -> Result<Flow, EvalFault>
    ensures { DoesOn N.kept N.meaning F.outside flow_of (assign_on_at target.now on.now sign value.now at.now) world.old turns.old natives.old files.old world.new turns.new natives.new files.new result }
{
    let names = arg(alloc, world, turns, natives, files, target, at)?;
    let targets = args(alloc, world, turns, natives, files, on, at)?;
    let value = args(alloc, world, turns, natives, files, value, at)?;
    set_own(
        alloc,
        world,
        targets.as_slice(),
        names.as_slice(),
        sign,
        value.as_slice(),
        at,
    )?;
    Ok(Flow::GoesOn)
}

/// Runs the file of the first name; without a name nothing is done.
#[cycle(evaluation)]
fn include<N: Natives, F: Files>(
    alloc: Global,
    world: &mut World,
    turns: &mut Turns,
    natives: &mut N,
    files: &mut F,
    names: &[Arg],
    at: &At<'_>,
) -> Result<Flow, EvalFault>
    ensures { DoesOn N.kept N.meaning F.outside flow_of (include_at names.now at.now) world.old turns.old natives.old files.old world.new turns.new natives.new files.new result }
{
    let names = args(alloc, world, turns, natives, files, names, at)?;
    match names.as_slice() {
        [] => Ok(Flow::GoesOn),
        [name, ..] => included(alloc, world, turns, natives, files, name, at),
    }
}

/// Runs the file of a name, in a frame of the present module, one level deeper. `return` ends it alone.
#[cycle(evaluation)]
fn included<N: Natives, F: Files>(
    alloc: Global,
    world: &mut World,
    turns: &mut Turns,
    natives: &mut N,
    files: &mut F,
    name: &Text,
    at: &At<'_>,
) -> Result<Flow, EvalFault>
    ensures { DoesOn N.kept N.meaning F.outside flow_of (included_at name.now at.now) world.old turns.old natives.old files.old world.new turns.new natives.new files.new result }
{
    let file = read_include(alloc, world, files, name, at)?;
    enter_here(alloc, world)?;
    let ended = deeper(
        alloc,
        world,
        turns,
        natives,
        files,
        &file.tree.block,
        file.path.as_text(),
        at,
    );
    world.leave();
    file_ended(ended)
}

/// Ends the rule or the file with a value.
#[cycle(evaluation)]
fn returned<N: Natives, F: Files>(
    alloc: Global,
    world: &mut World,
    turns: &mut Turns,
    natives: &mut N,
    files: &mut F,
    value: &[Arg],
    at: &At<'_>,
) -> Result<Flow, EvalFault>
    ensures { DoesOn N.kept N.meaning F.outside flow_of (returned_at value.now at.now) world.old turns.old natives.old files.old world.new turns.new natives.new files.new result }
{
    let value = args(alloc, world, turns, natives, files, value, at)?;
    Ok(Flow::Returns(value))
}

/// Runs one of two, by a condition.
#[cycle(evaluation)]
fn if_form<N: Natives, F: Files>(
    alloc: Global,
    world: &mut World,
    turns: &mut Turns,
    natives: &mut N,
    files: &mut F,
    test: &Expr,
    then: &Block,
    next: &Other,
    at: &At<'_>,
) -> Result<Flow, EvalFault>
    requires { world.old.now.scopes.frames ≢ [] }
    ensures { DoesOn N.kept N.meaning F.outside flow_of (if_at test.now then.now next.now at.now) world.old turns.old natives.old files.old world.new turns.new natives.new files.new result }
{
    if expr(alloc, world, turns, natives, files, test, at, NESTED)? {
        block(alloc, world, turns, natives, files, then, at)
    } else {
        other(alloc, world, turns, natives, files, next, at)
    }
}

/// Runs what follows on an `if` whose condition does not hold.
#[cycle(evaluation)]
fn other<N: Natives, F: Files>(
    alloc: Global,
    world: &mut World,
    turns: &mut Turns,
    natives: &mut N,
    files: &mut F,
    next: &Other,
    at: &At<'_>,
) -> Result<Flow, EvalFault>
    requires { world.old.now.scopes.frames ≢ [] }
    ensures { DoesOn N.kept N.meaning F.outside flow_of (other_at next.now at.now) world.old turns.old natives.old files.old world.new turns.new natives.new files.new result }
{
    match next {
        Other::Nothing => Ok(Flow::GoesOn),
        Other::Braces(inner) => block(alloc, world, turns, natives, files, inner, at),
        Other::If(stmt) => started(
            alloc, world, turns, natives, files, stmt, at.path, at.levels,
        ),
    }
}

/// Runs a block for each text of a list; with `local` the name is bound in a frame of the loop.
#[cycle(evaluation)]
fn for_form<N: Natives, F: Files>(
    alloc: Global,
    world: &mut World,
    turns: &mut Turns,
    natives: &mut N,
    files: &mut F,
    own: bool,
    name: &Text,
    items: &[Arg],
    inner: &Block,
    at: &At<'_>,
) -> Result<Flow, EvalFault>
    ensures { DoesOn N.kept N.meaning F.outside flow_of (for_at own name.now items.now inner.now at.now) world.old turns.old natives.old files.old world.new turns.new natives.new files.new result }
{
    let texts = args(alloc, world, turns, natives, files, items, at)?;
    if !own {
        return rounds(
            alloc,
            world,
            turns,
            natives,
            files,
            name,
            texts.as_slice(),
            inner,
            at,
        );
    }
    enter_loop(alloc, world, name)?;
    let ended = rounds(
        alloc,
        world,
        turns,
        natives,
        files,
        name,
        texts.as_slice(),
        inner,
        at,
    );
    world.leave();
    ended
}

/// A round for each text: it takes its turn, sets the name, and runs the block.
#[cycle(evaluation)]
fn rounds<N: Natives, F: Files>(
    alloc: Global,
    world: &mut World,
    turns: &mut Turns,
    natives: &mut N,
    files: &mut F,
    name: &Text,
    texts: &[Text],
    inner: &Block,
    at: &At<'_>,
) -> Result<Flow, EvalFault>
    ensures { DoesOn N.kept N.meaning F.outside flow_of (rounds_at name.now texts.now inner.now at.now) world.old turns.old natives.old files.old world.new turns.new natives.new files.new result }
{
    'each: for text in texts {
        take_turn(turns, at)?;
        set_item(alloc, world, name, text)?;
        match block(alloc, world, turns, natives, files, inner, at)? {
            Flow::GoesOn => {}
            Flow::Returns(value) => return Ok(Flow::Returns(value)),
        }
    }
    Ok(Flow::GoesOn)
}

/// Runs a block as long as a condition holds; each round takes its turn after the condition held.
#[cycle(evaluation)]
fn while_form<N: Natives, F: Files>(
    alloc: Global,
    world: &mut World,
    turns: &mut Turns,
    natives: &mut N,
    files: &mut F,
    test: &Expr,
    inner: &Block,
    at: &At<'_>,
) -> Result<Flow, EvalFault>
    ensures { DoesOn N.kept N.meaning F.outside flow_of (while_at test.now inner.now at.now) world.old turns.old natives.old files.old world.new turns.new natives.new files.new result }
{
    'round: while expr(alloc, world, turns, natives, files, test, at, NESTED)? {
        take_turn(turns, at)?;
        match block(alloc, world, turns, natives, files, inner, at)? {
            Flow::GoesOn => {}
            Flow::Returns(value) => return Ok(Flow::Returns(value)),
        }
    }
    Ok(Flow::GoesOn)
}

/// Runs the block of the first case whose pattern matches the first text, or the empty one.
#[cycle(evaluation)]
fn switch<N: Natives, F: Files>(
    alloc: Global,
    world: &mut World,
    turns: &mut Turns,
    natives: &mut N,
    files: &mut F,
    value: &[Arg],
    cases: &[Case],
    at: &At<'_>,
) -> Result<Flow, EvalFault>
    ensures { DoesOn N.kept N.meaning F.outside flow_of (switch_at value.now cases.now at.now) world.old turns.old natives.old files.old world.new turns.new natives.new files.new result }
{
    let texts = args(alloc, world, turns, natives, files, value, at)?;
    match chosen(cases, first_of(texts.as_slice())) {
        Some(inner) => block(alloc, world, turns, natives, files, inner, at),
        None => Ok(Flow::GoesOn),
    }
}

/// Runs a block in the module of the first name, or in the global one.
#[cycle(evaluation)]
fn module<N: Natives, F: Files>(
    alloc: Global,
    world: &mut World,
    turns: &mut Turns,
    natives: &mut N,
    files: &mut F,
    name: &[Arg],
    inner: &Block,
    at: &At<'_>,
) -> Result<Flow, EvalFault>
    ensures { DoesOn N.kept N.meaning F.outside flow_of (module_at name.now inner.now at.now) world.old turns.old natives.old files.old world.new turns.new natives.new files.new result }
{
    let names = args(alloc, world, turns, natives, files, name, at)?;
    enter_module(world, first_of(names.as_slice()))?;
    let ended = deeper(alloc, world, turns, natives, files, inner, at.path, at);
    world.leave();
    ended
}

/// Runs a statement with a target's own values.
#[cycle(evaluation)]
fn on_form<N: Natives, F: Files>(
    alloc: Global,
    world: &mut World,
    turns: &mut Turns,
    natives: &mut N,
    files: &mut F,
    target: &Arg,
    stmt: &Stmt,
    at: &At<'_>,
) -> Result<Flow, EvalFault>
    ensures { DoesOn N.kept N.meaning F.outside flow_of (on_at target.now stmt.now at.now) world.old turns.old natives.old files.old world.new turns.new natives.new files.new result }
{
    let targets = arg(alloc, world, turns, natives, files, target, at)?;
    enter_target(alloc, world, targets.as_slice())?;
    let ended = started(
        alloc, world, turns, natives, files, stmt, at.path, at.levels,
    );
    world.leave();
    ended
}

/// A call as a statement, whose value is dropped.
#[cycle(evaluation)]
fn called<N: Natives, F: Files>(
    alloc: Global,
    world: &mut World,
    turns: &mut Turns,
    natives: &mut N,
    files: &mut F,
    head: &Arg,
    given: &[Vec<Arg>],
    at: &At<'_>,
) -> Result<Flow, EvalFault>
    ensures { DoesOn N.kept N.meaning F.outside flow_of (called_at head.now given.now at.now) world.old turns.old natives.old files.old world.new turns.new natives.new files.new result }
{
    let _value = call_of(alloc, world, turns, natives, files, head, given, at)?;
    Ok(Flow::GoesOn)
}
