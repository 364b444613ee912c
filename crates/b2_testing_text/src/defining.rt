//! Making what the build text defines, one definition after another.
ghost use Rattle.std.specs.Prelude.{◌≡◌, OnOk, OnErr, IfOk};
ghost use Rattle.jam_grammar.specs.Trees.{args_tree, block_tree, form_tree, lists_of, stmts_tree, whole_tree};
ghost use Rattle.jam_scope.specs.Changes.{changed, define_rule as with_rule, define_actions as with_actions};
ghost use Rattle.jam_values.specs.FileReadings.{reading_of};
ghost use Rattle.b2_testing_text.specs.Trees.{testing_tree};
ghost use Rattle.b2_testing_text.specs.Definitions.{made, change_of, of_block, of_form, of_tree, owner_of, definitions, equipped, all_made, KeepsRest, IsPart};

use crate::text::testing_text;
use b2_base::fault::OutOfMemory;
use b2_base::text::Text;
use jam_effects::at::{At, LEVELS};
use jam_effects::naming::{define_actions, define_rule};
use jam_grammar::tree::{Arg, Block, Form, Param, Stmt, Tree};
use jam_scope::world::World;
use jam_values::files::{FileReading, any_read};
use std::alloc::Global;
use std::rc::Rc;

/// The present module has a rule from now on. After an error the world is as before.
fn make_rule(
    alloc: Global,
    world: &mut World,
    name: &Text,
    params: &[Vec<Param>],
    block: &Rc<Block>,
    at: &At<'_>,
) -> Result<(), OutOfMemory>
    ensures ok { OnOk result (world.new ≡ changed (with_rule name.now (lists_of params.now) (block_tree block.now.value) at.now.path.now at.now.line) world.old) }
    ensures err { OnErr result (world.new ≡ world.old) }
{
    match define_rule(alloc, world, name, params, block, at) {
        Ok(flow) => {
            drop(flow);
            Ok(())
        }
        Err(fault) => {
            drop(fault);
            Err(OutOfMemory)
        }
    }
}

/// The present module has actions with these modifiers from now on. After an error the world is as before.
fn make_actions(
    world: &mut World,
    name: &Text,
    together: bool,
    existing: bool,
    quietly: bool,
    body: &Text,
) -> Result<(), OutOfMemory>
    ensures ok { OnOk result (world.new ≡ changed (with_actions name.now record { text = body.now; together = together; existing = existing; quietly = quietly }) world.old) }
    ensures err { OnErr result (world.new ≡ world.old) }
{
    match define_actions(world, name, together, existing, quietly, body) {
        Ok(flow) => {
            drop(flow);
            Ok(())
        }
        Err(fault) => {
            drop(fault);
            Err(OutOfMemory)
        }
    }
}

/// Makes what a statement defines in the present module. After an error the world is as before.
fn change(alloc: Global, world: &mut World, form: &Form, at: &At<'_>) -> Result<(), OutOfMemory>
    ensures ok { OnOk result (world.new ≡ changed (change_of at.now.path.now at.now.line (form_tree form.now)) world.old) }
    ensures err { OnErr result (world.new ≡ world.old) }
{
    match form {
        Form::Rule {
            name,
            params,
            block,
        } => make_rule(alloc, world, name, params, block, at),
        Form::Actions {
            name,
            together,
            existing,
            quietly,
            body,
        } => make_actions(world, name, *together, *existing, *quietly, body),
        _ => Ok(()),
    }
}

/// Makes what a statement of a module defines, in a frame of this module. After an error the world is as before.
fn define(
    alloc: Global,
    world: &mut World,
    owner: &str,
    stmt: &Stmt,
    path: &Text,
) -> Result<(), OutOfMemory>
    ensures ok { OnOk result (world.new ≡ made (record { owner = owner.now; change = change_of path.now stmt.now.line (form_tree stmt.now.form) }) world.old) }
    ensures err { OnErr result (world.new ≡ world.old) }
{
    let at = At {
        path,
        line: stmt.line,
        levels: LEVELS,
    };
    world.enter(owner)?;
    let ended = change(alloc, world, &stmt.form, &at);
    world.leave();
    ended
}

/// Makes what the statements of a module define, in order. After an error a first part is made.
fn define_each(
    alloc: Global,
    world: &mut World,
    owner: &str,
    stmts: &[Stmt],
    path: &Text,
) -> Result<(), OutOfMemory>
    ensures ok { OnOk result (world.new ≡ all_made (of_block path.now owner.now (stmts_tree stmts.now)) world.old) }
    ensures err { OnErr result (IsPart (of_block path.now owner.now (stmts_tree stmts.now)) world.old world.new) }
{
    for stmt in stmts {
        define(alloc, world, owner, stmt, path)?;
    }
    Ok(())
}

/// The name of a module that is a word.
fn owner_of(name: &[Arg]) -> &str
    ensures { result.now ≡ owner_of (args_tree name.now) }
{
    match name {
        [Arg::Word(word), ..] => word.text().as_str(),
        _ => "",
    }
}

/// Makes what a statement of the text defines, if it is a module. After an error a first part is made.
fn define_module(
    alloc: Global,
    world: &mut World,
    form: &Form,
    path: &Text,
) -> Result<(), OutOfMemory>
    ensures ok { OnOk result (world.new ≡ all_made (of_form path.now (form_tree form.now)) world.old) }
    ensures err { OnErr result (IsPart (of_form path.now (form_tree form.now)) world.old world.new) }
{
    match form {
        Form::Module { name, block } => {
            define_each(alloc, world, owner_of(name), &block.stmts, path)
        }
        _ => Ok(()),
    }
}

/// Makes what the modules of a text define, in order. After an error a first part is made.
fn define_modules(
    alloc: Global,
    world: &mut World,
    stmts: &[Stmt],
    path: &Text,
) -> Result<(), OutOfMemory>
    ensures ok { OnOk result (world.new ≡ all_made (of_tree path.now (stmts_tree stmts.now)) world.old) }
    ensures err { OnErr result (IsPart (of_tree path.now (stmts_tree stmts.now)) world.old world.new) }
{
    for stmt in stmts {
        define_module(alloc, world, &stmt.form, path)?;
    }
    Ok(())
}

/// The tree of the build text.
fn text_tree(alloc: Global) -> Result<Tree, OutOfMemory>
    ensures { IfOk result (λ made. whole_tree made ≡ testing_tree) }
{
    match any_read(alloc, testing_text())? {
        FileReading::File(tree) => Ok(tree),
        _ => unreachable!(),
    }
}

/// Makes the definitions of the build text in a world, in order, as a run of the text does. After an error a first part of them is
/// made, and the rest of the world is as before.
pub fn make_definitions(alloc: Global, world: &mut World) -> Result<(), OutOfMemory>
    ensures ok { OnOk result (world.new ≡ equipped world.old) }
    ensures err { OnErr result (IsPart definitions world.old world.new) }
    ensures rest { KeepsRest world.old world.new }
{
    let path = Text::new(alloc, "gcc")?;
    let tree = text_tree(alloc)?;
    define_modules(alloc, world, &tree.block.stmts, &path)
}
