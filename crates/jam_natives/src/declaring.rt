//! The declaring rules.
ghost use Rattle.std.specs.Prelude.{◌≡◌, ◌&&◌, not, IfOk, OnOk, OnErr};
ghost use Rattle.jam_scope.specs.Changes.{changed};
ghost use Rattle.jam_natives.specs.OutputDirs.{names_output_dirs, is_refused};
ghost use Rattle.jam_natives.specs.Rows.{is_project, decl_of, with_roots};

use crate::decl::Decl;
use crate::output_dirs::{names_output_dirs, root_paths};
use b2_base::fault::OutOfMemory;
use b2_base::list::List;
use b2_base::text_list::{TextList, copy_texts};
use jam_journal::name::Name;
use jam_scope::world::World;
use std::alloc::Global;

fn copy_lists(alloc: Global, lists: &[TextList]) -> Result<List<TextList>, OutOfMemory>
    ensures { IfOk result (λ made. made ≡ lists.now) }
{
    let mut made = List::new(alloc);
    for list in lists {
        made.push(copy_texts(alloc, list.as_slice())?)?;
    }
    Ok(made)
}

/// Whether output roots can still be added to a world, which stays as it is.
fn takes_roots(world: &mut World) -> Result<bool, OutOfMemory>
    ensures value { IfOk result (λ takes. takes ≡ not world.old.now.frozen) }
    ensures same { world.new ≡ world.old }
{
    world.add_roots(&[])
}

/// Whether a call is one of `project` that names output roots.
fn names_roots(name: &str, lists: &[TextList]) -> bool
    ensures { result ≡ (is_project name.now && names_output_dirs lists.now) }
{
    name == "project" && names_output_dirs(lists)
}

/// Whether the call is one of `project` whose output roots are refused. The world stays as it is.
fn is_refused(
    alloc: Global,
    name: &str,
    lists: &[TextList],
    world: &mut World,
) -> Result<bool, OutOfMemory>
    ensures value { IfOk result (λ refused. refused ≡ (is_project name.now && is_refused world.old.now.place world.old.now.frozen lists.now)) }
    ensures same { world.new ≡ world.old }
{
    if !names_roots(name, lists) {
        return Ok(false);
    }
    if world.place().as_str() != "." {
        return Ok(true);
    }
    if !takes_roots(world)? {
        return Ok(true);
    }
    let roots = root_paths(alloc, lists)?;
    Ok(roots.is_none())
}

/// The call as it is recorded. The world stays as it is.
pub(crate) fn decl_of(
    alloc: Global,
    name: &str,
    lists: &[TextList],
    line: u32,
    world: &mut World,
) -> Result<Decl, OutOfMemory>
    ensures value { IfOk result (λ decl. decl ≡ decl_of name.now lists.now line world.old.now) }
    ensures same { world.new ≡ world.old }
{
    let refused = is_refused(alloc, name, lists, world)?;
    let rule = Name::new(alloc, name)?;
    let module = Name::new(alloc, world.module())?;
    let dir = world.place().copy()?;
    let lists = copy_lists(alloc, lists)?;
    Ok(Decl {
        rule,
        module,
        dir,
        line,
        lists,
        refused,
    })
}

/// Adds the output roots that a call of `project` names, unless they are refused. After an error the world is as before.
pub(crate) fn add_output_dirs(
    alloc: Global,
    name: &str,
    lists: &[TextList],
    world: &mut World,
) -> Result<(), OutOfMemory>
    ensures ok { OnOk result (world.new ≡ changed (with_roots name.now lists.now) world.old) }
    ensures err { OnErr result (world.new ≡ world.old) }
{
    if !names_roots(name, lists) {
        return Ok(());
    }
    if world.place().as_str() != "." {
        return Ok(());
    }
    let Some(roots) = root_paths(alloc, lists)? else {
        return Ok(());
    };
    world.add_roots(roots.as_slice())?;
    Ok(())
}
