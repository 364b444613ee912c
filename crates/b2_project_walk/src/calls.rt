//! Recorded calls of declaring rules.
ghost use Rattle.std.specs.Prelude.{◌≡◌, ◌++◌, IfOk, OnOk, map, drop};
ghost use Rattle.std.specs.List.{flat_map};
ghost use Rattle.b2_project_walk.specs.RecordedCalls.{call_of, names_of};

use b2_base::fault::OutOfMemory;
use b2_base::path::Path;
use b2_base::path_list::PathList;
use b2_base::text::{Text, has_no_zero};
use b2_declared::visit::Call;
use b2_declaring_calls::declaration::Declaration;
use b2_declaring_calls::naming::named_directories;
use b2_declaring_calls::reading::declaration;
use jam_natives::decl::Decl;
use std::alloc::Global;

/// A rule's name as a text. A zero byte, which no name of a rule has, is answered as out of memory.
fn rule_name(alloc: Global, rule: &str) -> Result<Text, OutOfMemory>
    ensures { IfOk result (λ name. name ≡ rule.now) }
{
    if !has_no_zero(rule) {
        return Err(OutOfMemory);
    }
    Text::new(alloc, rule)
}

/// What a recorded call says: the project at a place made it.
fn call_of(alloc: Global, project: usize, decl: &Decl) -> Result<Call, OutOfMemory>
    ensures { IfOk result (λ call. call ≡ call_of project decl.now) }
{
    let declaration = declaration(alloc, decl.rule.as_str(), decl.lists.as_slice())?;
    Ok(Call {
        project,
        rule: rule_name(alloc, decl.rule.as_str())?,
        line: decl.line,
        declaration,
        refused: decl.refused,
    })
}

/// What follows some first calls. Takes no memory.
pub fn rest_of(decls: &[Decl], count: usize) -> &[Decl]
    ensures { result.now ≡ drop count decls.now }
{
    if count < decls.len() {
        &decls[count..]
    } else {
        &[]
    }
}

/// What recorded calls say, in order.
pub fn calls_of(alloc: Global, project: usize, decls: &[Decl]) -> Result<Vec<Call>, OutOfMemory>
    ensures { IfOk result (λ calls. calls.items ≡ map (call_of project) decls.now) }
{
    let mut calls = Vec::new(alloc);
    for decl in decls {
        calls.push(call_of(alloc, project, decl)?)?;
    }
    Ok(calls)
}

/// The directories that a call of a project names.
fn names_of(
    alloc: Global,
    dir: &Path,
    declaration: &Option<Declaration>,
) -> Result<PathList, OutOfMemory>
    ensures { IfOk result (λ dirs. dirs ≡ names_of dir.now declaration.now) }
{
    match declaration {
        None => Ok(PathList::new(alloc)),
        Some(declaration) => named_directories(alloc, dir, declaration),
    }
}

/// Adds directories at the end.
pub fn append(dirs: &mut Vec<Path>, more: PathList) -> Result<(), OutOfMemory>
    ensures { OnOk result (dirs.new.items ≡ dirs.old.items ++ more) }
{
    for dir in more.into_vec() {
        dirs.push(dir)?;
    }
    Ok(())
}

/// The directories that the calls of a project name, in order.
pub fn names_of_all(alloc: Global, dir: &Path, calls: &[Call]) -> Result<PathList, OutOfMemory>
    ensures { IfOk result (λ dirs. dirs ≡ flat_map (λ call. names_of dir.now call.declaration) calls.now) }
{
    let mut dirs = Vec::new(alloc);
    for call in calls {
        append(&mut dirs, names_of(alloc, dir, &call.declaration)?)?;
    }
    Ok(PathList::from_vec(dirs))
}
