//! Which directories a declaration names.
ghost use Rattle.std.specs.Prelude.{◌≡◌, [], ◌∷◌, ◌++◌, IfOk, OnOk};
ghost use Rattle.b2_base.specs.Segments.{path_from};
ghost use Rattle.b2_declaring_calls.specs.References.{dependencies, list_dependencies};
ghost use Rattle.b2_declaring_calls.specs.Directories.{directories, named_directories};

use crate::declaration::{Declaration, PropertyList};
use crate::places::directory_of;
use crate::references::{TextKind, list_dependencies, push_dependencies};
use b2_base::fault::OutOfMemory;
use b2_base::path::{Path, path_from};
use b2_base::path_list::PathList;
use b2_base::text::Text;
use b2_base::text_list::TextList;
use std::alloc::Global;

/// Adds the directory of a text, where it is a reference by directory.
fn push_directory(
    alloc: Global,
    found: &mut PathList,
    owner: &Path,
    text: &Text,
) -> Result<(), OutOfMemory>
    ensures { OnOk result (found.new ≡ found.old ++ directories owner.now (text.now ∷ [])) }
{
    match directory_of(alloc, owner, text.as_str())? {
        None => Ok(()),
        Some(dir) => found.push(dir),
    }
}

/// Adds the directories of the references among some texts.
fn push_directories(
    alloc: Global,
    found: &mut PathList,
    owner: &Path,
    texts: &[Text],
) -> Result<(), OutOfMemory>
    ensures { OnOk result (found.new ≡ found.old ++ directories owner.now texts.now) }
{
    for text in texts {
        push_directory(alloc, found, owner, text)?;
    }
    Ok(())
}

/// The directories that the references among some texts name in a project of a directory, relative to the folder, in
/// order and with repeats. A reference is a text with `//`; what stands before the first one is the directory: nothing
/// stands for the folder, and an id, which begins with a slash, names no directory.
pub fn directories(alloc: Global, owner: &Path, texts: &[Text]) -> Result<PathList, OutOfMemory>
    ensures { IfOk result (λ found. found ≡ directories owner.now texts.now) }
{
    let mut found = PathList::new(alloc);
    push_directories(alloc, &mut found, owner, texts)?;
    Ok(found)
}

/// The directories that some properties name.
fn of_properties(alloc: Global, owner: &Path, texts: &[Text]) -> Result<PathList, OutOfMemory>
    ensures { IfOk result (λ found. found ≡ directories owner.now (dependencies TextKind.Property texts.now)) }
{
    let mut values = TextList::new(alloc);
    push_dependencies(alloc, &mut values, TextKind::Property, texts)?;
    directories(alloc, owner, values.as_slice())
}

/// The directories that property lists name.
fn of_lists(alloc: Global, owner: &Path, lists: &[PropertyList]) -> Result<PathList, OutOfMemory>
    ensures { IfOk result (λ found. found ≡ directories owner.now (list_dependencies lists.now)) }
{
    let values = list_dependencies(alloc, lists)?;
    directories(alloc, owner, values.as_slice())
}

/// The directories that sources and property lists name.
fn of_parts(
    alloc: Global,
    owner: &Path,
    sources: &[Text],
    lists: &[PropertyList],
) -> Result<PathList, OutOfMemory>
    ensures { IfOk result (λ found. found ≡ directories owner.now sources.now ++ directories owner.now (list_dependencies lists.now)) }
{
    let values = list_dependencies(alloc, lists)?;
    let mut found = directories(alloc, owner, sources)?;
    push_directories(alloc, &mut found, owner, values.as_slice())?;
    Ok(found)
}

/// The one directory, relative to the folder.
fn one_directory(alloc: Global, owner: &Path, dir: &Path) -> Result<PathList, OutOfMemory>
    ensures { IfOk result (λ found. found ≡ path_from owner.now dir.now ∷ []) }
{
    let mut found = PathList::new(alloc);
    found.push(path_from(alloc, owner, dir.as_str())?)?;
    Ok(found)
}

/// The directories that a declaration in the file of a directory names, relative to the folder, in order and with
/// repeats: that of `build-project` and of `use-project`, and those of references. References stand among the sources of
/// a main target or a test, and among the values of the features `library`, `source`, `dependency` and `use` in the
/// property lists of a call, of requirements and usage requirements in the property after the conditions.
pub fn named_directories(
    alloc: Global,
    owner: &Path,
    declaration: &Declaration,
) -> Result<PathList, OutOfMemory>
    ensures { IfOk result (λ found. found ≡ named_directories owner.now declaration.now) }
{
    match declaration {
        Declaration::Project(attributes) => of_lists(alloc, owner, attributes.lists.as_slice()),
        Declaration::Main(target) => of_parts(
            alloc,
            owner,
            target.sources.as_slice(),
            target.lists.as_slice(),
        ),
        Declaration::Test(test) => of_parts(
            alloc,
            owner,
            test.sources.as_slice(),
            test.lists.as_slice(),
        ),
        Declaration::BuildProject(dir) => one_directory(alloc, owner, dir),
        Declaration::UseProject { dir, .. } => one_directory(alloc, owner, dir),
        Declaration::Compose { parts, .. } => of_properties(alloc, owner, parts.as_slice()),
        Declaration::Generator { requirements, .. } => of_properties(
            alloc,
            owner,
            requirements.as_slice(),
        ),
        Declaration::Explicit(_)
        | Declaration::Using { .. }
        | Declaration::Feature { .. }
        | Declaration::FileType { .. }
        | Declaration::Import => Ok(PathList::new(alloc)),
    }
}
