//! The output roots that a call of `project` declares.
ghost use Rattle.std.specs.Prelude.{◌≡◌, ◌++◌, ◌∷◌, [], map, filter, drop, Some, None, IfOk, OnOk, if◌then◌else◌};
ghost use Rattle.std.specs.List.{flat_map, list_any};
ghost use Rattle.b2_base.specs.Segments.{normal_of};
ghost use Rattle.jam_natives.specs.OutputDirs.{is_output_dirs, names_output_dirs, output_dirs, is_no_root, root_paths};

use b2_base::fault::OutOfMemory;
use b2_base::path::path_of;
use b2_base::path_list::PathList;
use b2_base::text::Text;
use b2_base::text_list::{TextList, push_copies, rest_of, rest_of_texts};
use std::alloc::Global;

/// Whether an attribute list names output roots.
fn is_output_dirs(list: &[Text]) -> bool
    ensures { result ≡ is_output_dirs list.now }
{
    match list {
        [] => false,
        [name, ..] => name.as_str() == "output-dirs",
    }
}

/// Whether a call of `project` names output roots, even none. Takes no memory.
pub fn names_output_dirs(lists: &[TextList]) -> bool
    ensures { result ≡ names_output_dirs lists.now }
{
    rest_of(lists)
        .iter()
        .any(|list| is_output_dirs(list.as_slice()))
}

/// Adds the directories of an attribute list, where it names output roots.
fn push_dirs(dirs: &mut TextList, list: &[Text]) -> Result<(), OutOfMemory>
    ensures { OnOk result (dirs.new ≡ dirs.old ++ flat_map (drop 1) (filter is_output_dirs (list.now ∷ []))) }
{
    if !is_output_dirs(list) {
        return Ok(());
    }
    push_copies(dirs, rest_of_texts(list))
}

/// The directories that the lists for output roots name, in order.
fn output_dirs(alloc: Global, lists: &[TextList]) -> Result<TextList, OutOfMemory>
    ensures { IfOk result (λ dirs. dirs ≡ output_dirs lists.now) }
{
    let mut dirs = TextList::new(alloc);
    for list in rest_of(lists) {
        push_dirs(&mut dirs, list.as_slice())?;
    }
    Ok(dirs)
}

/// The paths of directories, or None where one of them is the folder itself.
fn roots_of(alloc: Global, dirs: &[Text]) -> Result<Option<PathList>, OutOfMemory>
    ensures { IfOk result (λ roots. roots ≡ (if list_any is_no_root dirs.now then None else Some (map normal_of dirs.now))) }
{
    let mut roots = PathList::new(alloc);
    for dir in dirs {
        let root = path_of(alloc, dir.as_str())?;
        if root.as_str() == "." {
            return Ok(None);
        }
        roots.push(root)?;
    }
    Ok(Some(roots))
}

/// The output roots that a call of `project` names, in order, or None where one of them is the folder itself, which is no root.
pub fn root_paths(alloc: Global, lists: &[TextList]) -> Result<Option<PathList>, OutOfMemory>
    ensures { IfOk result (λ roots. roots ≡ (if list_any is_no_root (output_dirs lists.now) then None else Some (root_paths lists.now))) }
{
    let dirs = output_dirs(alloc, lists)?;
    roots_of(alloc, dirs.as_slice())
}
