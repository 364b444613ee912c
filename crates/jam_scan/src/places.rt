//! Where an include is looked for.
ghost use Rattle.std.specs.Prelude.{◌≡◌, ◌++◌, IfOk, OnOk, map};
ghost use Rattle.b2_base.specs.Bytes.{HasNoZero};
ghost use Rattle.jam_scan.specs.Places.{beside, in_dir, places};

use crate::include::Include;
use b2_base::fault::OutOfMemory;
use b2_base::path::{Path, joined_path, path_of};
use b2_base::path_list::PathList;
use b2_base::rooted::is_rooted;
use std::alloc::Global;

/// The path of a name in the directory of a file.
#[tactic(auto, unfolding(crate::specs::Places::beside))]
fn beside(alloc: Global, file: &Path, name: &str) -> Result<Path, OutOfMemory>
    requires { HasNoZero name.now }
    ensures { IfOk result (λ path. path ≡ beside file.now name.now) }
{
    match file.as_str().rsplit_once('/') {
        None => path_of(alloc, name),
        Some((dir, _file)) => joined_path(alloc, dir, name),
    }
}

/// Adds the paths of a name in some directories at the end.
fn add_places(
    alloc: Global,
    found: &mut PathList,
    name: &str,
    dirs: &[Path],
) -> Result<(), OutOfMemory>
    requires { HasNoZero name.now }
    ensures { OnOk result (found.new ≡ found.old ++ map (in_dir name.now) dirs.now) }
{
    for dir in dirs {
        found.push(joined_path(alloc, dir.as_str(), name)?)?;
    }
    Ok(())
}

/// The places where an include is looked for, in order: beside the file at `from` that has it, if the name stands in
/// quotes, and then in the directories. A name that begins with a slash is its own only place.
#[tactic(auto, unfolding(crate::specs::Places::places))]
pub fn candidates(
    alloc: Global,
    include: &Include,
    from: &Path,
    dirs: &[Path],
) -> Result<PathList, OutOfMemory>
    ensures { IfOk result (λ found. found ≡ places dirs.now from.now include.now) }
{
    let (text, quoted) = include.pair();
    let name = text.as_str();
    let mut found = PathList::new(alloc);
    if is_rooted(name) {
        found.push(path_of(alloc, name)?)?;
        return Ok(found);
    }
    if quoted {
        found.push(beside(alloc, from, name)?)?;
    }
    add_places(alloc, &mut found, name, dirs)?;
    Ok(found)
}
