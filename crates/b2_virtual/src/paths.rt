//! The tails of outputs, and their paths.
ghost use Rattle.std.specs.Prelude.{◌≡◌, ◌↔◌, IfOk, IfErr, IsTrue, ◌⊎◌};
ghost use Rattle.std.specs.List.{Contains};
ghost use Rattle.b2_base.specs.Bytes.{HasNoZero};
ghost use Rattle.b2_base.specs.Segments.{here};
ghost use Rattle.b2_plan.specs.Sources.{IsInRoots};
ghost use Rattle.b2_virtual.specs.Refusals.{IsOutsideBy};
ghost use Rattle.b2_virtual.specs.Paths.{named_tail, output_path, located, IsPlaced};

use crate::fault::VirtualFault;
use b2_base::fault::OutOfMemory;
use b2_base::path::{Path, joined_path, path_from, path_of};
use b2_base::rooted::is_rooted;
use b2_plan::roots::is_in_roots;
use std::alloc::Global;

/// The tail of an output that has a name in the folder. Most names are their own tails, and their segments are not cut.
fn tail_here(alloc: Global, name: &str) -> Result<Path, OutOfMemory>
    requires { HasNoZero name.now }
    ensures { IfOk result (λ tail. tail ≡ named_tail here name.now) }
{
    if is_rooted(name) {
        return joined_path(alloc, ".", name);
    }
    path_of(alloc, name)
}

/// The tail of an output that has a name in a project's directory.
pub fn named_tail(alloc: Global, dir: &Path, name: &str) -> Result<Path, OutOfMemory>
    requires { HasNoZero name.now }
    ensures { IfOk result (λ tail. tail ≡ named_tail dir.now name.now) }
{
    match dir.as_str() {
        "." => tail_here(alloc, name),
        dir => joined_path(alloc, dir, name),
    }
}

/// The path of an output in `bin`: below the elements of its properties, which are joined by slashes, its tail.
pub fn output_path(alloc: Global, elements: &str, tail: &Path) -> Result<Path, OutOfMemory>
    requires { HasNoZero elements.now }
    ensures { IfOk result (λ path. path ≡ output_path elements.now tail.now) }
{
    if elements.is_empty() {
        return joined_path(alloc, "bin", tail.as_str());
    }
    let folder = format!(in alloc; "bin/{elements}")?;
    joined_path(alloc, folder.as_str(), tail.as_str())
}

/// Whether a path is an output root; takes no memory.
fn is_root(roots: &[Path], path: &Path) -> bool
    ensures { IsTrue result ↔ Contains roots.now path.now }
{
    for root in roots {
        if path == root {
            return true;
        }
    }
    false
}

/// Whether the place of a location is an output root or lies under one, and a file's path lies under one.
fn is_placed(roots: &[Path], place: &Path, path: &Path) -> bool
    ensures { IsTrue result ↔ ((Contains roots.now place.now ⊎ IsInRoots roots.now place.now) × IsInRoots roots.now path.now) }
{
    (is_root(roots, place) || is_in_roots(roots, place)) && is_in_roots(roots, path)
}

/// The path of a file of this name at a location, which is relative to a directory. `LocationOutside` with this path is
/// answered exactly where the location is neither an output root nor under one, or the path is under none.
pub fn location_path(
    alloc: Global,
    roots: &[Path],
    dir: &Path,
    location: &str,
    name: &str,
) -> Result<Path, VirtualFault>
    requires location { HasNoZero location.now }
    requires name { HasNoZero name.now }
    ensures path { IfOk result (λ path. path ≡ located dir.now location.now name.now) }
    ensures placed { IfOk result (λ _. IsPlaced roots.now dir.now location.now name.now) }
    ensures outside { IfErr result (IsOutsideBy roots.now dir.now location.now name.now) }
{
    let place = path_from(alloc, dir, location)?;
    let path = joined_path(alloc, place.as_str(), name)?;
    if !is_placed(roots, &place, &path) {
        return Err(VirtualFault::LocationOutside { path });
    }
    Ok(path)
}
