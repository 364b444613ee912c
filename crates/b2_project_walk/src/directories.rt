//! The directories of projects: the way to each from the folder, the names of its project file, its module.
ghost use Rattle.std.specs.Prelude.{◌≡◌, ◌∷◌, [], All, map, IfOk, string_bytes};
ghost use Rattle.std.specs.List.{join_with_byte};
ghost use Rattle.std.specs.Str.{bytes_eq};
ghost use Rattle.b2_base.specs.Bytes.{HasNoZero};
ghost use Rattle.b2_base.specs.Segments.{texts, here};
ghost use Rattle.b2_project_walk.specs.Directories.{beginnings, path_of, way_to, module_name, file_names};

use b2_base::fault::OutOfMemory;
use b2_base::path::{Path, folder, path_of};
use b2_base::path_list::PathList;
use b2_base::segments::cut;
use b2_base::text::Text;
use std::alloc::Global;

/// Whether it is the folder itself. Takes no memory.
fn is_folder(dir: &Path) -> bool
    ensures { result ≡ bytes_eq dir.now here }
{
    dir.as_str() == "."
}

/// Segments, joined by slashes.
fn joined(alloc: Global, segments: &[&str]) -> Result<String, OutOfMemory>
    ensures { IfOk result (λ text. string_bytes text ≡ join_with_byte 47 (texts segments.now)) }
{
    Ok(segments.join(alloc, "/")?)
}

/// The paths of the beginnings of some segments, the shortest first.
fn paths_of(alloc: Global, segments: &[&str]) -> Result<PathList, OutOfMemory>
    requires { All HasNoZero (texts segments.now) }
    ensures { IfOk result (λ paths. paths ≡ map path_of (beginnings (texts segments.now))) }
{
    let mut paths = PathList::new(alloc);
    for place in 0..segments.len() {
        let text = joined(alloc, &segments[..place + 1])?;
        paths.push(path_of(alloc, text.as_str())?)?;
    }
    Ok(paths)
}

/// The directories on the way to a directory, from the top down, and itself as the last; none where it does not lie below the
/// folder.
pub fn way_to(alloc: Global, dir: &Path) -> Result<PathList, OutOfMemory>
    ensures { IfOk result (λ dirs. dirs ≡ way_to dir.now) }
{
    let folder = folder(alloc)?;
    if !dir.under(&folder) {
        return Ok(PathList::new(alloc));
    }
    let segments = cut(alloc, dir.as_str())?;
    paths_of(alloc, segments.as_slice())
}

/// The name of the module in which the file of a project runs.
pub fn module_name(alloc: Global, dir: &Path) -> Result<Text, OutOfMemory>
    ensures { IfOk result (λ name. name ≡ module_name dir.now) }
{
    let name = format!(in alloc; "Jamfile<{dir}>", dir = dir.as_str())?;
    Ok(Text::from_string(name))
}

/// The names that the project file of a directory may have, the first one first.
pub fn file_names(dir: &Path) -> (&'static str, &'static str)
    ensures names { result.0.now ∷ result.1.now ∷ [] ≡ file_names dir.now }
    ensures first { HasNoZero result.0.now }
    ensures second { HasNoZero result.1.now }
{
    if is_folder(dir) {
        ("Jamroot", "Jamroot.jam")
    } else {
        ("Jamfile", "Jamfile.jam")
    }
}
