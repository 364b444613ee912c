//! The rules GLOB and `glob`.
ghost use Rattle.std.specs.Prelude.{◌≡◌, ◌++◌, ◌∷◌, [], IfOk, OnOk};
ghost use Rattle.b2_base.specs.Bytes.{HasNoZero};
ghost use Rattle.b2_base.specs.Segments.{normal_of, path_from, file_name};
ghost use Rattle.b2_host.specs.Outside.{IoLooks};
ghost use Rattle.jam_path.specs.Names.{dir_of};
ghost use Rattle.jam_natives.specs.Sights.{ForMatching, WhereSeen};
ghost use Rattle.jam_natives.specs.Searches.{picks, finds};
ghost use Rattle.jam_natives.specs.Globs.{path_in, is_output_dir, is_matched, globbed, found_by, project_globbed};

use crate::texts::without_repeats;
use b2_base::fault::OutOfMemory;
use b2_base::path::{Path, path_from, path_of};
use b2_base::text::Text;
use b2_base::text_list::TextList;
use b2_host::fault::IoFault;
use b2_host::files::Files;
use jam_path::cut::cut_dir;
use jam_path::glob::glob_match;
use std::alloc::Global;
use std::slice;

/// What is looked for: names that a pattern matches, whose paths no excluding pattern matches, outside the output roots.
#[derive(Clone, Copy)]
pub(crate) struct GlobSearch<'a> {
    pub patterns: &'a [Text],
    pub excluded: &'a [Text],
    pub roots: &'a [Path],
}

/// A text, a slash and a name.
fn joined(alloc: Global, dir: &str, name: &Text) -> Result<Text, OutOfMemory>
    requires { HasNoZero dir.now }
    ensures { IfOk result (λ path. path ≡ dir.now ++ (47 ∷ name.now)) }
{
    let mut path = String::from_str(alloc, dir)?;
    path.push('/')?;
    path.push_str(name.as_str())?;
    Ok(Text::from_string(path))
}

/// A name in a directory, as a path; in `.` it is the name alone.
fn path_in(alloc: Global, dir: &Path, name: &Text) -> Result<Text, OutOfMemory>
    ensures { IfOk result (λ path. path ≡ path_in dir.now name.now) }
{
    let dir = dir.as_str();
    if dir == "." {
        name.copy()
    } else if dir == "/" {
        joined(alloc, "", name)
    } else {
        joined(alloc, dir, name)
    }
}

/// Whether one of the patterns matches a text.
fn is_matched(patterns: &[Text], text: &str) -> bool
    ensures { ForMatching (λ matching. result ≡ is_matched matching patterns.now text.now) }
{
    for pattern in patterns {
        if glob_match(pattern.as_str(), text) {
            return true;
        }
    }
    false
}

/// Adds the path of a name, where it is looked for.
fn pick(
    alloc: Global,
    found: &mut TextList,
    search: &GlobSearch<'_>,
    dir: &Path,
    name: &Text,
) -> Result<(), OutOfMemory>
    ensures { ForMatching (λ matching. OnOk result (found.new ≡ found.old ++ picks matching search.now dir.now (name.now ∷ []))) }
{
    if !is_matched(search.patterns, name.as_str()) {
        return Ok(());
    }
    let path = path_in(alloc, dir, name)?;
    if is_matched(search.excluded, path.as_str()) {
        return Ok(());
    }
    found.push(path)?;
    Ok(())
}

/// Adds the paths of the names that are looked for.
fn pick_all(
    alloc: Global,
    found: &mut TextList,
    search: &GlobSearch<'_>,
    dir: &Path,
    names: &[Text],
) -> Result<(), OutOfMemory>
    ensures { ForMatching (λ matching. OnOk result (found.new ≡ found.old ++ picks matching search.now dir.now names.now)) }
{
    for name in names {
        pick(alloc, found, search, dir, name)?;
    }
    Ok(())
}

/// Whether a directory is an output root, or lies below one.
fn is_output_dir(roots: &[Path], dir: &Path) -> bool
    ensures { result ≡ is_output_dir roots.now dir.now }
{
    roots.iter().any(|root| dir == root || dir.under(root))
}

/// Adds the files of a directory that are looked for, as paths in a directory that stands for it.
fn add_found<F: Files>(
    alloc: Global,
    found: &mut TextList,
    search: &GlobSearch<'_>,
    dir: &Path,
    shown: &Path,
    files: &mut F,
) -> Result<(), IoFault>
    ensures files { IoLooks (F.outside files.old) (F.outside files.new) result }
    ensures found { WhereSeen (F.outside files.old).disk (λ sight. OnOk result (found.new ≡ found.old ++ finds sight search.now dir.now shown.now)) }
{
    if is_output_dir(search.roots, dir) {
        return Ok(());
    }
    let names = files.list(dir)?;
    pick_all(alloc, found, search, shown, names.as_slice())?;
    Ok(())
}

/// GLOB: for each directory, which is relative to the folder, the source files whose names a pattern matches, in byte order.
pub fn glob<F: Files>(
    alloc: Global,
    dirs: &[Text],
    patterns: &[Text],
    roots: &[Path],
    files: &mut F,
) -> Result<TextList, IoFault>
    ensures files { IoLooks (F.outside files.old) (F.outside files.new) result }
    ensures value { WhereSeen (F.outside files.old).disk (λ sight. IfOk result (λ found. found ≡ globbed sight roots.now dirs.now patterns.now)) }
{
    let search = GlobSearch {
        patterns,
        excluded: &[],
        roots,
    };
    let mut found = TextList::new(alloc);
    for dir in dirs {
        let listed = path_of(alloc, dir.as_str())?;
        add_found(alloc, &mut found, &search, &listed, &listed, files)?;
    }
    Ok(found)
}

/// The directory of a pattern, which stands before its last slash, and the pattern on names after it.
fn cut_pattern(pattern: &Text) -> (&str, &str)
    ensures dir { result.0.now ≡ dir_of pattern.now }
    ensures file { result.1.now ≡ file_name pattern.now }
    ensures dir_no_zero { HasNoZero result.0.now }
    ensures file_no_zero { HasNoZero result.1.now }
{
    cut_dir(pattern.as_str())
}

/// A pattern of `glob` with the directory in which it looks.
#[derive(Drop)]
struct PlacedPattern {
    /// What the names of the files match.
    names: Text,
    /// The directory.
    listed: Path,
    /// The directory as it stands in the paths that are found.
    shown: Path,
}

/// A pattern, whose directory is relative to that of the project.
fn place_pattern(alloc: Global, place: &Path, pattern: &Text) -> Result<PlacedPattern, OutOfMemory>
    ensures names { IfOk result (λ made. made.names ≡ file_name pattern.now) }
    ensures listed { IfOk result (λ made. made.listed ≡ path_from place.now (dir_of pattern.now)) }
    ensures shown { IfOk result (λ made. made.shown ≡ normal_of (dir_of pattern.now)) }
{
    let (dir, file) = cut_pattern(pattern);
    let listed = path_from(alloc, place, dir)?;
    let shown = path_of(alloc, dir)?;
    let names = Text::new(alloc, file)?;
    Ok(PlacedPattern {
        names,
        listed,
        shown,
    })
}

/// Adds the files that one pattern of `glob` finds.
fn add_globbed<F: Files>(
    alloc: Global,
    found: &mut TextList,
    place: &Path,
    pattern: &Text,
    excluded: &[Text],
    roots: &[Path],
    files: &mut F,
) -> Result<(), IoFault>
    ensures files { IoLooks (F.outside files.old) (F.outside files.new) result }
    ensures found { WhereSeen (F.outside files.old).disk (λ sight. OnOk result (found.new ≡ found.old ++ found_by sight roots.now place.now excluded.now pattern.now)) }
{
    let placed = place_pattern(alloc, place, pattern)?;
    let search = GlobSearch {
        patterns: slice::from_ref(&placed.names),
        excluded,
        roots,
    };
    add_found(alloc, found, &search, &placed.listed, &placed.shown, files)
}

/// `glob`: for each pattern, the source files that it finds in its directory, which is relative to that of the project; without
/// repeats, and without what an excluding pattern matches.
pub fn project_glob<F: Files>(
    alloc: Global,
    place: &Path,
    patterns: &[Text],
    excluded: &[Text],
    roots: &[Path],
    files: &mut F,
) -> Result<TextList, IoFault>
    ensures files { IoLooks (F.outside files.old) (F.outside files.new) result }
    ensures value { WhereSeen (F.outside files.old).disk (λ sight. IfOk result (λ found. found ≡ project_globbed sight roots.now place.now patterns.now excluded.now)) }
{
    let mut found = TextList::new(alloc);
    for pattern in patterns {
        add_globbed(alloc, &mut found, place, pattern, excluded, roots, files)?;
    }
    let once = without_repeats(alloc, found.as_slice())?;
    Ok(once)
}
