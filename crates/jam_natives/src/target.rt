//! Which texts a step has a place for.
ghost use Rattle.std.specs.Prelude.{◌≡◌, not, IfOk};
ghost use Rattle.std.specs.List.{find, list_any};
ghost use Rattle.std.specs.Option.{option_copied};
ghost use Rattle.std.specs.Str.{bytes_eq};
ghost use Rattle.jam_natives.specs.Named.{paths_in};
ghost use Rattle.jam_natives.specs.Targets.{is_no_path, names_one, first_foreign};

use b2_base::fault::OutOfMemory;
use b2_base::path::{Path, path_of};
use b2_base::text::Text;
use std::alloc::Global;

/// The paths that a target may name: a step's outputs, and for INCLUDES its inputs and those that were added.
#[derive(Clone, Copy)]
pub struct StepPaths<'a> {
    pub outs: &'a [Path],
    pub ins: &'a [Path],
    pub added: &'a [Path],
}

fn stands_in(path: &Path, paths: &[Path]) -> bool
    ensures { result ≡ list_any (bytes_eq path.now) paths.now }
{
    paths.iter().any(|other| path == other)
}

#[tactic(auto, using(crate::proofs::TextsNameNormalPaths::any_joined))]
fn is_named(path: &Path, named: &StepPaths<'_>) -> bool
    ensures { result ≡ list_any (bytes_eq path.now) (paths_in named.now) }
{
    stands_in(path, named.outs) || stands_in(path, named.ins) || stands_in(path, named.added)
}

/// Whether a text names one of the paths.
fn names_one(alloc: Global, text: &Text, named: &StepPaths<'_>) -> Result<bool, OutOfMemory>
    ensures { IfOk result (λ found. found ≡ names_one (paths_in named.now) text.now) }
{
    let name = text.as_str();
    if name.is_empty() {
        return Ok(false);
    }
    let path = path_of(alloc, name)?;
    Ok(is_named(&path, named))
}

/// Whether a text names none of the paths.
fn is_foreign(alloc: Global, text: &Text, named: &StepPaths<'_>) -> Result<bool, OutOfMemory>
    ensures { IfOk result (λ foreign. foreign ≡ not (names_one (paths_in named.now) text.now)) }
{
    let found = names_one(alloc, text, named)?;
    Ok(!found)
}

/// The first target that names none of the paths.
fn foreign_target<'a>(
    alloc: Global,
    targets: &'a [Text],
    named: &StepPaths<'_>,
) -> Result<Option<&'a Text>, OutOfMemory>
    ensures { IfOk result (λ found. option_copied found ≡ find (λ target. not (names_one (paths_in named.now) target)) targets.now) }
{
    for target in targets {
        let foreign = is_foreign(alloc, target, named)?;
        if foreign {
            return Ok(Some(target));
        }
    }
    Ok(None)
}

fn no_path(sources: &[Text]) -> Option<&Text>
    ensures { option_copied result ≡ find is_no_path sources.now }
{
    for source in sources {
        if source.as_str().is_empty() {
            return Some(source);
        }
    }
    None
}

/// The first target that names none of the paths, else the first source that is no path, since it is empty.
pub fn first_foreign<'a>(
    alloc: Global,
    targets: &'a [Text],
    sources: &'a [Text],
    named: &StepPaths<'_>,
) -> Result<Option<&'a Text>, OutOfMemory>
    ensures { IfOk result (λ found. option_copied found ≡ first_foreign (paths_in named.now) targets.now sources.now) }
{
    match foreign_target(alloc, targets, named)? {
        Some(target) => Ok(Some(target)),
        None => Ok(no_path(sources)),
    }
}
