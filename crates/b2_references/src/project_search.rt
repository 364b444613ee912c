//! The projects that a project stands for.
ghost use Rattle.std.specs.Prelude.{◌≡◌, [], ◌∷◌, ◌++◌, IfOk, OnOk, reverse, slice_get};
ghost use Rattle.std.specs.List.{filter_map};
ghost use Rattle.std.specs.Option.{option_map_or, option_to_list};
ghost use Rattle.b2_references.specs.References.{place_at, builds_of, projects_under};
ghost use Rattle.b2_references.specs.Walking.{IsWalk, Steps};

use crate::index::Index;
use b2_base::fault::OutOfMemory;
use b2_base::path::Path;
use std::alloc::Global;
use std::collections::BTreeSet;

/// The projects that were found, in order, also as a set; and those to be looked at, the next of them last.
#[derive(Drop)]
pub(crate) struct ProjectSearch {
    known: BTreeSet<usize>,
    found: Vec<usize>,
    next: Vec<usize>,
}

/// The directories that the `build-project` calls of a project name; takes no memory.
fn dirs_of<'a>(index: &Index<'a>, project: usize) -> &'a [Path]
    ensures { result.now ≡ option_map_or (λ p. p.builds) (slice_get index.now.places project) [] }
{
    match index.declared().places.as_slice().get(project) {
        None => &[],
        Some(place) => place.builds.as_slice(),
    }
}

/// Adds a place, where there is one.
fn push_some(made: &mut Vec<usize>, place: Option<usize>) -> Result<(), OutOfMemory>
    ensures { OnOk result (made.new.items ≡ made.old.items ++ option_to_list place) }
{
    if let Some(place) = place {
        made.push(place)?;
    }
    Ok(())
}

/// The places of the projects of some directories.
fn places_at(alloc: Global, index: &Index, dirs: &[Path]) -> Result<Vec<usize>, OutOfMemory>
    ensures { IfOk result (λ made. made.items ≡ filter_map (place_at index.now) dirs.now) }
{
    let mut made = Vec::new(alloc);
    for dir in dirs {
        push_some(&mut made, index.place_at(dir))?;
    }
    Ok(made)
}

impl ProjectSearch {
    /// A walk that is to begin with a project.
    fn new(alloc: Global, project: usize) -> Result<ProjectSearch, OutOfMemory>
        ensures walk { IfOk result IsWalk }
        ensures found { IfOk result (λ made. made.found.items ≡ []) }
        ensures next { IfOk result (λ made. made.next.items ≡ project ∷ []) }
    {
        let mut next = Vec::new(alloc);
        next.push(project)?;
        Ok(ProjectSearch {
            known: BTreeSet::new(alloc),
            found: Vec::new(alloc),
            next,
        })
    }

    /// Adds the projects that a project builds to those to be looked at.
    fn push_builds(
        &mut self,
        alloc: Global,
        index: &Index,
        project: usize,
    ) -> Result<(), OutOfMemory>
        ensures next { OnOk result (self.new.next.items ≡ self.old.next.items ++ reverse (builds_of index.now project)) }
        ensures others { (self.new.found ≡ self.old.found) × (self.new.known ≡ self.old.known) }
    {
        let mut builds = places_at(alloc, index, dirs_of(index, project))?;
        builds.reverse();
        self.next.append(&mut builds)?;
        Ok(())
    }

    /// Looks at a project.
    fn visit(&mut self, alloc: Global, index: &Index, project: usize) -> Result<(), OutOfMemory>
        requires { IsWalk self.old }
        ensures walk { OnOk result (IsWalk self.new) }
        ensures steps { OnOk result (Steps index.now project self.old.found.items self.old.next.items self.new.found.items self.new.next.items) }
    {
        if !self.known.insert(project)? {
            return Ok(());
        }
        self.found.push(project)?;
        self.push_builds(alloc, index, project)
    }
}

/// The projects that a project stands for, itself the first.
pub(crate) fn projects_under(
    alloc: Global,
    index: &Index,
    project: usize,
) -> Result<Vec<usize>, OutOfMemory>
    ensures { IfOk result (λ made. made.items ≡ projects_under index.now project) }
{
    let mut walk = ProjectSearch::new(alloc, project)?;
    while let Some(next) = walk.next.pop() {
        walk.visit(alloc, index, next)?;
    }
    Ok(walk.found)
}
