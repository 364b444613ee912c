//! What a project stands for.
ghost use Rattle.std.specs.Prelude.{◌≡◌, ℕ, List, [], ◌++◌, not, is_some, slice_get, IfOk, OnOk, map, filter};
ghost use Rattle.std.specs.FinMap as finite;
ghost use Rattle.std.specs.List.{list_any, flat_map};
ghost use Rattle.std.specs.Option.{option_map_or};
ghost use Rattle.std.specs.Str.{bytes_eq};
ghost use Rattle.b2_references.specs.Indexing.{named_in};
ghost use Rattle.b2_references.specs.References.{listed_targets, project_meaning};

use crate::index::Index;
use crate::meaning::Meaning;
use crate::name::{NameList, TargetName};
use crate::project_search::projects_under;
use b2_base::fault::OutOfMemory;
use b2_base::text::Text;
use b2_base::text_map::TextMap;
use std::alloc::Global;

/// With one look-up for each name that is asked for, however many there are.
fn known_names(alloc: Global, names: &[Text]) -> Result<TextMap<()>, OutOfMemory>
    ensures { IfOk result (λ made. (name : List ℕ) → is_some (finite.get made name) ≡ list_any (bytes_eq name) names.now) }
{
    let mut made = TextMap::new(alloc);
    for name in names {
        let _before = made.insert(name.copy()?, ())?;
    }
    Ok(made)
}

/// Adds the names of a project's main targets that are not among others.
fn push_others(
    project: usize,
    names: &[Text],
    others: &TextMap<()>,
    made: &mut NameList,
) -> Result<(), OutOfMemory>
    ensures { OnOk result (made.new ≡ made.old ++ map (named_in project) (filter (λ name. not (is_some (finite.get others.now name))) names.now)) }
{
    for name in names {
        if others.get(name).is_none() {
            made.push(TargetName::new(project, name.copy()?))?;
        }
    }
    Ok(())
}

/// The names of the `explicit` calls of a project; takes no memory.
fn explicit_of<'a>(index: &Index<'a>, project: usize) -> &'a [Text]
    ensures { result.now ≡ option_map_or (λ p. p.explicit) (slice_get index.now.places project) [] }
{
    match index.declared().places.as_slice().get(project) {
        None => &[],
        Some(place) => place.explicit.as_slice(),
    }
}

/// Adds the main targets of a project that no `explicit` names.
fn push_listed(
    alloc: Global,
    index: &Index,
    project: usize,
    made: &mut NameList,
) -> Result<(), OutOfMemory>
    ensures { OnOk result (made.new ≡ made.old ++ listed_targets index.now project) }
{
    let explicit = known_names(alloc, explicit_of(index, project))?;
    push_others(project, index.names(project), &explicit, made)
}

/// The main targets of some projects that no `explicit` names.
fn listed(alloc: Global, index: &Index, projects: &[usize]) -> Result<NameList, OutOfMemory>
    ensures { IfOk result (λ made. made ≡ flat_map (listed_targets index.now) projects.now) }
{
    let mut made = NameList::new(alloc);
    for project in projects {
        push_listed(alloc, index, *project, &mut made)?;
    }
    Ok(made)
}

/// What a project stands for: its main targets that no `explicit` names, in order, then those of the projects that its
/// `build-project` calls name. A project that was listed already is passed over.
#[tactic(auto, unfolding(crate::specs::References::project_meaning))]
pub fn project_meaning(alloc: Global, index: &Index, project: usize) -> Result<Meaning, OutOfMemory>
    ensures { IfOk result (λ made. made ≡ project_meaning index.now project) }
{
    let projects = projects_under(alloc, index, project)?;
    let names = listed(alloc, index, projects.as_slice())?;
    Ok(Meaning::Targets { names })
}
