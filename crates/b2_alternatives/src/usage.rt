//! What a main target asks of those that use it.
ghost use Rattle.std.specs.Prelude.{◌≡◌, ◌==◌, ◌++◌, ◌∷◌, [], ◌&&◌, ◌||◌, List, length, not, filter, is_some, map, OnOk, IfOk};
ghost use Rattle.std.specs.List.{list_all};
ghost use Rattle.std.specs.FinMap as map;
ghost use Rattle.b2_features.specs.declared.attribute.Attribute.TheVariants.{Free};
ghost use Rattle.b2_features.specs.Faults.{is_with};
ghost use Rattle.b2_props.specs.Sets.{Pair};
ghost use Rattle.b2_props.specs.Indexing.{IsIndexOf};
ghost use Rattle.b2_alternatives.specs.Usage.{usage_pairs, usage_in, yielding, own_usage, passed_usage};

use b2_base::fault::OutOfMemory;
use b2_base::list::List;
use b2_base::text::Text;
use b2_base::text_map::TextMap;
use b2_declared::place::{Place, Target};
use b2_declaring_calls::declaration::Kind;
use b2_features::attribute::Attribute;
use b2_features::registry::Registry;
use b2_props::lookups::is_with;
use b2_props::pair_index::PairIndex;
use b2_props::pair_list::PairList;
use b2_props::props::Props;
use b2_props::refinement::take_all;
use b2_props::requirement::Requirement;
use b2_references::index::Index;
use std::alloc::Global;

/// Adds the property of a usage requirement, where all its conditions are indexed.
fn add_usage(
    made: &mut PairList,
    index: &PairIndex,
    requirement: &Requirement,
) -> Result<(), OutOfMemory>
    ensures { (set : List Pair) → IsIndexOf set index.now → OnOk result (made.new ≡ made.old ++ usage_pairs set requirement.now) }
{
    if let Requirement::Plain {
        conditions,
        property,
    } = requirement
    {
        if index.has_all(conditions.as_slice()) {
            made.push(property.0.copy()?, property.1.copy()?)?;
        }
    }
    Ok(())
}

/// What some usage requirements give in the set that is indexed.
fn usage_in(
    alloc: Global,
    index: &PairIndex,
    usage: &[Requirement],
) -> Result<PairList, OutOfMemory>
    ensures { (set : List Pair) → IsIndexOf set index.now → IfOk result (λ made. made ≡ usage_in set usage.now) }
{
    let mut made = PairList::new(alloc);
    for requirement in usage {
        add_usage(&mut made, index, requirement)?;
    }
    Ok(made)
}

/// What the usage requirements of some projects give in the set that is indexed, project by project.
fn levels(
    alloc: Global,
    index: &PairIndex,
    places: &[&Place],
) -> Result<List<PairList>, OutOfMemory>
    ensures { (set : List Pair) → IsIndexOf set index.now → IfOk result (λ made. made ≡ map (λ p. usage_in set p.now.usage) places.now) }
{
    let mut made = List::new(alloc);
    for place in places {
        made.push(usage_in(alloc, index, place.usage.as_slice())?)?;
    }
    Ok(made)
}

/// The pairs that are free or whose feature is not taken.
fn standing(
    alloc: Global,
    registry: &Registry,
    taken: &TextMap<()>,
    level: &[(Text, Text)],
) -> Result<PairList, OutOfMemory>
    ensures { IfOk result (λ made. made ≡ filter (λ p. is_with Free registry.now p.0 || not (is_some (map.get taken.now p.0))) level.now) }
{
    let mut made = PairList::new(alloc);
    for pair in level {
        if is_with(registry, Attribute::Free, pair.0.as_str()) || taken.get(&pair.0).is_none() {
            made.push(pair.0.copy()?, pair.1.copy()?)?;
        }
    }
    Ok(made)
}

/// The pairs of several levels, the lowest last, without those that yield to a level below theirs.
fn yielding(
    alloc: Global,
    registry: &Registry,
    levels: &[PairList],
) -> Result<PairList, OutOfMemory>
    ensures { IfOk result (λ made. made ≡ yielding registry.now levels.now) }
{
    let mut taken = TextMap::new(alloc);
    let mut made = PairList::new(alloc);
    let mut place = levels.len();
    while place > 0 {
        place -= 1;
        let level = levels[place].as_slice();
        let mut kept = standing(alloc, registry, &taken, level)?;
        kept.append(made)?;
        made = kept;
        take_all(&mut taken, level)?;
    }
    Ok(made)
}

/// What the usage requirements of some projects give in a set, project by project, then those of an alternative.
fn levels_with(
    alloc: Global,
    places: &[&Place],
    target: &Target,
    set: &Props,
) -> Result<List<PairList>, OutOfMemory>
    ensures { IfOk result (λ made. made ≡ map (λ p. usage_in set.now p.now.usage) places.now ++ usage_in set.now target.now.usage ∷ []) }
{
    let known = PairIndex::new(alloc, set.pairs())?;
    let mut made = levels(alloc, &known, places)?;
    made.push(usage_in(alloc, &known, target.usage.as_slice())?)?;
    Ok(made)
}

/// Whether a project has no usage requirements; takes no memory.
fn asks_nothing(place: &Place) -> bool
    ensures { result ≡ (length place.now.usage == 0) }
{
    place.usage.as_slice().is_empty()
}

/// Whether none of some projects has usage requirements; takes no memory.
fn ask_nothing(places: &[&Place]) -> bool
    ensures { result ≡ list_all (λ p. length p.now.usage == 0) places.now }
{
    places.iter().all(|place| asks_nothing(place))
}

/// Whether neither an alternative nor one of some projects has usage requirements; takes no memory.
fn none_asks(places: &[&Place], target: &Target) -> bool
    ensures { result ≡ (length target.now.usage == 0 && list_all (λ p. length p.now.usage == 0) places.now) }
{
    target.usage.as_slice().is_empty() && ask_nothing(places)
}

/// The usage requirements of a main target itself, judged in its set: those of its projects, from Jamroot down, then its own.
/// A project's value of a feature that is not free yields to one that a project below it or the target gives. Where none of them
/// has any, the set is not looked at.
pub fn own_usage(
    alloc: Global,
    index: &Index<'_>,
    target: &Target,
    set: &Props,
) -> Result<PairList, OutOfMemory>
    ensures { IfOk result (λ made. made ≡ own_usage index.now target.now set.now) }
{
    let places = index.lineage(target.project)?;
    if none_asks(places.as_slice(), target) {
        return Ok(PairList::new(alloc));
    }
    let levels = levels_with(alloc, places.as_slice(), target, set)?;
    yielding(alloc, &index.declared().registry, levels.as_slice())
}

/// What a main target hands on of the usage requirements that it met: an `alias` all of them, in order, and every other one none.
pub fn passed_usage(alloc: Global, kind: Kind, usage: &PairList) -> Result<PairList, OutOfMemory>
    ensures { IfOk result (λ made. made ≡ passed_usage kind usage.now) }
{
    match kind {
        Kind::Alias => usage.copy(alloc),
        Kind::Exe | Kind::Lib | Kind::Obj | Kind::Make | Kind::Install => Ok(PairList::new(alloc)),
    }
}
