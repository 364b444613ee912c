//! Sets made whole, and refined.
ghost use Rattle.std.specs.Prelude.{◌≡◌, ℕ, true, List, ◌++◌, ◌||◌, not, filter, is_some, OnOk, IfOk};
ghost use Rattle.std.specs.List.{list_all};
ghost use Rattle.std.specs.FinMap as map;
ghost use Rattle.b2_features.specs.declared.attribute.Attribute.TheVariants.{Free};
ghost use Rattle.b2_features.specs.Table.{HasDistinctNames, is_whole};
ghost use Rattle.b2_features.specs.Faults.{is_with};
ghost use Rattle.b2_props.specs.Sets.{set_of, IsSet};
ghost use Rattle.b2_props.specs.Refinement.{names, components, defaults, expanded, completed, refined};
ghost use Rattle.b2_props.specs.Laws.{HasRequired, KeepsOthers, KeepsValues, HasAllValues, KeepsFree};

use crate::draft::Draft;
use crate::lookups::{is_with, parts_in};
use crate::pair_list::copy_pair;
use crate::props::Props;
use b2_base::fault::OutOfMemory;
use b2_base::text::Text;
use b2_base::text_map::TextMap;
use b2_features::attribute::Attribute;
use b2_features::registry::Registry;
use std::alloc::Global;

/// The set that some pairs make: a feature that is not free has the first of its values, and a free pair stands once. Pairs
/// of features that are not there are passed over.
pub fn set_of(
    alloc: Global,
    registry: &Registry,
    pairs: &[(Text, Text)],
) -> Result<Props, OutOfMemory>
    ensures value { IfOk result (λ made. made ≡ set_of registry.now pairs.now) }
    ensures set { IfOk result (λ made. IsSet registry.now made) }
{
    let mut draft = Draft::new(alloc);
    draft.add_all(registry, pairs)?;
    draft.into_props(alloc, registry)
}

fn completed_set(alloc: Global, registry: &Registry, set: &Props) -> Result<Props, OutOfMemory>
    ensures distinct { OnOk result (HasDistinctNames registry.now) }
    ensures whole { OnOk result (list_all is_whole registry.now ≡ true) }
    ensures value { IfOk result (λ made. made ≡ expanded registry.now set.now) }
{
    let mut draft = Draft::new(alloc);
    draft.add_all(registry, set.pairs())?;
    draft.add_components(registry, set.pairs())?;
    draft.add_defaults(registry)?;
    draft.into_props(alloc, registry)
}

/// A set made whole: its own pairs, then the components of its composites in order, then the defaults of the features that
/// are neither free nor optional. A feature that is not free keeps the first of its values.
pub fn expand(alloc: Global, registry: &Registry, set: &Props) -> Result<Props, OutOfMemory>
    requires { IsSet registry.now set.now }
    ensures value { IfOk result (λ made. made ≡ expanded registry.now set.now) }
    ensures set { IfOk result (λ made. IsSet registry.now made) }

    // What follows of the value, in other words.
    ensures kept { IfOk result (KeepsValues registry.now set.now) }
    ensures all { IfOk result (HasAllValues registry.now) }
    ensures free { IfOk result (KeepsFree registry.now set.now (components registry.now set.now ++ defaults registry.now)) }
{
    completed_set(alloc, registry, set)
}

/// Puts the features of some pairs among those that are taken.
pub fn take_all(taken: &mut TextMap<()>, pairs: &[(Text, Text)]) -> Result<(), OutOfMemory>
    ensures { OnOk result ((feature : List ℕ) → is_some (map.get taken.new feature) ≡ (is_some (map.get taken.old feature) || names pairs.now feature)) }
{
    for pair in pairs {
        let _before = taken.insert(pair.0.copy()?, ())?;
    }
    Ok(())
}

/// Adds the parts that are free or whose feature is not taken.
fn bring(
    whole: &mut Vec<(Text, Text)>,
    registry: &Registry,
    taken: &TextMap<()>,
    parts: &[(Text, Text)],
) -> Result<(), OutOfMemory>
    ensures { OnOk result (whole.new.items ≡ whole.old.items ++ filter (λ part. is_with Free registry.now part.0 || not (is_some (map.get taken.now part.0))) parts.now) }
{
    for part in parts {
        if is_with(registry, Attribute::Free, part.0.as_str()) || taken.get(&part.0).is_none() {
            whole.push(copy_pair(part)?)?;
        }
    }
    Ok(())
}

/// Required pairs made whole: each composite is followed by its free components, and by those of features that neither the
/// list names nor an earlier composite gives.
fn complete(
    alloc: Global,
    registry: &Registry,
    required: &[(Text, Text)],
) -> Result<Vec<(Text, Text)>, OutOfMemory>
    ensures { IfOk result (λ made. made.items ≡ completed registry.now required.now) }
{
    let mut taken = TextMap::new(alloc);
    take_all(&mut taken, required)?;
    let mut whole = Vec::new(alloc);
    for pair in required {
        whole.push(copy_pair(pair)?)?;
        let parts = parts_in(registry, pair);
        bring(&mut whole, registry, &taken, parts)?;
        take_all(&mut taken, parts)?;
    }
    Ok(whole)
}

fn refined_set(
    alloc: Global,
    registry: &Registry,
    set: &Props,
    required: &[(Text, Text)],
) -> Result<Props, OutOfMemory>
    ensures distinct { OnOk result (HasDistinctNames registry.now) }
    ensures value { IfOk result (λ made. made ≡ refined registry.now set.now required.now) }
{
    let whole = complete(alloc, registry, required)?;
    let mut draft = Draft::new(alloc);
    draft.add_all(registry, set.pairs())?;
    draft.put_all(registry, whole.as_slice())?;
    draft.into_props(alloc, registry)
}

/// A set refined by required pairs, which are made whole first: each composite is followed by its free components, and by
/// those of features that neither the list names nor an earlier composite gives. A feature that is not free has the last
/// value of the list, else its own; the free pairs are the own ones, then the new ones. Pairs of features that are not
/// there are passed over.
pub fn refine(
    alloc: Global,
    registry: &Registry,
    set: &Props,
    required: &[(Text, Text)],
) -> Result<Props, OutOfMemory>
    requires { IsSet registry.now set.now }
    ensures value { IfOk result (λ made. made ≡ refined registry.now set.now required.now) }
    ensures set { IfOk result (λ made. IsSet registry.now made) }

    // What follows of the value, in other words.
    ensures required { IfOk result (HasRequired registry.now required.now) }
    ensures others { IfOk result (KeepsOthers registry.now set.now required.now) }
    ensures free { IfOk result (KeepsFree registry.now set.now (completed registry.now required.now)) }
{
    refined_set(alloc, registry, set, required)
}
