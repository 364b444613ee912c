//! The sets that a set of a request stands for.
ghost use Rattle.std.specs.Prelude.{◌≡◌, ◌++◌, ◌∷◌, [], ◌&&◌, not, is_some, if◌then◌else◌, map, IfOk, OnOk};
ghost use Rattle.std.specs.FinMap as finite;
ghost use Rattle.std.specs.List.{AllByRecursion};
ghost use Rattle.b2_features.specs.declared.attribute.Attribute.TheVariants.{Free};
ghost use Rattle.b2_features.specs.Faults.{is_with};
ghost use Rattle.b2_features.specs.Table.{HasDistinctNames};
ghost use Rattle.b2_props.specs.Sets.{firsts, set_of, IsSet};
ghost use Rattle.b2_references.specs.Requests.{choosable, open_values, sets_for};

use crate::groups::{PairLists, by_feature, push_copy};
use crate::index::Index;
use crate::name::TargetName;
use crate::products::rows_after;
use b2_base::fault::OutOfMemory;
use b2_base::text::Text;
use b2_base::text_map::TextMap;
use b2_features::attribute::Attribute;
use b2_features::feature::copy_pairs;
use b2_features::registry::Registry;
use b2_property_texts::missing::features_of;
use b2_props::lookups::is_with;
use b2_props::pair_list::{PairList, copy_pair};
use b2_props::props::Props;
use b2_props::refinement::set_of;
use b2_props::request::PropsList;
use std::alloc::Global;
use std::collections::BTreeSet;

/// That no two features have one name.
pub(crate) fn distinct(registry: &Registry)
    ensures { HasDistinctNames registry.now }
{
    let _count = registry.count();
}

/// Adds a pair at the end, where that is asked for.
fn push_if(list: &mut PairList, pair: &(Text, Text), asked: bool) -> Result<(), OutOfMemory>
    ensures { OnOk result (list.new ≡ (if asked then list.old ++ pair.now ∷ [] else list.old)) }
{
    if !asked {
        return Ok(());
    }
    push_copy(list, pair)
}

/// Whether a feature is not among those of a set, and not free; takes no memory.
fn is_choosable(registry: &Registry, named: &TextMap<()>, feature: &Text) -> bool
    ensures { result ≡ (not (is_some (finite.get named.now feature.now)) && not (is_with Free registry.now feature.now)) }
{
    named.get(feature).is_none() && !is_with(registry, Attribute::Free, feature.as_str())
}

/// The pairs whose features a set does not name and that are not free.
fn choosable(
    alloc: Global,
    registry: &Registry,
    set: &[(Text, Text)],
    pairs: &[(Text, Text)],
) -> Result<PairList, OutOfMemory>
    ensures { IfOk result (λ made. made ≡ choosable registry.now set.now pairs.now) }
{
    let named = features_of(alloc, set)?;
    let mut made = PairList::new(alloc);
    for pair in pairs {
        push_if(&mut made, pair, is_choosable(registry, &named, &pair.0))?;
    }
    Ok(made)
}

/// The pairs in order, each at its first place alone.
fn firsts(alloc: Global, pairs: &[(Text, Text)]) -> Result<PairList, OutOfMemory>
    ensures { IfOk result (λ made. made ≡ firsts pairs.now) }
{
    let mut known = BTreeSet::new(alloc);
    let mut made = PairList::new(alloc);
    for pair in pairs {
        let is_new = known.insert(copy_pair(pair)?)?;
        push_if(&mut made, pair, is_new)?;
    }
    Ok(made)
}

/// The values that the `default-build` of a main target has for features that a set leaves open and that are not free.
#[tactic(auto, unfolding(crate::specs::Requests::open_values))]
fn open_values(
    alloc: Global,
    index: &Index,
    set: &[(Text, Text)],
    name: &TargetName,
) -> Result<PairLists, OutOfMemory>
    ensures { IfOk result (λ made. made ≡ open_values index.now name.now set.now) }
{
    let defaults = index.default_build(name.project(), name.name())?;
    let pairs = choosable(alloc, &index.declared().registry, set, defaults)?;
    let pairs = firsts(alloc, pairs.as_slice())?;
    by_feature(alloc, pairs.as_slice())
}

fn sets_of(alloc: Global, registry: &Registry, rows: &[PairList]) -> Result<PropsList, OutOfMemory>
    ensures { IfOk result (λ made. made ≡ map (set_of registry.now) rows.now) }
{
    let mut made = PropsList::new(alloc);
    for row in rows {
        made.push(set_of(alloc, registry, row.as_slice())?)?;
    }
    Ok(made)
}

fn joined_sets(
    alloc: Global,
    index: &Index,
    set: &Props,
    name: &TargetName,
) -> Result<PropsList, OutOfMemory>
    ensures { IfOk result (λ made. made ≡ sets_for index.now set.now name.now) }
{
    let values = open_values(alloc, index, set.pairs(), name)?;
    let own = copy_pairs(alloc, set.pairs())?;
    let rows = rows_after(alloc, PairList::from_vec(own), values.as_slice())?;
    sets_of(alloc, &index.declared().registry, rows.as_slice())
}

/// The sets that a set of a request stands for, for a main target: it is joined with one value of each feature that it
/// leaves open, that is not free and that the target's `default-build` has, the leftmost feature varying slowest. Equal
/// values count once.
pub fn sets_for(
    alloc: Global,
    index: &Index,
    set: &Props,
    name: &TargetName,
) -> Result<PropsList, OutOfMemory>
    ensures exact { IfOk result (λ made. made ≡ sets_for index.now set.now name.now) }
    ensures sets { IfOk result (λ made. AllByRecursion (IsSet index.now.registry) made) }
{
    distinct(&index.declared().registry);
    joined_sets(alloc, index, set, name)
}
