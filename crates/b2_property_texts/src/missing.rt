//! The pairs of a list whose features another list does not name.
ghost use Rattle.std.specs.Prelude.{◌≡◌, ◌++◌, ℕ, List, not, filter, is_some, IfOk};
ghost use Rattle.std.specs.FinMap as map;
ghost use Rattle.b2_props.specs.Refinement.{names};
ghost use Rattle.b2_property_texts.specs.Missing.{missing};

use b2_base::fault::OutOfMemory;
use b2_base::text::Text;
use b2_base::text_map::TextMap;
use b2_features::feature::copy_pairs;
use b2_props::pair_list::PairList;
use b2_props::refinement::take_all;
use std::alloc::Global;

/// The features of some pairs as a set.
pub fn features_of(alloc: Global, pairs: &[(Text, Text)]) -> Result<TextMap<()>, OutOfMemory>
    ensures { IfOk result (λ made. (feature : List ℕ) → is_some (map.get made feature) ≡ names pairs.now feature) }
{
    let mut made = TextMap::new(alloc);
    take_all(&mut made, pairs)?;
    Ok(made)
}

/// The pairs whose features are not among some.
fn others(
    alloc: Global,
    features: &TextMap<()>,
    pairs: &[(Text, Text)],
) -> Result<PairList, OutOfMemory>
    ensures { IfOk result (λ made. made ≡ filter (λ p. not (is_some (map.get features.now p.0))) pairs.now) }
{
    let mut made = PairList::new(alloc);
    for pair in pairs {
        if features.get(&pair.0).is_none() {
            made.push(pair.0.copy()?, pair.1.copy()?)?;
        }
    }
    Ok(made)
}

/// A set, then the pairs of a `default-build` whose features it does not name.
pub fn with_missing(
    alloc: Global,
    set: &[(Text, Text)],
    defaults: &[(Text, Text)],
) -> Result<PairList, OutOfMemory>
    ensures { IfOk result (λ made. made ≡ set.now ++ missing set.now defaults.now) }
{
    let features = features_of(alloc, set)?;
    let more = others(alloc, &features, defaults)?;
    let pairs = copy_pairs(alloc, set)?;
    let mut made = PairList::from_vec(pairs);
    made.append(more)?;
    Ok(made)
}
