//! Lists that give a feature two values.
ghost use Rattle.std.specs.Prelude.{◌≡◌, ℕ, List, Some, not, false, IfOk, OnOk, if◌then◌else◌};
ghost use Rattle.std.specs.FinMap as map;
ghost use Rattle.std.specs.Option.{option_copied, option_or, option_map_or};
ghost use Rattle.std.specs.Str.{bytes_eq};
ghost use Rattle.b2_property_texts.specs.Clashes.{has_two_values, unconditional_pair, unconditional_pairs};

use crate::reading::RequirementText;
use b2_base::fault::OutOfMemory;
use b2_base::text::Text;
use b2_base::text_map::TextMap;
use b2_features::attribute::Attribute;
use b2_features::registry::Registry;
use b2_props::lookups::is_with;
use b2_props::pair_list::PairList;
use std::alloc::Global;

/// Whether the value of a pair is another than that of its feature in the map.
fn differs(values: &TextMap<Text>, pair: &(Text, Text)) -> bool
    ensures { result ≡ option_map_or (λ v. not (bytes_eq v pair.now.1)) (map.get values.now pair.now.0) false }
{
    match values.get(&pair.0) {
        None => false,
        Some(value) => *value != pair.1,
    }
}

/// Gives the feature of a pair its value, where it has none.
fn keep(values: &mut TextMap<Text>, pair: &(Text, Text)) -> Result<(), OutOfMemory>
    ensures { OnOk result ((q : List ℕ) → map.get values.new q ≡ (if bytes_eq q pair.now.0 then option_or (map.get values.old q) (Some pair.now.1) else map.get values.old q)) }
{
    if values.get(&pair.0).is_none() {
        let _before = values.insert(pair.0.copy()?, pair.1.copy()?)?;
    }
    Ok(())
}

/// Whether some pairs give a feature that is not free two values; equal ones are one.
pub fn has_two_values(
    alloc: Global,
    registry: &Registry,
    pairs: &[(Text, Text)],
) -> Result<bool, OutOfMemory>
    ensures { IfOk result (λ found. found ≡ has_two_values registry.now pairs.now) }
{
    let mut values = TextMap::new(alloc);
    for pair in pairs {
        if !is_with(registry, Attribute::Free, pair.0.as_str()) && differs(&values, pair) {
            return Ok(true);
        }
        keep(&mut values, pair)?;
    }
    Ok(false)
}

fn unconditional_pair(requirement: &RequirementText) -> Option<&(Text, Text)>
    ensures { option_copied result ≡ unconditional_pair requirement.now }
{
    match requirement {
        RequirementText::Plain(plain) => match plain.conditions.as_slice() {
            [] => Some(&plain.property),
            _ => None,
        },
        RequirementText::Indirect(_) => None,
    }
}

/// The properties that some requirements require always, in order.
pub fn unconditional_pairs(
    alloc: Global,
    requirements: &[RequirementText],
) -> Result<PairList, OutOfMemory>
    ensures { IfOk result (λ made. made ≡ unconditional_pairs requirements.now) }
{
    let mut made = PairList::new(alloc);
    for requirement in requirements {
        if let Some(pair) = unconditional_pair(requirement) {
            made.push(pair.0.copy()?, pair.1.copy()?)?;
        }
    }
    Ok(made)
}
