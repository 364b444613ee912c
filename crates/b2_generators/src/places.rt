//! What the generators at some places take and give.
ghost use Rattle.std.specs.Prelude.{◌≡◌};
ghost use Rattle.b2_generators.specs.Table.{has_text};
ghost use Rattle.b2_generators.specs.Places.{is_usable_at, sources_at, targets_at, takes_any_at, is_taken_by};

use crate::generator_table::GeneratorTable;
use b2_base::text::Text;
use b2_props::membership::has_all;
use b2_props::props::Props;

/// Whether the set has what the generator requires; takes no memory.
pub(crate) fn is_usable(generators: &GeneratorTable, set: &Props, place: usize) -> bool
    ensures { result ≡ is_usable_at generators.now set.now place }
{
    match generators.get(place) {
        Some(generator) => has_all(set.pairs(), generator.required.as_slice()),
        None => false,
    }
}

pub(crate) fn sources_at(generators: &GeneratorTable, place: usize) -> &[Text]
    ensures { result.now ≡ sources_at generators.now place }
{
    match generators.get(place) {
        Some(generator) => generator.sources.as_slice(),
        None => &[],
    }
}

pub(crate) fn targets_at(generators: &GeneratorTable, place: usize) -> &[Text]
    ensures { result.now ≡ targets_at generators.now place }
{
    match generators.get(place) {
        Some(generator) => generator.targets.as_slice(),
        None => &[],
    }
}

fn takes(generators: &GeneratorTable, source: &str, place: usize) -> bool
    ensures { result ≡ has_text (sources_at generators.now place) source.now }
{
    sources_at(generators, place)
        .iter()
        .any(|text| source == text.as_str())
}

/// Whether the generator takes one of the types; takes no memory.
pub(crate) fn takes_any(generators: &GeneratorTable, types: &[Text], place: usize) -> bool
    ensures { result ≡ takes_any_at generators.now types.now place }
{
    types
        .iter()
        .any(|source| takes(generators, source.as_str(), place))
}

/// Whether one of the generators takes the type; takes no memory.
pub(crate) fn is_taken_by(generators: &GeneratorTable, places: &[usize], source: &str) -> bool
    ensures { result ≡ is_taken_by generators.now places.now source.now }
{
    places.iter().any(|place| takes(generators, source, *place))
}
