//! What the registry says of a property.
ghost use Rattle.std.specs.Prelude.{◌≡◌};
ghost use Rattle.b2_features.specs.Faults.{is_with};
ghost use Rattle.b2_props.specs.Refinement.{parts_in};

use b2_base::text::Text;
use b2_features::attribute::Attribute;
use b2_features::registry::Registry;

/// Whether the feature of a name is there and has an attribute; takes no memory.
pub fn is_with(registry: &Registry, attribute: Attribute, name: &str) -> bool
    ensures { result ≡ is_with attribute registry.now name.now }
{
    match registry.find(name) {
        Some(feature) => feature.is(attribute),
        None => false,
    }
}

/// The components of a pair: none where its value is not composed. Takes no memory.
pub fn parts_in<'a>(registry: &'a Registry, pair: &(Text, Text)) -> &'a [(Text, Text)]
    ensures { result.now ≡ parts_in registry.now pair.now }
{
    match registry.find(pair.0.as_str()) {
        Some(feature) => feature.parts_of(pair.1.as_str()).unwrap_or(&[]),
        None => &[],
    }
}
