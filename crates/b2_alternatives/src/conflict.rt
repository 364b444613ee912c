//! Usage requirements that do not go together.
ghost use Rattle.std.specs.Prelude.{◌≡◌, [], List, Option, IfOk, OnOk};
ghost use Rattle.std.specs.Option.{option_copied};
ghost use Rattle.b2_props.specs.Sets.{Pair};
ghost use Rattle.b2_alternatives.specs.Needs.{other_value};
ghost use Rattle.b2_alternatives.specs.DependencyWork.{AreValues};
ghost use Rattle.b2_alternatives.specs.Conflicting.{Meets, HasFirst};

use b2_base::fault::OutOfMemory;
use b2_base::text::Text;
use b2_base::text_map::TextMap;
use b2_features::attribute::Attribute;
use b2_features::registry::Registry;
use b2_props::lookups::is_with;
use std::alloc::Global;

/// Two values of a feature that is not free: an earlier one and a later one.
#[derive(Drop)]
pub struct Conflict {
    pub feature: Text,
    pub first: Text,
    pub second: Text,
}

/// The first value of each feature that some pairs name.
#[derive(Drop)]
pub struct Values {
    first: TextMap<Text>,
}

fn found(pair: &(Text, Text), first: &Text) -> Result<Conflict, OutOfMemory>
    ensures { IfOk result (λ made. made ≡ record { feature = pair.now.0; first = first.now; second = pair.now.1 }) }
{
    Ok(Conflict {
        feature: pair.0.copy()?,
        first: first.copy()?,
        second: pair.1.copy()?,
    })
}

impl Values {
    /// No values; takes no memory.
    pub(crate) fn new(alloc: Global) -> Values
        ensures { AreValues [] result }
    {
        Values {
            first: TextMap::new(alloc),
        }
    }

    /// Another value of the feature of a pair.
    fn other(&self, registry: &Registry, pair: &(Text, Text)) -> Option<&Text>
        ensures { (before : List Pair) → AreValues before self.now → option_copied result ≡ other_value registry.now before pair.now }
    {
        if is_with(registry, Attribute::Free, pair.0.as_str()) {
            return None;
        }
        let value = self.first.get(&pair.0)?;
        if *value == pair.1 { None } else { Some(value) }
    }

    /// Gives the feature of a pair its value, where it has none.
    fn keep(&mut self, pair: &(Text, Text)) -> Result<(), OutOfMemory>
        ensures { OnOk result (HasFirst pair.now self.old self.new) }
    {
        if self.first.get(&pair.0).is_none() {
            let _before = self.first.insert(pair.0.copy()?, pair.1.copy()?)?;
        }
        Ok(())
    }

    /// The first of some pairs that does not go with one before it, those before among them. Where there is none, the values of
    /// all of them are kept.
    pub(crate) fn meet(
        &mut self,
        registry: &Registry,
        pairs: &[(Text, Text)],
    ) -> Result<Option<Conflict>, OutOfMemory>
        ensures { (before : List Pair) → AreValues before self.old → IfOk result (Meets registry.now before pairs.now self.new) }
    {
        for pair in pairs {
            if let Some(value) = self.other(registry, pair) {
                return Ok(Some(found(pair, value)?));
            }
            self.keep(pair)?;
        }
        Ok(None)
    }
}
