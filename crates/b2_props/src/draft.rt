//! A set of properties in the making.
ghost use Rattle.std.specs.Prelude.{◌≡◌, ℕ, true, List, [], ◌∷◌, None, Option, OnOk, IfOk};
ghost use Rattle.std.specs.Option.{option_copied, option_to_list};
ghost use Rattle.std.specs.List.{filter_map, list_all};
ghost use Rattle.std.specs.FinMap as map;
ghost use Rattle.b2_features.specs.Table.{DeclaredFeature, HasDistinctNames, is_whole, seen};
ghost use Rattle.b2_features.specs.Faults.{is_with};
ghost use Rattle.b2_props.specs.Sets.{Pair, firsts, free_of, pair_of, written};
ghost use Rattle.b2_props.specs.Refinement.{components, default_pair, defaults};
ghost use Rattle.b2_props.specs.Holding.{Holds, Gains, Takes, HasOneMore, HasValue};

use crate::lookups::{is_with, parts_in};
use crate::pair_list::pair_with;
use crate::props::Props;
use b2_base::fault::OutOfMemory;
use b2_base::text::Text;
use b2_base::text_map::TextMap;
use b2_features::attribute::Attribute;
use b2_features::feature::Feature;
use b2_features::registry::Registry;
use std::alloc::Global;
use std::collections::BTreeSet;

/// A value for each of some features that are not free, and free pairs, each once.
pub(crate) struct Draft {
    values: TextMap<Text>,
    free: Vec<(Text, Text)>,
    known: BTreeSet<(Text, Text)>,
}

/// By hand, so that dropping a draft is one call.
impl Drop for Draft {
    fn drop(self) {
        let Draft {
            values,
            free,
            known,
        } = self;
        drop(values);
        drop(free);
        drop(known);
    }
}

impl Draft {
    /// Nothing yet; takes no memory.
    pub(crate) fn new(alloc: Global) -> Draft
        ensures { (table : List DeclaredFeature) → Holds table (λ _. None) [] result }
    {
        Draft {
            values: TextMap::new(alloc),
            free: Vec::new(alloc),
            known: BTreeSet::new(alloc),
        }
    }

    fn add_free(&mut self, feature: &Text, value: &Text) -> Result<(), OutOfMemory>
        ensures { OnOk result (HasOneMore (feature.now, value.now) self.old self.new) }
    {
        if self.known.insert(pair_with(feature, value)?)? {
            self.free.push(pair_with(feature, value)?)?;
        }
        Ok(())
    }

    fn set(&mut self, feature: &Text, value: &Text) -> Result<(), OutOfMemory>
        ensures { OnOk result (HasValue (feature.now, value.now) self.old self.new) }
    {
        let _before = self.values.insert(feature.copy()?, value.copy()?)?;
        Ok(())
    }

    /// Adds a pair. A feature that is not free and has a value keeps it.
    #[tactic(auto, using(crate::proofs::DraftHoldsEachGainedPair::gain_free, crate::proofs::DraftHoldsEachGainedPair::gain_value, crate::proofs::DraftHoldsEachGainedPair::gain_nothing))]
    pub(crate) fn add(
        &mut self,
        registry: &Registry,
        feature: &Text,
        value: &Text,
    ) -> Result<(), OutOfMemory>
        ensures { OnOk result (Gains registry.now ((feature.now, value.now) ∷ []) self.old self.new) }
    {
        if is_with(registry, Attribute::Free, feature.as_str()) {
            self.add_free(feature, value)?;
            return Ok(());
        }
        if self.values.get(feature).is_none() {
            self.set(feature, value)?;
        }
        Ok(())
    }

    /// Adds a pair. A feature that is not free gets this value.
    #[tactic(auto, using(crate::proofs::DraftHoldsEachGainedPair::take_free, crate::proofs::DraftHoldsEachGainedPair::take_value))]
    pub(crate) fn put(
        &mut self,
        registry: &Registry,
        feature: &Text,
        value: &Text,
    ) -> Result<(), OutOfMemory>
        ensures { OnOk result (Takes registry.now ((feature.now, value.now) ∷ []) self.old self.new) }
    {
        if !is_with(registry, Attribute::Free, feature.as_str()) {
            return self.set(feature, value);
        }
        self.add_free(feature, value)
    }

    /// Adds pairs in order; the first value of a feature that is not free stays.
    pub(crate) fn add_all(
        &mut self,
        registry: &Registry,
        pairs: &[(Text, Text)],
    ) -> Result<(), OutOfMemory>
        ensures { OnOk result (Gains registry.now pairs.now self.old self.new) }
    {
        for pair in pairs {
            self.add(registry, &pair.0, &pair.1)?;
        }
        Ok(())
    }

    /// Adds pairs in order; the last value of a feature that is not free counts.
    pub(crate) fn put_all(
        &mut self,
        registry: &Registry,
        pairs: &[(Text, Text)],
    ) -> Result<(), OutOfMemory>
        ensures { OnOk result (Takes registry.now pairs.now self.old self.new) }
    {
        for pair in pairs {
            self.put(registry, &pair.0, &pair.1)?;
        }
        Ok(())
    }

    /// Adds the components of composites among some pairs.
    pub(crate) fn add_components(
        &mut self,
        registry: &Registry,
        pairs: &[(Text, Text)],
    ) -> Result<(), OutOfMemory>
        ensures { OnOk result (Gains registry.now (components registry.now pairs.now) self.old self.new) }
    {
        for pair in pairs {
            self.add_all(registry, parts_in(registry, pair))?;
        }
        Ok(())
    }

    fn add_default(&mut self, registry: &Registry, feature: &Feature) -> Result<(), OutOfMemory>
        ensures { OnOk result (Gains registry.now (option_to_list (default_pair (seen feature.now))) self.old self.new) }
    {
        match feature.default_value() {
            Some(value) => self.add(registry, &feature.name, value),
            None => Ok(()),
        }
    }

    /// Adds the defaults of the features that are neither free nor optional.
    pub(crate) fn add_defaults(&mut self, registry: &Registry) -> Result<(), OutOfMemory>
        ensures gains { OnOk result (Gains registry.now (defaults registry.now) self.old self.new) }
        ensures whole { list_all is_whole registry.now ≡ true }
    {
        for place in 0..registry.count() {
            self.add_default(registry, registry.at(place))?;
        }
        Ok(())
    }

    /// The value of a feature; takes no memory.
    pub(crate) fn value(&self, feature: &Text) -> Option<&Text>
        ensures { option_copied result ≡ map.get self.now.values feature.now }
    {
        self.values.get(feature)
    }

    fn pair_of(&self, feature: &Feature) -> Result<Option<(Text, Text)>, OutOfMemory>
        ensures { IfOk result (λ pair. pair ≡ pair_of (map.get self.now.values) (seen feature.now)) }
    {
        if feature.is(Attribute::Free) {
            return Ok(None);
        }
        match self.values.get(&feature.name) {
            None => Ok(None),
            Some(value) => Ok(Some(pair_with(&feature.name, value)?)),
        }
    }

    fn valued(&self, alloc: Global, registry: &Registry) -> Result<Vec<(Text, Text)>, OutOfMemory>
        ensures pairs { IfOk result (λ made. made.items ≡ filter_map (pair_of (map.get self.now.values)) registry.now) }
        ensures distinct { HasDistinctNames registry.now }
    {
        let mut made = Vec::new(alloc);
        for place in 0..registry.count() {
            if let Some(pair) = self.pair_of(registry.at(place))? {
                made.push(pair)?;
            }
        }
        Ok(made)
    }

    /// The set that the draft stands for.
    pub(crate) fn into_props(self, alloc: Global, registry: &Registry) -> Result<Props, OutOfMemory>
        ensures distinct { HasDistinctNames registry.now }
        ensures value { IfOk result (λ made. (had : List ℕ → Option (List ℕ)) (pairs : List Pair) → Holds registry.now had pairs self → made ≡ written registry.now had (firsts (free_of registry.now pairs))) }
    {
        let mut draft = self;
        let mut pairs = draft.valued(alloc, registry)?;
        pairs.append(&mut draft.free)?;
        Props::from_vec(alloc, pairs)
    }
}
