//! The table of features.
ghost use Rattle.std.specs.Prelude.{◌≡◌, ℕ, List, true, false, ◌<◌, ◌++◌, ◌∷◌, [], length, slice_get, Some, None, option_map, find, OnOk, OnErr, IfOk, IfErr, string_bytes, map, is_some, ◌||◌};
ghost use Rattle.std.specs.List.{list_any, list_all};
ghost use Rattle.std.specs.FinMap as map;
ghost use Rattle.std.specs.Str.{bytes_eq};
ghost use Rattle.std.specs.Option.{option_copied, option_or};
ghost use Rattle.b2_base.specs.Bytes.{HasNoZero};
ghost use Rattle.b2_features.specs.Table.{DeclaredFeature, HasDistinctNames, is_whole, seen, declared, is_implicit_in, implicit_of, default_of, place_of, feature_of, composed};
ghost use Rattle.b2_features.specs.Finding.{FindsOneMore, FindsParts};
ghost use Rattle.b2_features.specs.Faults.{is_conflict, twice_value, twice_word, unknown_in, unknown_word, is_with, bad_part, is_composed, conflict_word, feature_fault, compose_fault, IsBy, is_implicit};

use crate::attribute::Attribute;
use crate::checks::{bad_word, contradicted};
use crate::fault::FeatureFault;
use crate::feature::{Feature, copy_pairs};
use crate::implicit::implicit_values;
use crate::text_places::TextPlaces;
use b2_base::fault::OutOfMemory;
use b2_base::text::Text;
use b2_base::text_map::TextMap;
use indexmap::IndexMap;
use std::alloc::Global;
use std::marker::Model;

/// The declared features, seen as their list in order of declaration. No two have one name, and each that is neither free
/// nor optional has a value.
pub struct Registry {
    alloc: Global,
    features: IndexMap<String, Feature>,
    implicit: TextPlaces,
}

/// By hand, so that dropping one is one call.
impl Drop for Registry {
    fn drop(self) {
        let Registry {
            alloc: _,
            features,
            implicit,
        } = self;
        drop(features);
        drop(implicit);
    }
}

impl Model for Registry {
    ghost use Rattle.std.specs.Prelude.{List, map};
    ghost use Rattle.b2_features.specs.Table.{DeclaredFeature, seen};
    ghost use Rattle.b2_features.specs.Index.{IsIndexed};

    ghost Value = { List DeclaredFeature };

    ghost view = { λ r. map (λ e. seen e.1) r.features.entries };

    ghost invariant = { λ r. IsIndexed r.features.entries r.implicit };
}

impl Registry {
    /// No features; takes no memory.
    pub fn new(alloc: Global) -> Registry
        ensures { result ≡ [] }
    {
        Registry {
            alloc,
            features: IndexMap::new(alloc),
            implicit: TextPlaces::new(alloc),
        }
    }

    /// How many features there are; takes no memory.
    pub fn count(&self) -> usize
        ensures number { result ≡ length self.now }
        ensures distinct { HasDistinctNames self.now }
        ensures whole { list_all is_whole self.now ≡ true }
    {
        self.features.len()
    }

    /// The feature at a place, from 0; takes no memory.
    pub fn at(&self, place: usize) -> &Feature
        requires { place < length self.now }
        ensures { slice_get self.now place ≡ Some (seen result.now) }
    {
        match self.features.get_index(place) {
            Some((_, feature)) => feature,
            None => unreachable!(),
        }
    }

    /// The place of a name, from 0; takes no memory.
    pub fn place_of(&self, name: &str) -> Option<usize>
        ensures { result ≡ place_of self.now name.now }
    {
        self.features.get_index_of(name)
    }

    /// The feature of a name; takes no memory.
    pub fn find(&self, name: &str) -> Option<&Feature>
        ensures { option_map (λ f. seen f.now) result ≡ feature_of self.now name.now }
    {
        self.features.get(name)
    }

    /// The name of the first feature of which the value is an implicit one; takes no memory.
    pub fn implicit_of(&self, value: &str) -> Option<&str>
        ensures { option_copied result ≡ implicit_of self.now value.now }
    {
        let place = self.implicit.get(value)?;
        Some(self.at(place).name.as_str())
    }

    /// The default of the feature of a name: its first value, but none where it is free or optional. Takes no memory.
    pub fn default_of(&self, name: &str) -> Option<&str>
        ensures { option_copied result ≡ default_of self.now name.now }
    {
        let value = self.find(name)?.default_value()?;
        Some(value.as_str())
    }

    fn is_implicit(&self, value: &str) -> bool
        ensures { result ≡ is_implicit self.now value.now }
    {
        self.implicit_of(value).is_some()
    }

    /// Puts a value among the earlier ones, and tells whether it is implicit or was among them.
    fn is_there(&self, earlier: &mut TextMap<()>, value: &Text) -> Result<bool, OutOfMemory>
        ensures there { IfOk result (λ there. there ≡ (is_implicit self.now value.now || is_some (map.get earlier.old value.now))) }
        ensures known { OnOk result ((q : List ℕ) → is_some (map.get earlier.new q) ≡ (is_some (map.get earlier.old q) || bytes_eq q value.now)) }
    {
        let before = earlier.insert(value.copy()?, ())?;
        Ok(self.is_implicit(value.as_str()) || before.is_some())
    }

    fn check_values(&self, values: &[Text]) -> Result<(), FeatureFault>
        ensures ok { OnOk result (twice_value self.now [] values.now ≡ None) }
        ensures cause { IfErr result (IsBy (option_map FeatureFault.Twice (twice_value self.now [] values.now))) }
    {
        let mut earlier = TextMap::new(self.alloc);
        for value in values {
            if self.is_there(&mut earlier, value)? {
                return Err(FeatureFault::Twice {
                    word: value.copy()?,
                });
            }
        }
        Ok(())
    }

    fn check_twice(
        &self,
        name: &Text,
        values: &[Text],
        attributes: &[Text],
    ) -> Result<(), FeatureFault>
        ensures ok { OnOk result (twice_word self.now name.now values.now attributes.now ≡ None) }
        ensures cause { IfErr result (IsBy (option_map FeatureFault.Twice (twice_word self.now name.now values.now attributes.now))) }
    {
        if self.find(name.as_str()).is_some() {
            return Err(FeatureFault::Twice { word: name.copy()? });
        }
        if Attribute::Implicit.stands_in(attributes) {
            return self.check_values(values);
        }
        Ok(())
    }

    fn check_feature(
        &self,
        name: &Text,
        values: &[Text],
        attributes: &[Text],
    ) -> Result<(), FeatureFault>
        ensures ok { OnOk result (feature_fault self.now name.now values.now attributes.now ≡ None) }
        ensures cause { IfErr result (IsBy (feature_fault self.now name.now values.now attributes.now)) }
    {
        self.check_twice(name, values, attributes)?;
        if let Some(word) = bad_word(name, values, attributes) {
            return Err(FeatureFault::BadValue { word: word.copy()? });
        }
        Ok(())
    }

    fn unknown_in<'a>(&self, name: &'a Text, value: &'a Text) -> Option<&'a Text>
        ensures { option_copied result ≡ unknown_in self.now (name.now, value.now) }
    {
        match self.find(name.as_str()) {
            None => Some(name),
            Some(feature) => {
                if feature.is(Attribute::Free) || feature.lists(value.as_str()) {
                    None
                } else {
                    Some(value)
                }
            }
        }
    }

    fn first_unknown<'a>(&self, parts: &'a [(Text, Text)]) -> Option<&'a (Text, Text)>
        ensures { option_copied result ≡ find (λ part. is_some (unknown_in self.now part)) parts.now }
    {
        parts
            .iter()
            .find(|part| self.unknown_in(&part.0, &part.1).is_some())
    }

    fn unknown_word<'a>(&self, parts: &'a [(Text, Text)]) -> Option<&'a Text>
        ensures { option_copied result ≡ unknown_word self.now parts.now }
    {
        let part = self.first_unknown(parts)?;
        self.unknown_in(&part.0, &part.1)
    }

    fn is_with(&self, attribute: Attribute, name: &str) -> bool
        ensures { result ≡ is_with attribute self.now name.now }
    {
        match self.find(name) {
            Some(feature) => feature.is(attribute),
            None => false,
        }
    }

    fn first_composite<'a>(&self, parts: &'a [(Text, Text)]) -> Option<&'a (Text, Text)>
        ensures { option_copied result ≡ find (λ part. is_with Attribute.Composite self.now part.0) parts.now }
    {
        parts
            .iter()
            .find(|part| self.is_with(Attribute::Composite, part.0.as_str()))
    }

    fn bad_part<'a>(&self, name: &'a Text, parts: &'a [(Text, Text)]) -> Option<&'a Text>
        ensures { option_copied result ≡ bad_part self.now name.now parts.now }
    {
        if !self.is_with(Attribute::Composite, name.as_str()) {
            return Some(name);
        }
        let part = self.first_composite(parts)?;
        Some(&part.0)
    }

    fn is_composed(&self, name: &str, value: &str) -> bool
        ensures { result ≡ is_composed self.now name.now value.now }
    {
        match self.find(name) {
            Some(feature) => feature.parts_of(value).is_some(),
            None => false,
        }
    }

    fn first_contradicted<'a>(&self, parts: &'a [(Text, Text)]) -> Option<&'a (Text, Text)>
        ensures { option_copied result ≡ find (is_conflict self.now parts.now) parts.now }
    {
        parts.iter().find(|part| !self.is_with(Attribute::Free, part.0.as_str())
            && contradicted(parts, part))
    }

    fn conflict_word<'a>(
        &self,
        name: &Text,
        value: &'a Text,
        parts: &'a [(Text, Text)],
    ) -> Option<&'a Text>
        ensures { option_copied result ≡ conflict_word self.now name.now value.now parts.now }
    {
        if self.is_composed(name.as_str(), value.as_str()) {
            return Some(value);
        }
        let part = self.first_contradicted(parts)?;
        Some(&part.1)
    }

    fn check_known(
        &self,
        name: &Text,
        value: &Text,
        parts: &[(Text, Text)],
    ) -> Result<(), FeatureFault>
        ensures ok { OnOk result (option_or (unknown_in self.now (name.now, value.now)) (unknown_word self.now parts.now) ≡ None) }
        ensures cause { IfErr result (IsBy (option_map FeatureFault.Unknown (option_or (unknown_in self.now (name.now, value.now)) (unknown_word self.now parts.now)))) }
    {
        if let Some(word) = self.unknown_in(name, value) {
            return Err(FeatureFault::Unknown { word: word.copy()? });
        }
        if let Some(word) = self.unknown_word(parts) {
            return Err(FeatureFault::Unknown { word: word.copy()? });
        }
        Ok(())
    }

    fn check_compose(
        &self,
        name: &Text,
        value: &Text,
        parts: &[(Text, Text)],
    ) -> Result<(), FeatureFault>
        ensures ok { OnOk result (compose_fault self.now name.now value.now parts.now ≡ None) }
        ensures cause { IfErr result (IsBy (compose_fault self.now name.now value.now parts.now)) }
    {
        self.check_known(name, value, parts)?;
        if let Some(word) = self.bad_part(name, parts) {
            return Err(FeatureFault::BadValue { word: word.copy()? });
        }
        if let Some(word) = self.conflict_word(name, value, parts) {
            return Err(FeatureFault::ComposeConflict { word: word.copy()? });
        }
        Ok(())
    }

    fn put(&mut self, feature: Feature, implicit: Vec<String>) -> Result<(), OutOfMemory>
        requires absent { feature_of self.old feature.name ≡ None }
        requires implicit { (q : List ℕ) → list_any (λ value. bytes_eq q (string_bytes value)) implicit.items ≡ is_implicit_in q (seen feature) }
        requires whole { is_whole (seen feature) ≡ true }
        requires untaken { (q : List ℕ) → is_implicit_in q (seen feature) ≡ true → is_implicit self.old q ≡ false }
        ensures ok { OnOk result (self.new ≡ self.old ++ seen feature ∷ []) }
        ensures err { OnErr result (self.new ≡ self.old) }
    {
        let key = String::from_str(self.alloc, feature.name.as_str())?;
        self.features.reserve(1)?;
        let place = self.features.len();
        self.implicit.add(implicit, place)?;
        let _before = self.features.insert(key, feature).unwrap();
        Ok(())
    }

    /// Declares a feature with its values and attributes. A name, and a value of a feature that is not free, is made of one
    /// letter, digit, `.`, `_`, `-` or `+`, or more; a feature that is neither free nor optional has a value; an implicit
    /// value is there once; `path` and `dependency` go with `free` alone, and `composite` without it. After an error nothing
    /// has changed.
    pub fn feature(
        &mut self,
        name: &str,
        values: &[Text],
        attributes: &[Text],
    ) -> Result<(), FeatureFault>
        requires { HasNoZero name.now }
        ensures ok { OnOk result (self.new ≡ self.old ++ declared name.now values.now attributes.now ∷ []) }
        ensures found { OnOk result (FindsOneMore self.old self.new (declared name.now values.now attributes.now)) }
        ensures sound { OnOk result (feature_fault self.old name.now values.now attributes.now ≡ None) }
        ensures cause { IfErr result (IsBy (feature_fault self.old name.now values.now attributes.now)) }
        ensures err { OnErr result (self.new ≡ self.old) }
    {
        let name = Text::new(self.alloc, name)?;
        self.check_feature(&name, values, attributes)?;
        let implicit = implicit_values(self.alloc, values, attributes)?;
        let feature = Feature::new(self.alloc, name, values, attributes)?;
        self.put(feature, implicit)?;
        Ok(())
    }

    fn put_parts(
        &mut self,
        name: &str,
        value: Text,
        parts: Vec<(Text, Text)>,
    ) -> Result<(), OutOfMemory>
        ensures ok { OnOk result (self.new ≡ composed self.old name.now value parts.items) }
        ensures err { OnErr result (self.new ≡ self.old) }
    {
        if let Some(feature) = self.features.get_mut(name) {
            return feature.add_parts(value, parts);
        }
        Ok(())
    }

    /// Composes a value of properties of other features. The feature is composite, those of the components are not; all are
    /// there and have their values, and no feature but a free one gets two. After an error nothing has changed.
    pub fn compose(
        &mut self,
        name: &str,
        value: &str,
        parts: &[(Text, Text)],
    ) -> Result<(), FeatureFault>
        requires name { HasNoZero name.now }
        requires value { HasNoZero value.now }
        ensures ok { OnOk result (self.new ≡ composed self.old name.now value.now parts.now) }
        ensures found { OnOk result (FindsParts self.old self.new name.now value.now parts.now) }
        ensures sound { OnOk result (compose_fault self.old name.now value.now parts.now ≡ None) }
        ensures cause { IfErr result (IsBy (compose_fault self.old name.now value.now parts.now)) }
        ensures err { OnErr result (self.new ≡ self.old) }
    {
        let name = Text::new(self.alloc, name)?;
        let value = Text::new(self.alloc, value)?;
        self.check_compose(&name, &value, parts)?;
        let parts = copy_pairs(self.alloc, parts)?;
        self.put_parts(name.as_str(), value, parts)?;
        Ok(())
    }
}
