//! What the words of a request leave open, joined by feature.
ghost use Rattle.std.specs.Prelude.{◌≡◌, ◌==◌, ◌<◌, [], ◌∷◌, ◌++◌, None, IfOk, OnOk, map, fold, length, if◌then◌else◌};
ghost use Rattle.std.specs.List.{list_all};
ghost use Rattle.std.specs.Option.{option_copied};
ghost use Rattle.std.specs.Str.{bytes_eq};
ghost use Rattle.b2_props.specs.Requests.{choices_of, shared, segment_ways, joined};
ghost use Rattle.b2_props.specs.Ways.{ways_of, ways_in, place_of, longer_at, IsPlaced};

use crate::lookups::is_with;
use crate::pair_list::copy_pair;
use crate::word_choice::{Factor, WordChoice};
use b2_base::fault::OutOfMemory;
use b2_base::text::Text;
use b2_base::text_map::TextMap;
use b2_features::attribute::Attribute;
use b2_features::registry::Registry;
use std::alloc::Global;

/// Factors in the order in which they vary, and the place of the one that those of a feature join.
pub(crate) struct WayList {
    pub(crate) factors: Vec<Factor>,
    places: TextMap<usize>,
}

/// By hand, so that dropping the factors and their places is one call.
impl Drop for WayList {
    fn drop(self) {
        let WayList { factors, places } = self;
        drop(factors);
        drop(places);
    }
}

/// Pairs as choices of the word at a place.
pub(crate) fn choices_of(
    alloc: Global,
    place: usize,
    pairs: &[(Text, Text)],
) -> Result<Vec<WordChoice>, OutOfMemory>
    ensures { IfOk result (λ made. made.items ≡ choices_of place pairs.now) }
{
    let mut made = Vec::new(alloc);
    for pair in pairs {
        made.push(WordChoice {
            pair: copy_pair(pair)?,
            word: place,
        })?;
    }
    Ok(made)
}

fn all_have(feature: &Text, pairs: &[(Text, Text)]) -> bool
    ensures { result ≡ list_all (λ q. bytes_eq feature.now q.0) pairs.now }
{
    pairs.iter().all(|pair| *feature == pair.0)
}

/// The feature, not a free one, of which all of some pairs are.
fn shared<'a>(registry: &Registry, pairs: &'a [(Text, Text)]) -> Option<&'a Text>
    ensures { option_copied result ≡ shared registry.now pairs.now }
{
    match pairs.first() {
        None => None,
        Some(first) => {
            if is_with(registry, Attribute::Free, first.0.as_str()) {
                None
            } else if all_have(&first.0, pairs) {
                Some(&first.0)
            } else {
                None
            }
        }
    }
}

fn key_of(
    registry: &Registry,
    lone: bool,
    pairs: &[(Text, Text)],
) -> Result<Option<Text>, OutOfMemory>
    ensures { IfOk result (λ made. made ≡ (if lone then shared registry.now pairs.now else None)) }
{
    if !lone {
        return Ok(None);
    }
    match shared(registry, pairs) {
        None => Ok(None),
        Some(feature) => Ok(Some(feature.copy()?)),
    }
}

fn segment_ways(
    alloc: Global,
    registry: &Registry,
    place: usize,
    lone: bool,
    pairs: &[(Text, Text)],
) -> Result<Factor, OutOfMemory>
    ensures { IfOk result (λ made. ways_of made ≡ segment_ways registry.now place lone pairs.now) }
{
    let key = key_of(registry, lone, pairs)?;
    let choices = choices_of(alloc, place, pairs)?;
    Ok(Factor { key, choices })
}

impl WayList {
    /// No factors; takes no memory.
    pub(crate) fn new(alloc: Global) -> WayList
        ensures ways { ways_in result ≡ [] }
        ensures placed { IsPlaced result }
    {
        WayList {
            factors: Vec::new(alloc),
            places: TextMap::new(alloc),
        }
    }

    fn place_of(&self, key: &Option<Text>) -> Option<usize>
        ensures { IsPlaced self.now → result ≡ place_of key.now (ways_in self.now) }
    {
        match key {
            None => None,
            Some(feature) => self.places.get(feature).copied(),
        }
    }

    /// Adds a factor after all others, none of which has its key.
    fn push(&mut self, factor: Factor) -> Result<(), OutOfMemory>
        requires placed { IsPlaced self.old }
        requires absent { place_of factor.key (ways_in self.old) ≡ None }
        ensures ways { OnOk result (ways_in self.new ≡ ways_in self.old ++ ways_of factor ∷ []) }
        ensures placed { OnOk result (IsPlaced self.new) }
    {
        if let Some(feature) = &factor.key {
            let _before = self.places.insert(feature.copy()?, self.factors.len())?;
        }
        self.factors.push(factor)?;
        Ok(())
    }

    /// Adds choices to the factor at a place.
    fn append(&mut self, place: usize, choices: Vec<WordChoice>) -> Result<(), OutOfMemory>
        requires within { place < length (ways_in self.old) }
        requires placed { IsPlaced self.old }
        ensures ways { OnOk result (ways_in self.new ≡ longer_at place choices.items (ways_in self.old)) }
        ensures placed { OnOk result (IsPlaced self.new) }
    {
        let mut choices = choices;
        self.factors[place].choices.append(&mut choices)?;
        Ok(())
    }

    /// Joins a factor to the earlier one with its key, else adds it after all others.
    fn join(&mut self, factor: Factor) -> Result<(), OutOfMemory>
        requires { IsPlaced self.old }
        ensures ways { OnOk result (ways_in self.new ≡ joined (ways_in self.old) (ways_of factor)) }
        ensures placed { OnOk result (IsPlaced self.new) }
    {
        match self.place_of(&factor.key) {
            None => self.push(factor),
            Some(place) => self.append(place, factor.choices),
        }
    }

    /// Joins the ways of the segments of the word at a place.
    pub(crate) fn join_word(
        &mut self,
        alloc: Global,
        registry: &Registry,
        place: usize,
        segments: &[Vec<(Text, Text)>],
    ) -> Result<(), OutOfMemory>
        requires { IsPlaced self.old }
        ensures ways { OnOk result (ways_in self.new ≡ fold joined (ways_in self.old) (map (segment_ways registry.now place (length segments.now == 1)) (map (λ pairs. pairs.items) segments.now))) }
        ensures placed { OnOk result (IsPlaced self.new) }
    {
        let lone = segments.len() == 1;
        for pairs in segments {
            self.join(segment_ways(alloc, registry, place, lone, pairs.as_slice())?)?;
        }
        Ok(())
    }
}
