//! Values that meet in one set.
ghost use Rattle.std.specs.Prelude.{◌≡◌, not, List, [], Some, None, true, IfOk, OnOk, option_map};
ghost use Rattle.std.specs.FinMap as map;
ghost use Rattle.std.specs.Str.{bytes_eq};
ghost use Rattle.b2_features.specs.Table.{seen};
ghost use Rattle.b2_props.specs.Requests.{brought, feature_clash, row_clash};
ghost use Rattle.b2_props.specs.declared.word_choice.WordChoice.{WordChoice};
ghost use Rattle.b2_props.specs.Meeting.{Meets, HasChoice};

use crate::lookups::parts_in;
use crate::ways::choices_of;
use crate::word_choice::WordChoice;
use b2_base::fault::OutOfMemory;
use b2_base::text::Text;
use b2_base::text_map::TextMap;
use b2_features::attribute::Attribute;
use b2_features::feature::Feature;
use b2_features::registry::Registry;
use std::alloc::Global;

/// The first value of each feature of some choices, and the word of the first choice with another one.
pub(crate) struct Clashes {
    values: TextMap<Text>,
    words: TextMap<usize>,
}

/// By hand, so that dropping both maps is one call.
impl Drop for Clashes {
    fn drop(self) {
        let Clashes { values, words } = self;
        drop(values);
        drop(words);
    }
}

impl Clashes {
    fn new(alloc: Global) -> Clashes
        ensures { Meets [] result }
    {
        Clashes {
            values: TextMap::new(alloc),
            words: TextMap::new(alloc),
        }
    }

    /// Whether the value of a choice is another than the first one of its feature.
    fn differs(&self, choice: &WordChoice) -> Option<bool>
        ensures { result ≡ option_map (λ v. not (bytes_eq choice.now.pair.1 v)) (map.get self.now.values choice.now.pair.0) }
    {
        match self.values.get(&choice.pair.0) {
            None => None,
            Some(value) => Some(choice.pair.1 != *value),
        }
    }

    fn begin(&mut self, choice: &WordChoice) -> Result<(), OutOfMemory>
        requires { map.get self.old.values choice.now.pair.0 ≡ None }
        ensures { OnOk result (HasChoice choice.now self.old self.new) }
    {
        let _before = self
            .values
            .insert(choice.pair.0.copy()?, choice.pair.1.copy()?)?;
        Ok(())
    }

    fn mark(&mut self, choice: &WordChoice) -> Result<(), OutOfMemory>
        requires { option_map (λ v. not (bytes_eq choice.now.pair.1 v)) (map.get self.old.values choice.now.pair.0) ≡ Some true }
        ensures { OnOk result (HasChoice choice.now self.old self.new) }
    {
        match self.words.get(&choice.pair.0) {
            Some(_) => Ok(()),
            None => {
                let _before = self.words.insert(choice.pair.0.copy()?, choice.word)?;
                Ok(())
            }
        }
    }

    fn add(&mut self, choice: &WordChoice) -> Result<(), OutOfMemory>
        ensures { OnOk result (HasChoice choice.now self.old self.new) }
    {
        match self.differs(choice) {
            None => self.begin(choice),
            Some(differs) => {
                if differs {
                    return self.mark(choice);
                }
                Ok(())
            }
        }
    }

    fn of(alloc: Global, choices: &[WordChoice]) -> Result<Clashes, OutOfMemory>
        ensures { IfOk result (λ made. Meets choices.now made) }
    {
        let mut made = Clashes::new(alloc);
        for choice in choices {
            made.add(choice)?;
        }
        Ok(made)
    }
}

/// The components that some choices bring, each with the word of its composite.
fn brought(
    alloc: Global,
    registry: &Registry,
    row: &[WordChoice],
) -> Result<Vec<WordChoice>, OutOfMemory>
    ensures { IfOk result (λ made. made.items ≡ brought registry.now row.now) }
{
    let mut made = Vec::new(alloc);
    for choice in row {
        let mut parts = choices_of(alloc, choice.word, parts_in(registry, &choice.pair))?;
        made.append(&mut parts)?;
    }
    Ok(made)
}

fn feature_clash(explicit: &Clashes, parts: &Clashes, feature: &Feature) -> Option<usize>
    ensures { (row more : List WordChoice) → Meets row explicit.now → Meets more parts.now → result ≡ feature_clash row more (seen feature.now) }
{
    if feature.is(Attribute::Free) {
        return None;
    }
    if explicit.values.get(&feature.name).is_some() {
        return explicit.words.get(&feature.name).copied();
    }
    parts.words.get(&feature.name).copied()
}

/// The place of the word that clashes at the first feature of which two values meet in a set.
pub(crate) fn row_clash(
    alloc: Global,
    registry: &Registry,
    row: &[WordChoice],
) -> Result<Option<usize>, OutOfMemory>
    ensures { IfOk result (λ clash. clash ≡ row_clash registry.now row.now) }
{
    let explicit = Clashes::of(alloc, row)?;
    let brought = brought(alloc, registry, row)?;
    let parts = Clashes::of(alloc, brought.as_slice())?;
    for place in 0..registry.count() {
        if let Some(word) = feature_clash(&explicit, &parts, registry.at(place)) {
            return Ok(Some(word));
        }
    }
    Ok(None)
}
