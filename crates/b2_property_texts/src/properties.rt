//! Properties of texts, completed.
ghost use Rattle.std.specs.Prelude.{◌≡◌, IfOk, IfSome};
ghost use Rattle.std.specs.Option.{option_copied};
ghost use Rattle.b2_base.specs.Bytes.{HasNoZero};
ghost use Rattle.b2_features.specs.Faults.{unknown_in};
ghost use Rattle.b2_props.specs.Words.{implicit_pair};
ghost use Rattle.b2_property_texts.specs.Cuts.{named_pair};
ghost use Rattle.b2_property_texts.specs.Readings.{pair_of, property_of, unknown_word, all_of};

use crate::completion::value_in;
use crate::cuts::named_pair;
use b2_base::fault::OutOfMemory;
use b2_base::path::Path;
use b2_base::text::Text;
use b2_features::attribute::Attribute;
use b2_features::registry::Registry;
use b2_props::pair_list::PairList;
use b2_props::words::implicit_feature;
use std::alloc::Global;

fn owned_pair(alloc: Global, feature: &str, value: &str) -> Result<(Text, Text), OutOfMemory>
    requires feature { HasNoZero feature.now }
    requires value { HasNoZero value.now }
    ensures { IfOk result (λ made. made ≡ (feature.now, value.now)) }
{
    Ok((Text::new(alloc, feature)?, Text::new(alloc, value)?))
}

/// An implicit value with its feature.
fn implicit_pair(registry: &Registry, text: &Text) -> Result<Option<(Text, Text)>, OutOfMemory>
    ensures { IfOk result (λ pair. pair ≡ implicit_pair registry.now text.now) }
{
    match implicit_feature(registry, text) {
        None => Ok(None),
        Some(feature) => Ok(Some((feature.copy()?, text.copy()?))),
    }
}

/// The feature and the value of a text `<feature>value`, as they stand; none of any other text.
pub fn named(alloc: Global, text: &Text) -> Result<Option<(Text, Text)>, OutOfMemory>
    ensures { IfOk result (λ pair. pair ≡ named_pair text.now) }
{
    match named_pair(text.as_str()) {
        None => Ok(None),
        Some((feature, value)) => Ok(Some(owned_pair(alloc, feature, value)?)),
    }
}

/// The feature and the value that a text names: `<feature>value`, or an implicit value.
fn pair_of(
    alloc: Global,
    registry: &Registry,
    text: &Text,
) -> Result<Option<(Text, Text)>, OutOfMemory>
    ensures { IfOk result (λ pair. pair ≡ pair_of registry.now text.now) }
{
    match named(alloc, text)? {
        None => implicit_pair(registry, text),
        Some(pair) => Ok(Some(pair)),
    }
}

/// The unknown word of a feature and a value; takes no memory.
fn unknown_in<'a>(registry: &Registry, feature: &'a str, value: &'a str) -> Option<&'a str>
    requires feature { HasNoZero feature.now }
    requires value { HasNoZero value.now }
    ensures unknown { option_copied result ≡ unknown_in registry.now (feature.now, value.now) }
    ensures clean { IfSome result (λ word. HasNoZero word.now) }
{
    match registry.find(feature) {
        None => Some(feature),
        Some(known) => {
            if known.is(Attribute::Free) || known.lists(value) {
                None
            } else {
                Some(value)
            }
        }
    }
}

/// The property of a text, completed, where the text is one.
pub(crate) fn property_of(
    alloc: Global,
    registry: &Registry,
    dir: &Path,
    text: &Text,
) -> Result<Option<(Text, Text)>, OutOfMemory>
    ensures { IfOk result (λ property. property ≡ property_of registry.now dir.now text.now) }
{
    let Some((feature, value)) = pair_of(alloc, registry, text)? else {
        return Ok(None);
    };
    if unknown_in(registry, feature.as_str(), value.as_str()).is_some() {
        return Ok(None);
    }
    let value = value_in(alloc, registry, dir, &feature, &value)?;
    Ok(Some((feature, value)))
}

/// The unknown word of a text that is no property; takes no memory.
pub(crate) fn unknown_word<'a>(registry: &Registry, text: &'a Text) -> &'a str
    ensures word { result.now ≡ unknown_word registry.now text.now }
    ensures clean { HasNoZero result.now }
{
    let text = text.as_str();
    match named_pair(text) {
        None => text,
        Some((feature, value)) => unknown_in(registry, feature, value).unwrap_or(text),
    }
}

/// The properties of some texts, where all of them are properties.
pub(crate) fn all_of(
    alloc: Global,
    registry: &Registry,
    dir: &Path,
    texts: &[Text],
) -> Result<Option<PairList>, OutOfMemory>
    ensures { IfOk result (λ properties. properties ≡ all_of registry.now dir.now texts.now) }
{
    let mut made = PairList::new(alloc);
    for text in texts {
        let Some((feature, value)) = property_of(alloc, registry, dir, text)? else {
            return Ok(None);
        };
        made.push(feature, value)?;
    }
    Ok(Some(made))
}
