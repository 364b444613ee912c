//! Words cut into properties.
ghost use Rattle.std.specs.Prelude.{◌≡◌, [], ◌∷◌, ◌++◌, None, IfOk, IfErr, OnOk, MatchOption, map, false};
ghost use Rattle.std.specs.List.{list_all, filter_map};
ghost use Rattle.std.specs.Option.{option_copied, option_to_list};
ghost use Rattle.b2_base.specs.Bytes.{HasNoZero};
ghost use Rattle.b2_features.specs.Table.{implicit_of};
ghost use Rattle.b2_props.specs.Words.{cut, first_of, is_named, AreHalves, is_property, implicit_pair, segment_pairs, pair_fault, segment_fault, IsBy};
ghost use Rattle.b2_features.specs.Faults.{is_implicit};

use crate::pair_list::pair_with;
use crate::request_fault::RequestFault;
use b2_base::fault::OutOfMemory;
use b2_base::text::Text;
use b2_base::text_list::owned_texts;
use b2_features::attribute::Attribute;
use b2_features::registry::Registry;
use std::alloc::Global;

/// The parts of a text with commas between them.
pub fn commas(alloc: Global, text: &str) -> Result<Vec<Text>, OutOfMemory>
    requires { HasNoZero text.now }
    ensures { IfOk result (λ made. made.items ≡ cut 44 text.now) }
{
    let cuts: Vec<&str> = text.split(',').collect(alloc)?;
    let made = owned_texts(alloc, cuts.as_slice())?;
    Ok(made.into_vec())
}

/// The segments of a word.
pub(crate) fn slashes(alloc: Global, word: &Text) -> Result<Vec<Text>, OutOfMemory>
    ensures { IfOk result (λ made. made.items ≡ cut 47 word.now) }
{
    let cuts: Vec<&str> = word.as_str().split('/').collect(alloc)?;
    let made = owned_texts(alloc, cuts.as_slice())?;
    Ok(made.into_vec())
}

fn is_implicit(registry: &Registry, value: &str) -> bool
    ensures { result ≡ is_implicit registry.now value.now }
{
    registry.implicit_of(value).is_some()
}

fn all_implicit(registry: &Registry, segment: &str) -> bool
    ensures { result ≡ list_all (is_implicit registry.now) (cut 44 segment.now) }
{
    segment.split(',').all(|value| is_implicit(registry, value))
}

/// What stands before and after the first `=`, where there is one.
fn halves(segment: &Text) -> Option<(&str, &str)>
    ensures { MatchOption result (is_named segment.now ≡ false) (λ parts. AreHalves segment.now parts.0.now parts.1.now) }
{
    segment.as_str().split_once('=')
}

fn is_property(registry: &Registry, segment: &Text) -> bool
    ensures { result ≡ is_property registry.now segment.now }
{
    halves(segment).is_some() || all_implicit(registry, segment.as_str())
}

/// Whether all of some segments give properties; takes no memory.
pub(crate) fn are_properties(registry: &Registry, segments: &[Text]) -> bool
    ensures { result ≡ list_all (is_property registry.now) segments.now }
{
    segments
        .iter()
        .all(|segment| is_property(registry, segment))
}

fn check_pair(
    registry: &Registry,
    word: &Text,
    feature: &Text,
    value: &Text,
) -> Result<(), RequestFault>
    ensures ok { OnOk result (pair_fault registry.now word.now (feature.now, value.now) ≡ None) }
    ensures cause { IfErr result (IsBy (pair_fault registry.now word.now (feature.now, value.now))) }
{
    match registry.find(feature.as_str()) {
        None => Err(RequestFault::UnknownWord { word: word.copy()? }),
        Some(known) => {
            if known.is(Attribute::Free) || known.lists(value.as_str()) {
                Ok(())
            } else {
                Err(RequestFault::UnknownValue { word: word.copy()? })
            }
        }
    }
}

/// Adds a property of a word, unless it is none.
fn take_pair(
    made: &mut Vec<(Text, Text)>,
    registry: &Registry,
    word: &Text,
    feature: &Text,
    value: &Text,
) -> Result<(), RequestFault>
    ensures value { OnOk result (made.new.items ≡ made.old.items ++ (feature.now, value.now) ∷ []) }
    ensures ok { OnOk result (pair_fault registry.now word.now (feature.now, value.now) ≡ None) }
    ensures cause { IfErr result (IsBy (pair_fault registry.now word.now (feature.now, value.now))) }
{
    check_pair(registry, word, feature, value)?;
    made.push(pair_with(feature, value)?)?;
    Ok(())
}

fn named_pairs(
    alloc: Global,
    registry: &Registry,
    word: &Text,
    feature: &Text,
    values: &[Text],
) -> Result<Vec<(Text, Text)>, RequestFault>
    ensures value { IfOk result (λ made. made.items ≡ map (λ value. (feature.now, value)) values.now) }
    ensures ok { OnOk result (first_of (pair_fault registry.now word.now) (map (λ value. (feature.now, value)) values.now) ≡ None) }
    ensures cause { IfErr result (IsBy (first_of (pair_fault registry.now word.now) (map (λ value. (feature.now, value)) values.now))) }
{
    let mut made = Vec::new(alloc);
    for value in values {
        take_pair(&mut made, registry, word, feature, value)?;
    }
    Ok(made)
}

/// The feature of an implicit value; takes no memory.
pub fn implicit_feature<'a>(registry: &'a Registry, value: &Text) -> Option<&'a Text>
    ensures { option_copied result ≡ implicit_of registry.now value.now }
{
    match registry.implicit_of(value.as_str()) {
        None => None,
        Some(name) => match registry.find(name) {
            None => None,
            Some(feature) => Some(&feature.name),
        },
    }
}

/// Adds an implicit value with its feature; another value adds nothing.
fn take_implicit(
    made: &mut Vec<(Text, Text)>,
    registry: &Registry,
    word: &Text,
    value: &Text,
) -> Result<(), RequestFault>
    ensures value { OnOk result (made.new.items ≡ made.old.items ++ option_to_list (implicit_pair registry.now value.now)) }
    ensures ok { OnOk result (first_of (pair_fault registry.now word.now) (option_to_list (implicit_pair registry.now value.now)) ≡ None) }
    ensures cause { IfErr result (IsBy (first_of (pair_fault registry.now word.now) (option_to_list (implicit_pair registry.now value.now)))) }
{
    match implicit_feature(registry, value) {
        None => Ok(()),
        Some(feature) => take_pair(made, registry, word, feature, value),
    }
}

fn implicit_pairs(
    alloc: Global,
    registry: &Registry,
    word: &Text,
    values: &[Text],
) -> Result<Vec<(Text, Text)>, RequestFault>
    ensures value { IfOk result (λ made. made.items ≡ filter_map (implicit_pair registry.now) values.now) }
    ensures ok { OnOk result (first_of (pair_fault registry.now word.now) (filter_map (implicit_pair registry.now) values.now) ≡ None) }
    ensures cause { IfErr result (IsBy (first_of (pair_fault registry.now word.now) (filter_map (implicit_pair registry.now) values.now))) }
{
    let mut made = Vec::new(alloc);
    for value in values {
        take_implicit(&mut made, registry, word, value)?;
    }
    Ok(made)
}

fn segment_pairs(
    alloc: Global,
    registry: &Registry,
    word: &Text,
    segment: &Text,
) -> Result<Vec<(Text, Text)>, RequestFault>
    ensures value { IfOk result (λ made. made.items ≡ segment_pairs registry.now segment.now) }
    ensures ok { OnOk result (segment_fault registry.now word.now segment.now ≡ None) }
    ensures cause { IfErr result (IsBy (segment_fault registry.now word.now segment.now)) }
{
    match halves(segment) {
        Some((feature, values)) => {
            let feature = Text::new(alloc, feature)?;
            let values = commas(alloc, values)?;
            named_pairs(alloc, registry, word, &feature, values.as_slice())
        }
        None => {
            let values = commas(alloc, segment.as_str())?;
            implicit_pairs(alloc, registry, word, values.as_slice())
        }
    }
}

/// The properties of each segment of a word, or the first that is none.
pub(crate) fn read_segments(
    alloc: Global,
    registry: &Registry,
    word: &Text,
    segments: &[Text],
) -> Result<Vec<Vec<(Text, Text)>>, RequestFault>
    ensures value { IfOk result (λ made. map (λ pairs. pairs.items) made.items ≡ map (segment_pairs registry.now) segments.now) }
    ensures ok { OnOk result (first_of (segment_fault registry.now word.now) segments.now ≡ None) }
    ensures cause { IfErr result (IsBy (first_of (segment_fault registry.now word.now) segments.now)) }
{
    let mut made = Vec::new(alloc);
    for segment in segments {
        made.push(segment_pairs(alloc, registry, word, segment)?)?;
    }
    Ok(made)
}
