//! What a set hands on, and how it shows in the paths of what is built.
ghost use Rattle.std.specs.Prelude.{◌≡◌, IfOk, map};
ghost use Rattle.std.specs.List.{join_with_byte};
ghost use Rattle.std.specs.FinMap as map;
ghost use Rattle.std.specs.Option.{option_copied, option_or};
ghost use Rattle.b2_features.specs.Table.{default_of};
ghost use Rattle.b2_props.specs.Sets.{IsSet};
ghost use Rattle.b2_props.specs.Elements.{propagated, shows_beside, shows, element, elements, dir_text};

use crate::draft::Draft;
use crate::lookups::is_with;
use crate::pair_list::copy_pair;
use crate::props::Props;
use b2_base::fault::OutOfMemory;
use b2_base::text::Text;
use b2_features::attribute::Attribute;
use b2_features::registry::Registry;
use std::alloc::Global;

/// The pairs of features that are propagated, in order.
pub fn propagated(alloc: Global, registry: &Registry, set: &Props) -> Result<Props, OutOfMemory>
    requires { IsSet registry.now set.now }
    ensures value { IfOk result (λ made. made ≡ propagated registry.now set.now) }
    ensures set { IfOk result (λ made. IsSet registry.now made) }
{
    let mut pairs = Vec::new(alloc);
    for pair in set.pairs() {
        if is_with(registry, Attribute::Propagated, pair.0.as_str()) {
            pairs.push(copy_pair(pair)?)?;
        }
    }
    Props::from_vec(alloc, pairs)
}

/// The usual value of a feature: the one that is given, else the default.
fn usual<'a>(registry: &'a Registry, given: &'a Draft, feature: &Text) -> Option<&'a str>
    ensures { option_copied result ≡ option_or (map.get given.now.values feature.now) (default_of registry.now feature.now) }
{
    match given.value(feature) {
        Some(value) => Some(value.as_str()),
        None => registry.default_of(feature.as_str()),
    }
}

fn shows(registry: &Registry, given: &Draft, pair: &(Text, Text)) -> bool
    ensures { result ≡ shows_beside registry.now (option_or (map.get given.now.values pair.now.0) (default_of registry.now pair.now.0)) pair.now }
{
    let feature = pair.0.as_str();
    if is_with(registry, Attribute::Free, feature)
        || is_with(registry, Attribute::Incidental, feature)
    {
        return false;
    }
    if is_with(registry, Attribute::Symmetric, feature) {
        return true;
    }
    match usual(registry, given, &pair.0) {
        Some(value) => pair.1.as_str() != value,
        None => true,
    }
}

fn element(alloc: Global, registry: &Registry, pair: &(Text, Text)) -> Result<Text, OutOfMemory>
    ensures { IfOk result (λ made. made ≡ element registry.now pair.now) }
{
    if is_with(registry, Attribute::Implicit, pair.0.as_str()) {
        return pair.1.copy();
    }
    let feature = pair.0.as_str();
    let value = pair.1.as_str();
    let mut text = String::with_capacity(
        alloc,
        feature.len().saturating_add(value.len()).saturating_add(1),
    )?;
    text.push_str(feature)?;
    text.push('-')?;
    text.push_str(value)?;
    Ok(Text::from_string(text))
}

fn elements(alloc: Global, registry: &Registry, set: &Props) -> Result<Vec<Text>, OutOfMemory>
    ensures { IfOk result (λ made. made.items ≡ elements registry.now set.now) }
{
    let mut given = Draft::new(alloc);
    given.add_components(registry, set.pairs())?;
    let mut found = Vec::new(alloc);
    found.reserve_exact(set.pairs().len())?;
    for pair in set.pairs() {
        if shows(registry, &given, pair) {
            found.push(element(alloc, registry, pair)?)?;
        }
    }
    Ok(found)
}

/// The room that pieces with a slash after each take.
fn room_for(pieces: &[Text]) -> usize {
    let mut room: usize = 0;
    for piece in pieces {
        room = room.saturating_add(piece.as_str().len()).saturating_add(1);
    }
    room
}

fn join(alloc: Global, pieces: &[Text]) -> Result<Text, OutOfMemory>
    ensures { IfOk result (λ made. made ≡ join_with_byte 47 pieces.now) }
{
    let mut text = String::with_capacity(alloc, room_for(pieces))?;
    for (i, piece) in pieces.iter().enumerate() {
        if i > 0 {
            text.push('/')?;
        }
        text.push_str(piece.as_str())?;
    }
    Ok(Text::from_string(text))
}

/// The part of a path that tells a set: an element for each feature that shows, in order, with slashes between them. Free
/// and incidental features never show, symmetric ones always, and any other where its value is not the one that the
/// composites of the set give, or, where they give none, the default; so an optional feature, which has no default, shows
/// with its first value too. An element is the value of an implicit feature, else the feature, a dash and the value.
pub fn dir_of(alloc: Global, registry: &Registry, set: &Props) -> Result<Text, OutOfMemory>
    requires { IsSet registry.now set.now }
    ensures { IfOk result (λ made. made ≡ dir_text registry.now set.now) }
{
    let found = elements(alloc, registry, set)?;
    join(alloc, found.as_slice())
}
