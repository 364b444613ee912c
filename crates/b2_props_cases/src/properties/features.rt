//! Commands that ask the table, its features and the attributes.
use crate::pairs::lent_pair;
use crate::properties::shown::{declared, declared_or_none, pairs_or_none, place_or_none};
use crate::shown::{text_or_none, truth};
use b2_features::attribute::{Attribute, is_attribute_word};
use b2_features::feature::Feature;
use b2_features::registry::Registry;
use std::alloc::Global;
use transcript::answer::Answer;
use transcript::case_fault::CaseFault;
use transcript::command::{Command, Word};
use transcript::words::{both, first, no_words, number, only, texts};

static ATTRIBUTES: [Attribute; 9] = [
    Attribute::Implicit,
    Attribute::Composite,
    Attribute::Free,
    Attribute::Optional,
    Attribute::Propagated,
    Attribute::Symmetric,
    Attribute::Incidental,
    Attribute::Path,
    Attribute::Dependency,
];

fn attribute(name: &str) -> Result<Attribute, CaseFault> {
    for attribute in &ATTRIBUTES {
        if attribute.name() == name {
            return Ok(*attribute);
        }
    }
    Err(CaseFault::WrongWords)
}

fn named<'a>(registry: &'a Registry, name: &str) -> Result<&'a Feature, CaseFault> {
    match registry.find(name) {
        Some(feature) => Ok(feature),
        None => Err(CaseFault::WrongWords),
    }
}

fn at(alloc: Global, registry: &Registry, words: &[Word]) -> Result<Answer, CaseFault> {
    let place = number(only(words)?)? as usize;
    if place < registry.count() {
        declared(alloc, registry.at(place))
    } else {
        Err(CaseFault::WrongWords)
    }
}

fn default_value(alloc: Global, feature: &Feature) -> Result<Answer, CaseFault> {
    match feature.default_value() {
        Some(value) => Answer::line(alloc, value.as_str()),
        None => Answer::line(alloc, "none"),
    }
}

fn parts_of(alloc: Global, registry: &Registry, words: &[Word]) -> Result<Answer, CaseFault> {
    let pair = lent_pair(alloc, only(words)?)?;
    match registry.find(pair.0.as_str()) {
        Some(feature) => pairs_or_none(alloc, feature.parts_of(pair.1.as_str())),
        None => Err(CaseFault::WrongWords),
    }
}

fn stands_in(alloc: Global, words: &[Word]) -> Result<Answer, CaseFault> {
    let (name, words) = first(words)?;
    let attribute = attribute(name)?;
    let words = texts(alloc, words)?;
    truth(alloc, attribute.stands_in(words.as_slice()))
}

fn attribute_command(
    alloc: Global,
    registry: &Registry,
    command: &Command,
) -> Result<Answer, CaseFault> {
    let words = command.words();
    match command.name() {
        "is" => {
            let (name, word) = both(words)?;
            truth(alloc, named(registry, name)?.is(attribute(word)?))
        }
        "name" => Answer::line(alloc, attribute(only(words)?)?.name()),
        "stands_in" => stands_in(alloc, words),
        "is_attribute_word" => truth(alloc, is_attribute_word(only(words)?)),
        _ => Err(CaseFault::UnknownCommand),
    }
}

/// Asks for values of a feature, or an attribute.
fn value_command(
    alloc: Global,
    registry: &Registry,
    command: &Command,
) -> Result<Answer, CaseFault> {
    let words = command.words();
    match command.name() {
        "implicit_of" => text_or_none(alloc, registry.implicit_of(only(words)?)),
        "default_of" => text_or_none(alloc, registry.default_of(only(words)?)),
        "lists" => {
            let (name, value) = both(words)?;
            truth(alloc, named(registry, name)?.lists(value))
        }
        "default_value" => default_value(alloc, named(registry, only(words)?)?),
        "parts_of" => parts_of(alloc, registry, words),
        _ => attribute_command(alloc, registry, command),
    }
}

/// Asks the table, a feature or an attribute.
pub fn feature_command(
    alloc: Global,
    registry: &Registry,
    command: &Command,
) -> Result<Answer, CaseFault> {
    let words = command.words();
    match command.name() {
        "count" => {
            no_words(words)?;
            Answer::number(alloc, registry.count() as u64)
        }
        "at" => at(alloc, registry, words),
        "place_of" => place_or_none(alloc, registry.place_of(only(words)?)),
        "find" => declared_or_none(alloc, registry.find(only(words)?)),
        _ => value_command(alloc, registry, command),
    }
}
