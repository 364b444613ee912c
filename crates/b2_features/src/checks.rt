//! Words that may not stand where they do.
ghost use Rattle.std.specs.Prelude.{◌≡◌, find};
ghost use Rattle.std.specs.List.{list_all};
ghost use Rattle.std.specs.Option.{option_copied};
ghost use Rattle.b2_features.specs.Faults.{is_name_byte, is_name, is_bad_name, is_bad_value, is_bad_attribute, bad_word, is_contradicted};

use crate::attribute::{Attribute, is_attribute_word};
use b2_base::text::Text;

fn is_name_byte(byte: u8) -> bool
    ensures { result ≡ is_name_byte byte }
{
    byte.is_ascii_alphanumeric() || byte == b'.' || byte == b'_' || byte == b'-' || byte == b'+'
}

fn has_name_bytes(word: &str) -> bool
    ensures { result ≡ list_all is_name_byte word.now }
{
    word.as_bytes().iter().all(|byte| is_name_byte(*byte))
}

/// Whether a word may be a name or a value that is not free: one letter, digit, `.`, `_`, `-` or `+`, or more.
fn is_name(word: &str) -> bool
    ensures { result ≡ is_name word.now }
{
    !word.is_empty() && has_name_bytes(word)
}

fn is_bad_name(values: &[Text], attributes: &[Text], name: &Text) -> bool
    ensures { result ≡ is_bad_name values.now attributes.now name.now }
{
    if !is_name(name.as_str()) {
        return true;
    }
    values.is_empty()
        && !(Attribute::Free.stands_in(attributes) || Attribute::Optional.stands_in(attributes))
}

fn is_bad_attribute(is_free: bool, word: &str) -> bool
    ensures { result ≡ is_bad_attribute is_free word.now }
{
    if !is_attribute_word(word) {
        return true;
    }
    if is_free {
        word == "composite"
    } else {
        word == "path" || word == "dependency"
    }
}

fn first_bad_value(is_free: bool, values: &[Text]) -> Option<&Text>
    ensures { option_copied result ≡ find (is_bad_value is_free) values.now }
{
    values
        .iter()
        .find(|value| !is_free && !is_name(value.as_str()))
}

fn first_bad_attribute(is_free: bool, words: &[Text]) -> Option<&Text>
    ensures { option_copied result ≡ find (is_bad_attribute is_free) words.now }
{
    words
        .iter()
        .find(|word| is_bad_attribute(is_free, word.as_str()))
}

/// The first word of a declaration that may not stand where it does; takes no memory.
pub(crate) fn bad_word<'a>(
    name: &'a Text,
    values: &'a [Text],
    attributes: &'a [Text],
) -> Option<&'a Text>
    ensures { option_copied result ≡ bad_word name.now values.now attributes.now }
{
    if is_bad_name(values, attributes, name) {
        return Some(name);
    }
    let is_free = Attribute::Free.stands_in(attributes);
    match first_bad_value(is_free, values) {
        Some(value) => Some(value),
        None => first_bad_attribute(is_free, attributes),
    }
}

/// Whether another of the parts gives the feature of this one another value; takes no memory.
pub(crate) fn contradicted(parts: &[(Text, Text)], part: &(Text, Text)) -> bool
    ensures { result ≡ is_contradicted parts.now part.now }
{
    parts
        .iter()
        .any(|other| other.0 == part.0 && !(other.1 == part.1))
}
