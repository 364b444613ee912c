//! The references in property texts.
ghost use Rattle.std.specs.Prelude.{◌≡◌, [], ◌∷◌, ◌++◌, option_map, IfSome, IfOk, OnOk};
ghost use Rattle.b2_base.specs.Bytes.{HasNoZero};
ghost use Rattle.b2_property_texts.specs.Cuts.{named_pair, AreClean};
ghost use Rattle.b2_declaring_calls.specs.References.{is_dependency, property_in, dependency_in, dependencies, reading_of, list_dependencies};

use crate::declaration::{ListName, PropertyList};
use b2_base::fault::OutOfMemory;
use b2_base::text::Text;
use b2_base::text_list::TextList;
use b2_property_texts::cuts::{cut_at, named_pair, pair_after};
use std::alloc::Global;

/// How the texts of a list are read.
#[derive(Clone, Copy)]
pub(crate) enum TextKind {
    /// Each is a property.
    Property,
    /// Each is a property, which may stand after conditions.
    Requirement,
}

fn is_dependency(feature: &str) -> bool
    ensures { result ≡ is_dependency feature.now }
{
    feature == "library" || feature == "source" || feature == "dependency" || feature == "use"
}

/// The feature and the value of the property in a text; takes no memory.
fn pair_in(reading: TextKind, text: &str) -> Option<(&str, &str)>
    requires { HasNoZero text.now }
    ensures named { option_map (λ parts. (parts.0.now, parts.1.now)) result ≡ named_pair (property_in reading text.now) }
    ensures clean { IfSome result (λ parts. AreClean (parts.0.now, parts.1.now)) }
{
    match reading {
        TextKind::Property => named_pair(text),
        TextKind::Requirement => match cut_at(text, ":<") {
            None => named_pair(text),
            Some((_conditions, property)) => pair_after(property),
        },
    }
}

/// The value of the property in a text, where it is a dependency; takes no memory.
fn dependency_in(reading: TextKind, text: &str) -> Option<&str>
    requires { HasNoZero text.now }
    ensures value { option_map (λ value. value.now) result ≡ dependency_in reading text.now }
    ensures clean { IfSome result (λ value. HasNoZero value.now) }
{
    let (feature, value) = pair_in(reading, text)?;
    if is_dependency(feature) {
        Some(value)
    } else {
        None
    }
}

/// Adds the value of the property in a text, where it is a dependency.
fn push_dependency(
    alloc: Global,
    found: &mut TextList,
    reading: TextKind,
    text: &Text,
) -> Result<(), OutOfMemory>
    ensures { OnOk result (found.new ≡ found.old ++ dependencies reading (text.now ∷ [])) }
{
    match dependency_in(reading, text.as_str()) {
        None => Ok(()),
        Some(value) => found.push(Text::new(alloc, value)?),
    }
}

/// Adds the values of the dependency properties in some texts.
pub(crate) fn push_dependencies(
    alloc: Global,
    found: &mut TextList,
    reading: TextKind,
    texts: &[Text],
) -> Result<(), OutOfMemory>
    ensures { OnOk result (found.new ≡ found.old ++ dependencies reading texts.now) }
{
    for text in texts {
        push_dependency(alloc, found, reading, text)?;
    }
    Ok(())
}

/// How the texts of a property list are read.
fn reading_of(name: ListName) -> TextKind
    ensures { result ≡ reading_of name }
{
    match name {
        ListName::DefaultBuild => TextKind::Property,
        ListName::Requirements | ListName::Usage => TextKind::Requirement,
    }
}

/// Adds the values of the dependency properties in a property list.
fn push_list_dependencies(
    alloc: Global,
    found: &mut TextList,
    list: &PropertyList,
) -> Result<(), OutOfMemory>
    ensures { OnOk result (found.new ≡ found.old ++ list_dependencies (list.now ∷ [])) }
{
    push_dependencies(alloc, found, reading_of(list.name), list.texts.as_slice())
}

/// The values of the dependency properties in property lists, in order.
pub(crate) fn list_dependencies(
    alloc: Global,
    lists: &[PropertyList],
) -> Result<TextList, OutOfMemory>
    ensures { IfOk result (λ found. found ≡ list_dependencies lists.now) }
{
    let mut found = TextList::new(alloc);
    for list in lists {
        push_list_dependencies(alloc, &mut found, list)?;
    }
    Ok(found)
}
