//! The lists of a call of `project`.
ghost use Rattle.std.specs.Prelude.{◌≡◌, [], ◌∷◌, ◌++◌, IfOk, OnOk, option_map, slice_get};
ghost use Rattle.std.specs.List.{filter_map};
ghost use Rattle.b2_base.specs.Bytes.{HasNoZero};
ghost use Rattle.b2_base.specs.Lists.{list_at};
ghost use Rattle.b2_declaring_calls.specs.Attributes.{id_of, has_name, list_name, is_attribute, are_attributes, attribute_lists, property_list, attributes};

use crate::declaration::{Attributes, ListName, PropertyList};
use crate::lists::push_list;
use b2_base::fault::OutOfMemory;
use b2_base::list::List;
use b2_base::rooted::is_rooted;
use b2_base::shape::are_empty;
use b2_base::text::Text;
use b2_base::text_list::{TextList, list_at, rest_of_texts};
use std::alloc::Global;

/// The id of a text, which begins with a slash.
pub(crate) fn id_of(alloc: Global, text: &str) -> Result<Text, OutOfMemory>
    requires { HasNoZero text.now }
    ensures { IfOk result (λ id. id ≡ id_of text.now) }
{
    if is_rooted(text) {
        return Text::new(alloc, text);
    }
    let id = format!(in alloc; "/{text}")?;
    Ok(Text::from_string(id))
}

/// Whether an attribute list has a name, which is its first text.
fn has_name(name: &str, list: &[Text]) -> bool
    ensures { result ≡ has_name name.now list.now }
{
    match list {
        [] => false,
        [first, ..] => first.as_str() == name,
    }
}

/// What the values of an attribute list are, where they are property texts.
fn list_name(list: &[Text]) -> Option<ListName>
    ensures { result ≡ list_name list.now }
{
    if has_name("requirements", list) {
        Some(ListName::Requirements)
    } else if has_name("default-build", list) {
        Some(ListName::DefaultBuild)
    } else if has_name("usage-requirements", list) {
        Some(ListName::Usage)
    } else {
        None
    }
}

fn is_attribute(list: &[Text]) -> bool
    ensures { result ≡ is_attribute list.now }
{
    list_name(list).is_some() || has_name("output-dirs", list)
}

/// Whether each is an attribute list, but for empty ones at the end; takes no memory.
pub(crate) fn are_attributes(lists: &[TextList]) -> bool
    ensures { result ≡ are_attributes lists.now }
{
    match lists {
        [] => true,
        [list, more @ ..] => {
            (is_attribute(list.as_slice()) && are_attributes(more)) || are_empty(lists)
        }
    }
}

/// The attribute lists of a call, which stand after the one with the id.
pub(crate) fn attribute_lists(lists: &[TextList]) -> &[TextList]
    ensures { result.now ≡ attribute_lists lists.now }
{
    match lists {
        [] => lists,
        [_id, more @ ..] => more,
    }
}

/// Adds an attribute list, where its values are property texts.
fn push_attribute(
    alloc: Global,
    found: &mut List<PropertyList>,
    list: &[Text],
) -> Result<(), OutOfMemory>
    ensures { OnOk result (found.new ≡ found.old ++ filter_map property_list (list.now ∷ [])) }
{
    match list_name(list) {
        None => Ok(()),
        Some(name) => push_list(alloc, found, name, rest_of_texts(list)),
    }
}

/// Adds the attribute lists whose values are property texts, in order.
fn push_attributes(
    alloc: Global,
    found: &mut List<PropertyList>,
    lists: &[TextList],
) -> Result<(), OutOfMemory>
    ensures { OnOk result (found.new ≡ found.old ++ filter_map property_list lists.now) }
{
    for list in lists {
        push_attribute(alloc, found, list.as_slice())?;
    }
    Ok(())
}

/// The id that a list gives, where it gives one.
fn id_in(alloc: Global, list: &[Text]) -> Result<Option<Text>, OutOfMemory>
    ensures { IfOk result (λ id. id ≡ option_map id_of (slice_get list.now 0)) }
{
    match list {
        [] => Ok(None),
        [id, ..] => Ok(Some(id_of(alloc, id.as_str())?)),
    }
}

/// What a call of `project` says of its project.
pub(crate) fn attributes(alloc: Global, lists: &[TextList]) -> Result<Attributes, OutOfMemory>
    ensures { IfOk result (λ made. made ≡ attributes lists.now) }
{
    let mut made = Attributes {
        id: id_in(alloc, list_at(lists, 0))?,
        lists: List::new(alloc),
    };
    push_attributes(alloc, &mut made.lists, attribute_lists(lists))?;
    Ok(made)
}
