//! The lists of a call.
ghost use Rattle.std.specs.Prelude.{◌≡◌, [], ◌∷◌, ◌++◌, IfOk, OnOk, slice_get};
ghost use Rattle.b2_base.specs.Bytes.{HasNoZero};
ghost use Rattle.b2_declaring_calls.specs.Lists.{text_at, listed};

use crate::declaration::{ListName, PropertyList};
use b2_base::fault::OutOfMemory;
use b2_base::list::List;
use b2_base::text::Text;
use b2_base::text_list::{TextList, copy_texts, list_at};
use std::alloc::Global;

/// The first text of the list at a place; of an empty one the empty text. Takes no memory.
pub(crate) fn text_at(lists: &[TextList], place: usize) -> &str
    ensures value { result.now ≡ text_at place lists.now }
    ensures clean { HasNoZero result.now }
{
    match list_at(lists, place) {
        [] => "",
        [text, ..] => text.as_str(),
    }
}

/// The first text of a list, where it has one.
pub(crate) fn first_of(list: &[Text]) -> Result<Option<Text>, OutOfMemory>
    ensures { IfOk result (λ first. first ≡ slice_get list.now 0) }
{
    match list {
        [] => Ok(None),
        [first, ..] => Ok(Some(first.copy()?)),
    }
}

/// Adds a property list with copies of texts.
pub(crate) fn push_list(
    alloc: Global,
    found: &mut List<PropertyList>,
    name: ListName,
    texts: &[Text],
) -> Result<(), OutOfMemory>
    ensures { OnOk result (found.new ≡ found.old ++ listed name texts.now ∷ []) }
{
    let texts = copy_texts(alloc, texts)?;
    found.push(PropertyList { name, texts })
}
