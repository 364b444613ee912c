//! What a text within a part stands for.
ghost use Rattle.std.specs.Prelude.{◌++◌, ◌∷◌, ◌<◌, [], Ok, map};
ghost use Rattle.b2_base.specs.Results.{and_then};
ghost use Rattle.jam_expand.specs.Limits.{within, IsGivenBy, IsLeftBy};
ghost use Rattle.jam_expand.specs.Modifiers.{changed, edited, glued, glued_text};
ghost use Rattle.jam_expand.specs.Values.{values_of, values_of_all};

use crate::change::changed;
use crate::cut::split_before;
use crate::glue::glue_texts;
use crate::index::selected;
use crate::limit::{LIMIT, LimitedList};
use crate::modifiers::Modifiers;
use crate::reference::read_reference;
use b2_base::expand_fault::ExpandFault;
use b2_base::look::Look;
use b2_base::text::Text;
use b2_base::text_list::TextList;
use std::alloc::Global;

/// Adds what the modifiers make of each text.
fn add_each(
    alloc: Global,
    gathered: &mut LimitedList,
    modifiers: &Modifiers,
    texts: &[Text],
) -> Result<(), ExpandFault>
    ensures { IsLeftBy result gathered.new (within (gathered.old ++ map (changed modifiers.now) texts.now)) }
{
    let _small = gathered.as_slice();
    for text in texts {
        gathered.push(changed(alloc, modifiers, text)?)?;
    }
    Ok(())
}

/// Adds what the modifiers make of the texts with this glue between them.
fn add_glued(
    alloc: Global,
    gathered: &mut LimitedList,
    modifiers: &Modifiers,
    glue: &Text,
    texts: &[Text],
) -> Result<(), ExpandFault>
    ensures { IsLeftBy result gathered.new (within (gathered.old ++ glued_text glue.now (map (changed modifiers.now) texts.now) ∷ [])) }
{
    let held = glue_texts(alloc, modifiers, glue, texts)?;
    if held.len > LIMIT {
        return Err(gathered.fault_with(held.len));
    }
    gathered.push(Text::from_string(held.text))
}

/// Adds what the modifiers make of the texts: each of them, or all as one where they are joined.
fn add_all(
    alloc: Global,
    gathered: &mut LimitedList,
    modifiers: &Modifiers,
    texts: &[Text],
) -> Result<(), ExpandFault>
    ensures { IsLeftBy result gathered.new (within (gathered.old ++ glued modifiers.now.glue (map (changed modifiers.now) texts.now))) }
{
    let _small = gathered.as_slice();
    match &modifiers.glue {
        None => add_each(alloc, gathered, modifiers, texts),
        Some(_) if texts.is_empty() => Ok(()),
        Some(glue) => add_glued(alloc, gathered, modifiers, glue, texts),
    }
}

/// Adds what the modifiers make of a list: `E`, then each element, then `J`.
fn add_edited(
    alloc: Global,
    gathered: &mut LimitedList,
    modifiers: &Modifiers,
    texts: &[Text],
) -> Result<(), ExpandFault>
    ensures { IsLeftBy result gathered.new (within (gathered.old ++ edited modifiers.now texts.now)) }
{
    match &modifiers.empty {
        Some(value) if texts.is_empty() => gathered.push(changed(alloc, modifiers, value)?),
        _ => add_all(alloc, gathered, modifiers, texts),
    }
}

/// Adds the values of a text: those of its name, after the index and the modifiers.
fn add_values<L: Look>(
    alloc: Global,
    gathered: &mut LimitedList,
    text: &Text,
    look: &L,
) -> Result<(), ExpandFault>
    ensures { IsLeftBy result gathered.new (and_then (λ values. within (gathered.old ++ values)) (values_of (L.answer look.now) text.now)) }
{
    let (name, rest) = split_before(text.as_str(), b"[:");
    let reference = read_reference(alloc, rest)?;
    let texts = selected(look.look(name), reference.index);
    add_edited(alloc, gathered, &reference.modifiers, texts)
}

/// The values of all texts, joined to one list that is not too large.
pub fn values_of_all<L: Look>(
    alloc: Global,
    texts: &[Text],
    look: &L,
) -> Result<TextList, ExpandFault>
    ensures { IsGivenBy result (values_of_all (L.answer look.now) texts.now) }
{
    let mut gathered = LimitedList::new(alloc);
    for text in texts {
        add_values(alloc, &mut gathered, text, look)?;
    }
    Ok(gathered.into_list())
}
