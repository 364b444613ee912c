//! What follows a name: an index and modifiers.
ghost use Rattle.std.specs.Prelude.{◌≡◌, ◌⊎◌, None, IfOk};
ghost use Rattle.b2_base.specs.Bytes.{HasNoZero};
ghost use Rattle.b2_base.specs.declared.expand_fault.ExpandFault.TheVariants as faults;
ghost use Rattle.jam_expand.specs.Indexes.{after_close, indexed};
ghost use Rattle.jam_expand.specs.Limits.{IsGivenBy};
ghost use Rattle.jam_expand.specs.References.{reference_of, IsIndexedBy, IsClosedBy};

use crate::cut::{after_sign, split_before};
use crate::index::{IndexRange, index_of};
use crate::modifiers::{Modifiers, read_modifiers};
use b2_base::expand_fault::ExpandFault;
use b2_base::text::Text;
use std::alloc::Global;

/// What follows a name.
#[derive(Drop)]
pub struct Reference {
    /// Which elements are selected.
    pub index: Option<IndexRange>,
    /// What is made of them.
    pub modifiers: Modifiers,
}

/// The fault of an index that is not of its form.
fn bad_index(alloc: Global, text: &str) -> ExpandFault
    requires { HasNoZero text.now }
    ensures { (result ≡ faults.OutOfMemory) ⊎ (result ≡ faults.BadIndex text.now) }
{
    match Text::new(alloc, text) {
        Ok(text) => ExpandFault::BadIndex { text },
        Err(_) => ExpandFault::OutOfMemory,
    }
}

/// The text after a `]` that stands first, where it is empty or begins with `:`.
fn after_close(text: &str) -> Option<&str>
    ensures { IsClosedBy result (after_close text.now) }
{
    let after = after_sign(text, b']')?;
    if after.is_empty() || after_sign(after, b':').is_some() {
        Some(after)
    } else {
        None
    }
}

/// The index that stands first, if one does, and the text of the modifiers after it.
fn read_index(alloc: Global, text: &str) -> Result<(Option<IndexRange>, &str), ExpandFault>
    requires { HasNoZero text.now }
    ensures read { IsIndexedBy result (indexed text.now) }
    ensures no_zero { IfOk result (λ found. HasNoZero found.1.now) }
{
    let Some(inside) = after_sign(text, b'[') else {
        return Ok((None, text));
    };
    let (written, rest) = split_before(inside, b"]");
    let Some(after) = after_close(rest) else {
        return Err(bad_index(alloc, written));
    };
    match index_of(written.as_bytes()) {
        None => Err(bad_index(alloc, written)),
        Some(index) => Ok((Some(index), after)),
    }
}

/// The index and the modifiers that follow a name. The index is read first.
pub fn read_reference(alloc: Global, text: &str) -> Result<Reference, ExpandFault>
    requires { HasNoZero text.now }
    ensures { IsGivenBy result (reference_of text.now) }
{
    let (index, rest) = read_index(alloc, text)?;
    let modifiers = read_modifiers(alloc, rest)?;
    Ok(Reference { index, modifiers })
}
