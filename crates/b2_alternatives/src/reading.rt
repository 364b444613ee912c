//! The texts that the rule of an indirect requirement returned.
ghost use Rattle.std.specs.Prelude.{◌≡◌, is_some, codes, IfOk};
ghost use Rattle.b2_property_texts.specs.Cuts.{cut_at};
ghost use Rattle.b2_alternatives.specs.Choosing.{answered_pair, answered};

use b2_base::fault::OutOfMemory;
use b2_base::path::Path;
use b2_base::text::Text;
use b2_declared::whole::Declared;
use b2_features::fault::FeatureFault;
use b2_property_texts::reading::read_property;
use b2_props::pair_list::PairList;
use std::alloc::Global;

/// Texts that a rule returned, as properties, or the first of them that is none.
#[derive(Drop)]
pub enum ReturnedProperties {
    Properties(PairList),
    Bad(Text),
}

/// Whether a text has conditions.
fn is_conditional(text: &Text) -> bool
    ensures { result ≡ is_some (cut_at (codes ":<") text.now) }
{
    text.as_str().split_once(":<").is_some()
}

/// A text that a rule returned as a property, in the project of a directory; one with conditions is none.
fn answered_pair(
    alloc: Global,
    declared: &Declared,
    dir: &Path,
    text: &Text,
) -> Result<Option<(Text, Text)>, OutOfMemory>
    ensures { IfOk result (λ property. property ≡ answered_pair declared.now dir.now text.now) }
{
    if is_conditional(text) {
        return Ok(None);
    }
    match read_property(alloc, &declared.registry, dir, text) {
        Ok(property) => Ok(Some(property)),
        Err(FeatureFault::OutOfMemory) => Err(OutOfMemory),
        Err(_) => Ok(None),
    }
}

/// Texts that a rule returned, as properties in the project of a directory, up to the first that is none.
pub(crate) fn answered(
    alloc: Global,
    declared: &Declared,
    dir: &Path,
    texts: &[Text],
) -> Result<ReturnedProperties, OutOfMemory>
    ensures { IfOk result (λ reading. reading ≡ answered declared.now dir.now texts.now) }
{
    let mut made = PairList::new(alloc);
    for text in texts {
        match answered_pair(alloc, declared, dir, text)? {
            Some((feature, value)) => made.push(feature, value)?,
            None => return Ok(ReturnedProperties::Bad(text.copy()?)),
        }
    }
    Ok(ReturnedProperties::Properties(made))
}
