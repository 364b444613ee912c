//! A feature.
ghost use Rattle.std.specs.Prelude.{◌≡◌, IfOk, OnOk, OnErr, find};
ghost use Rattle.std.specs.Option.{option_copied};
ghost use Rattle.std.specs.Str.{bytes_eq};
ghost use Rattle.b2_features.specs.Attributes.{has};
ghost use Rattle.b2_features.specs.Table.{seen, lists, declared, default_value, parts_of, with_parts};

use crate::attribute::Attribute;
use b2_base::fault::OutOfMemory;
use b2_base::text::Text;
use b2_base::text_list::{TextList, copy_texts};
use std::alloc::Global;

/// A declared feature. `values` and `attributes` stand in order of declaration, `parts` has the components of each composed
/// value, each a feature and a value, in order of composing.
pub struct Feature {
    pub name: Text,
    pub values: TextList,
    pub attributes: TextList,
    pub parts: Vec<(Text, Vec<(Text, Text)>)>,
}

/// By hand, so that dropping a feature is one call: a derived drop takes it apart wherever one is dropped.
impl Drop for Feature {
    fn drop(self) {
        let Feature {
            name,
            values,
            attributes,
            parts,
        } = self;
        drop(name);
        drop(values);
        drop(attributes);
        drop(parts);
    }
}

/// The same pairs, in order.
pub fn copy_pairs(alloc: Global, pairs: &[(Text, Text)]) -> Result<Vec<(Text, Text)>, OutOfMemory>
    ensures { IfOk result (λ made. made.items ≡ pairs.now) }
{
    let mut made = Vec::new(alloc);
    for pair in pairs {
        made.push((pair.0.copy()?, pair.1.copy()?))?;
    }
    Ok(made)
}

impl Feature {
    /// What a call declares: nothing is composed yet.
    pub(crate) fn new(
        alloc: Global,
        name: Text,
        values: &[Text],
        attributes: &[Text],
    ) -> Result<Feature, OutOfMemory>
        ensures { IfOk result (λ made. seen made ≡ declared name values.now attributes.now) }
    {
        let values = copy_texts(alloc, values)?;
        let attributes = copy_texts(alloc, attributes)?;
        Ok(Feature {
            name,
            values,
            attributes,
            parts: Vec::new(alloc),
        })
    }

    /// Whether the feature was declared with an attribute; takes no memory.
    pub fn is(&self, attribute: Attribute) -> bool
        ensures { result ≡ has attribute self.now.attributes }
    {
        attribute.stands_in(self.attributes.as_slice())
    }

    /// Whether a value is among the declared ones; takes no memory.
    pub fn lists(&self, value: &str) -> bool
        ensures { result ≡ lists (seen self.now) value.now }
    {
        self.values
            .as_slice()
            .iter()
            .any(|listed| listed.as_str() == value)
    }

    /// The default: the first value, but none where the feature is free or optional. Takes no memory.
    pub fn default_value(&self) -> Option<&Text>
        ensures { option_copied result ≡ default_value (seen self.now) }
    {
        if self.is(Attribute::Free) || self.is(Attribute::Optional) {
            None
        } else {
            self.values.as_slice().first()
        }
    }

    /// The components of a value, where it is composed; takes no memory.
    pub fn parts_of(&self, value: &str) -> Option<&[(Text, Text)]>
        ensures { option_copied result ≡ parts_of (seen self.now) value.now }
    {
        let entry = self.entry_of(value)?;
        Some(entry.1.as_slice())
    }

    fn entry_of(&self, value: &str) -> Option<&(Text, Vec<(Text, Text)>)>
        ensures { option_copied result ≡ find (λ entry. bytes_eq entry.0 value.now) self.now.parts.items }
    {
        self.parts.iter().find(|entry| entry.0.as_str() == value)
    }

    /// Adds the components of a value. After an error the feature is as before.
    pub(crate) fn add_parts(
        &mut self,
        value: Text,
        parts: Vec<(Text, Text)>,
    ) -> Result<(), OutOfMemory>
        ensures ok { OnOk result (seen self.new ≡ with_parts (seen self.old) value parts.items) }
        ensures err { OnErr result (seen self.new ≡ seen self.old) }
    {
        self.parts.push((value, parts))?;
        Ok(())
    }
}
