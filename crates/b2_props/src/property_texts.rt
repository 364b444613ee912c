//! Properties as texts.
ghost use Rattle.std.specs.Prelude.{◌≡◌, map, IfOk};
ghost use Rattle.b2_props.specs.Texts.{property_text};

use b2_base::fault::OutOfMemory;
use b2_base::text::Text;
use b2_base::text_list::TextList;
use std::alloc::Global;

/// A property as a text, `<feature>value`.
fn property_text(alloc: Global, property: &(Text, Text)) -> Result<Text, OutOfMemory>
    ensures { IfOk result (λ text. text ≡ property_text property.now) }
{
    let feature = property.0.as_str();
    let value = property.1.as_str();
    Ok(Text::from_string(format!(in alloc; "<{feature}>{value}")?))
}

/// Properties as texts, in order.
pub fn property_texts(alloc: Global, properties: &[(Text, Text)]) -> Result<TextList, OutOfMemory>
    ensures { IfOk result (λ texts. texts ≡ map property_text properties.now) }
{
    let mut texts = TextList::new(alloc);
    texts.reserve(properties.len())?;
    for property in properties {
        texts.push(property_text(alloc, property)?)?;
    }
    Ok(texts)
}
