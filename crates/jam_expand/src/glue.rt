//! Texts with glue between them.
ghost use Rattle.std.specs.Prelude.{ℕ, List, [], ◌++◌, map, IfOk, OnOk};
ghost use Rattle.jam_expand.specs.Glue.{IsGlued};
ghost use Rattle.jam_expand.specs.Modifiers.{changed, glued_text};

use crate::change::changed;
use crate::limit::LIMIT;
use crate::modifiers::Modifiers;
use b2_base::fault::OutOfMemory;
use b2_base::text::Text;
use std::alloc::Global;

/// A text that is put together. Past the limit only its length is kept.
#[derive(Drop)]
pub struct GluedText {
    /// The text, as long as it is not above the limit.
    pub text: String,
    /// The length of the whole text.
    pub len: u64,
}

impl GluedText {
    fn new(alloc: Global) -> GluedText
        ensures { IsGlued result [] }
    {
        GluedText {
            text: String::new(alloc),
            len: 0,
        }
    }

    /// Adds a text at the end.
    fn append(&mut self, more: &Text) -> Result<(), OutOfMemory>
        ensures { OnOk result ((text : List ℕ) → IsGlued self.old text → IsGlued self.new (text ++ more.now)) }
    {
        let more = more.as_str();
        let Some(len) = self.len.checked_add(more.len() as u64) else {
            return Err(OutOfMemory);
        };
        if len <= LIMIT {
            self.text.push_str(more)?;
        }
        self.len = len;
        Ok(())
    }
}

/// The texts, changed by the modifiers, with glue between them.
pub fn glue_texts(
    alloc: Global,
    modifiers: &Modifiers,
    glue: &Text,
    texts: &[Text],
) -> Result<GluedText, OutOfMemory>
    ensures { IfOk result (λ held. IsGlued held (glued_text glue.now (map (changed modifiers.now) texts.now))) }
{
    let mut held = GluedText::new(alloc);
    for (place, text) in texts.iter().enumerate() {
        if place > 0 {
            held.append(glue)?;
        }
        held.append(&changed(alloc, modifiers, text)?)?;
    }
    Ok(held)
}
