//! How large a list of texts may be.
ghost use Rattle.std.specs.Prelude.{◌≡◌, ◌⊎◌, ℕ, ◌+◌, ◌<◌, ◌≤◌, nat_lt, List, ◌++◌, ◌∷◌, [], Result, Ok, Err, OnOk, OnErr, length, if◌then◌else◌};
ghost use Rattle.b2_base.specs.declared.expand_fault.ExpandFault.TheVariants as faults;
ghost use Rattle.jam_expand.specs.Limits.{limit, within, IsGivenBy, IsLeftBy};

use b2_base::expand_fault::ExpandFault;
use b2_base::fault::OutOfMemory;
use b2_base::text::Text;
use b2_base::text_list::TextList;
use std::alloc::Global;
use std::marker::Model;

/// The most that the bytes and the elements of a list may be together.
pub const LIMIT: u64 = 16_777_216;

/// The sum with one more text of this length.
pub fn longer(sum: u64, len: usize) -> Result<u64, ExpandFault>
    requires { sum ≤ limit }
    ensures { IsGivenBy result (if nat_lt limit (sum + (len + 1)) then Err (faults.TooLarge (sum + (len + 1))) else Ok (sum + (len + 1))) }
{
    let Some(sum) = (len as u64).checked_add(sum + 1) else {
        return Err(ExpandFault::OutOfMemory);
    };
    if sum > LIMIT {
        return Err(ExpandFault::TooLarge { bytes: sum });
    }
    Ok(sum)
}

/// A list of texts that is not too large.
pub struct LimitedList {
    texts: TextList,
    sum: u64,
}

/// By hand, so that dropping one is one call.
impl Drop for LimitedList {
    fn drop(self) {
        let LimitedList { texts, sum: _ } = self;
        drop(texts);
    }
}

impl Model for LimitedList {
    ghost use Rattle.std.specs.Prelude.{ℕ, List};
    ghost use Rattle.jam_expand.specs.Limits.{IsWithin};

    ghost Value = { List (List ℕ) };

    ghost view = { λ gathered. gathered.texts };

    ghost invariant = { λ gathered. IsWithin gathered.texts gathered.sum };
}

impl LimitedList {
    /// The empty list.
    pub fn new(alloc: Global) -> LimitedList
        ensures { result ≡ [] }
    {
        LimitedList {
            texts: TextList::new(alloc),
            sum: 0,
        }
    }

    /// Makes room for so many texts more, which are then added without memory.
    pub fn reserve(&mut self, more: usize) -> Result<(), OutOfMemory>
        ensures { self.new ≡ self.old }
    {
        self.texts.reserve(more)
    }

    /// Adds a text, unless the list is too large with it; after an error the list is as before.
    pub fn push(&mut self, text: Text) -> Result<(), ExpandFault>
        ensures given { IsLeftBy result self.new (within (self.old ++ text ∷ [])) }
        ensures ok { OnOk result (self.new ≡ self.old ++ text ∷ []) }
        ensures err { OnErr result (self.new ≡ self.old) }
    {
        let sum = longer(self.sum, text.as_str().len())?;
        self.texts.push(text)?;
        self.sum = sum;
        Ok(())
    }

    /// The fault of the list with one more text, whose length is above the limit.
    pub fn fault_with(&self, len: u64) -> ExpandFault
        requires { limit < len }
        ensures { (text : List ℕ) → len ≡ length text → (result ≡ faults.OutOfMemory) ⊎ (within (self.now ++ text ∷ []) ≡ Err result) }
    {
        match len.checked_add(self.sum + 1) {
            None => ExpandFault::OutOfMemory,
            Some(bytes) => ExpandFault::TooLarge { bytes },
        }
    }

    /// The texts in order.
    pub fn as_slice(&self) -> &[Text]
        ensures value { result.now ≡ self.now }
        ensures within { within self.now ≡ Ok self.now }
    {
        self.texts.as_slice()
    }

    /// The texts in order; takes no memory.
    pub fn into_list(self) -> TextList
        ensures value { result ≡ self }
        ensures within { within self ≡ Ok self }
    {
        let LimitedList { texts, sum: _ } = self;
        texts
    }
}
