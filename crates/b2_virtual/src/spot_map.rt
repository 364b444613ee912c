//! A map from spots, in order.
ghost use Rattle.std.specs.Prelude.{◌≡◌, ◌↔◌, ℕ, List, [], ◌⊎◌, true, false, None, Some, IsTrue, IfOk, OnOk, OnErr, if◌then◌else◌};
ghost use Rattle.std.specs.List.{list_any};
ghost use Rattle.std.specs.Str.{bytes_eq};
ghost use Rattle.std.specs.Option.{option_copied};
ghost use Rattle.std.specs.FinMap as map;
ghost use Rattle.b2_base.specs.Bytes.{IsFrontOf};
ghost use Rattle.b2_virtual.specs.Spots.{GoesOn, GoesFurther, ComesBefore, IsFlat, IsSifted, AreOutermost};

use b2_base::fault::OutOfMemory;
use b2_base::text::Text;
use std::alloc::Global;
use std::collections::BTreeMap;
use std::marker::Model;
use std::ops::Bound;

/// A number for each of some texts, seen as a finite map from their bytes. Where no text begins another one, two look-ups
/// tell whether a further text begins one of them, or one of them that text.
pub struct SpotMap {
    numbers: BTreeMap<Text, u32>,
}

/// By hand, so that dropping one is one call.
impl Drop for SpotMap {
    fn drop(self) {
        let SpotMap { numbers } = self;
        drop(numbers);
    }
}

impl Model for SpotMap {
    ghost use Rattle.std.specs.Coded.{coded_ℕ, coded_list};
    ghost use Rattle.std.specs.FinMap as map;
    ghost use Rattle.b2_virtual.specs.Spots.{Numbers};

    ghost Value = { Numbers };

    ghost coded = { map.code (coded_list coded_ℕ) coded_ℕ };

    ghost view = { λ a. map.from_entries a.numbers.entries };
}

/// Whether the one text begins the other.
fn begins(text: &Text, other: &Text) -> bool
    ensures { IsTrue result ↔ IsFrontOf text.now other.now }
{
    let text = text.as_str();
    let other = other.as_str();
    other.starts_with(text)
}

impl SpotMap {
    /// The empty map; takes no memory.
    pub fn new(alloc: Global) -> SpotMap
        ensures { result ≡ map.from_entries [] }
    {
        SpotMap {
            numbers: BTreeMap::new(alloc),
        }
    }

    /// The number of a text; takes no memory.
    pub fn get(&self, text: &Text) -> Option<&u32>
        ensures { option_copied result ≡ map.get self.now text.now }
    {
        self.numbers.get(text)
    }

    /// Whether one of the texts goes on from this one, or is it.
    fn goes_on(&self, text: &Text) -> bool
        ensures { IsTrue result ↔ GoesOn self.now text.now }
    {
        match self.numbers.range(text..).next() {
            None => false,
            Some((key, _number)) => begins(text, key),
        }
    }

    /// Whether one of the texts begins this one, which is none of them.
    fn comes_before(&self, text: &Text) -> bool
        requires flat { IsFlat self.now }
        requires none { map.get self.now text.now ≡ None }
        ensures { IsTrue result ↔ ComesBefore self.now text.now }
    {
        match self.numbers.range(..text).next_back() {
            None => false,
            Some((key, _number)) => begins(key, text),
        }
    }

    /// Whether one of the texts begins this one, or goes on from it, or is it; takes no memory.
    pub fn meets(&self, text: &Text) -> bool
        requires { IsFlat self.now }
        ensures { IsTrue result ↔ (GoesOn self.now text.now ⊎ ComesBefore self.now text.now) }
    {
        self.goes_on(text) || self.comes_before(text)
    }

    /// Whether another one of the texts goes on from this one; takes no memory.
    pub fn goes_further(&self, text: &Text) -> bool
        ensures { IsTrue result ↔ GoesFurther self.now text.now }
    {
        match self
            .numbers
            .range((Bound::Excluded(text), Bound::<&Text>::Unbounded))
            .next()
        {
            None => false,
            Some((key, _number)) => begins(text, key),
        }
    }

    fn insert(&mut self, text: Text, number: u32) -> Result<(), OutOfMemory>
        ensures ok { OnOk result ((q : List ℕ) → map.get self.new q ≡ (if bytes_eq q text then Some number else map.get self.old q)) }
        ensures err { OnErr result (self.new ≡ self.old) }
    {
        let _before = self.numbers.insert(text, number)?;
        Ok(())
    }

    fn remove(&mut self, text: &Text)
        ensures { (q : List ℕ) → map.get self.new q ≡ (if bytes_eq q text.now then None else map.get self.old q) }
    {
        let _before = self.numbers.remove(text);
    }

    fn insert_each(&mut self, texts: &[Text], number: u32) -> Result<(), OutOfMemory>
        ensures ok { OnOk result ((q : List ℕ) → map.get self.new q ≡ (if list_any (bytes_eq q) texts.now then Some number else map.get self.old q)) }
        ensures others { (q : List ℕ) → list_any (bytes_eq q) texts.now ≡ false → map.get self.new q ≡ map.get self.old q }
    {
        for text in texts {
            self.insert(text.copy()?, number)?;
        }
        Ok(())
    }

    /// Takes texts away; takes no memory.
    pub fn remove_all(&mut self, texts: &[Text])
        ensures { (q : List ℕ) → map.get self.new q ≡ (if list_any (bytes_eq q) texts.now then None else map.get self.old q) }
    {
        for text in texts {
            self.remove(text);
        }
    }

    /// Gives texts that are not there a number. After an error the map is as before.
    pub fn insert_all(&mut self, texts: &[Text], number: u32) -> Result<(), OutOfMemory>
        requires { (q : List ℕ) → list_any (bytes_eq q) texts.now ≡ true → map.get self.old q ≡ None }
        ensures ok { OnOk result ((q : List ℕ) → map.get self.new q ≡ (if list_any (bytes_eq q) texts.now then Some number else map.get self.old q)) }
        ensures err { OnErr result (self.new ≡ self.old) }
    {
        match self.insert_each(texts, number) {
            Ok(()) => Ok(()),
            Err(fault) => {
                self.remove_all(texts);
                Err(fault)
            }
        }
    }

    /// Gives a text that is not there a number, unless one of the texts begins it.
    fn insert_outermost(&mut self, text: &Text, number: u32) -> Result<(), OutOfMemory>
        requires flat { IsFlat self.old }
        requires none { map.get self.old text.now ≡ None }
        ensures { OnOk result (IsSifted self.old text.now number self.new) }
    {
        if self.comes_before(text) {
            return Ok(());
        }
        self.insert(text.copy()?, number)?;
        Ok(())
    }

    /// The texts that none of the others begins. In order a text comes before all that go on from it, so one look-up tells
    /// whether a text is one of them.
    pub fn outermost(&self, alloc: Global) -> Result<SpotMap, OutOfMemory>
        ensures { IfOk result (AreOutermost self.now) }
    {
        let mut made = SpotMap::new(alloc);
        for (text, number) in &self.numbers {
            made.insert_outermost(text, *number)?;
        }
        Ok(made)
    }
}
