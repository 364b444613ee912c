//! The modifiers of a name.
ghost use Rattle.std.specs.Prelude.{◌≡◌, ◌≢◌, ◌∷◌, ◌⊎◌, Some, None, MatchBool, IfOk};
ghost use Rattle.b2_base.specs.Bytes.{HasNoZero};
ghost use Rattle.b2_base.specs.declared.expand_fault.ExpandFault.TheVariants as faults;
ghost use Rattle.jam_expand.specs.Limits.{IsGivenBy, IsLeftBy};
ghost use Rattle.jam_expand.specs.Modifiers.{no_modifiers, alone, valued, modified, modified_after};
ghost use Rattle.jam_expand.specs.Reading.{IsShorterEnd, IsReadOn};

use crate::cut::{after_sign, first_ascii, split_before};
use b2_base::expand_fault::ExpandFault;
use b2_base::text::Text;
use std::alloc::Global;

/// What a modifier does with a part of a name.
#[derive(Drop)]
pub enum PartChange {
    /// The part stays, unless others are selected.
    Keep,
    /// The part is selected.
    Select,
    /// The part is replaced by a text.
    Replace(Text),
}

/// The modifiers of a name; of repeated ones the last.
#[derive(Drop)]
pub struct Modifiers {
    /// `G`, for the grist.
    pub grist: PartChange,
    /// `D`, for the directory.
    pub dir: PartChange,
    /// `B`, for the base.
    pub base: PartChange,
    /// `S`, for the suffix.
    pub suffix: PartChange,
    /// `M`, for the member.
    pub member: PartChange,
    /// `P`, which empties base, suffix and member.
    pub parent: bool,
    /// `U`, for upper case.
    pub upper: bool,
    /// `L`, for lower case.
    pub lower: bool,
    /// `E`, the value of an empty list.
    pub empty: Option<Text>,
    /// `J`, what stands between the elements of a list that is joined.
    pub glue: Option<Text>,
    /// `R`, what stands before a name.
    pub root: Option<Text>,
}

impl Modifiers {
    fn new() -> Modifiers
        ensures { result ≡ no_modifiers }
    {
        Modifiers {
            grist: PartChange::Keep,
            dir: PartChange::Keep,
            base: PartChange::Keep,
            suffix: PartChange::Keep,
            member: PartChange::Keep,
            parent: false,
            upper: false,
            lower: false,
            empty: None,
            glue: None,
            root: None,
        }
    }

    /// Adds a letter that stands alone, and tells whether it may.
    #[tactic(auto, unfolding(crate::specs::Modifiers::alone))]
    fn add_alone(&mut self, letter: u8) -> bool
        ensures { MatchBool result (alone letter self.old ≡ Some self.new) (alone letter self.old ≡ None) }
    {
        match letter {
            b'G' => self.grist = PartChange::Select,
            b'D' => self.dir = PartChange::Select,
            b'B' => self.base = PartChange::Select,
            b'S' => self.suffix = PartChange::Select,
            b'M' => self.member = PartChange::Select,
            b'P' => self.parent = true,
            b'U' => self.upper = true,
            b'L' => self.lower = true,
            _ => return false,
        }
        true
    }

    /// Adds a letter with a value, and tells whether it may have one.
    #[tactic(auto, unfolding(crate::specs::Modifiers::valued))]
    fn add_valued(&mut self, letter: u8, value: Text) -> bool
        ensures { MatchBool result (valued letter value self.old ≡ Some self.new) (valued letter value self.old ≡ None) }
    {
        match letter {
            b'G' => self.grist = PartChange::Replace(value),
            b'D' => self.dir = PartChange::Replace(value),
            b'B' => self.base = PartChange::Replace(value),
            b'S' => self.suffix = PartChange::Replace(value),
            b'M' => self.member = PartChange::Replace(value),
            b'E' => self.empty = Some(value),
            b'J' => self.glue = Some(value),
            b'R' => self.root = Some(value),
            _ => return false,
        }
        true
    }
}

/// The fault of a modifier that is not of its form; the text is the rest from there.
fn bad_modifier(alloc: Global, text: &str) -> ExpandFault
    requires { HasNoZero text.now }
    ensures { (result ≡ faults.OutOfMemory) ⊎ (result ≡ faults.BadModifier text.now) }
{
    match Text::new(alloc, text) {
        Ok(text) => ExpandFault::BadModifier { text },
        Err(_) => ExpandFault::OutOfMemory,
    }
}

/// Adds a letter with its value, and answers the text after them; `text` begins at the letter.
fn add_with_value<'a>(
    alloc: Global,
    modifiers: &mut Modifiers,
    letter: u8,
    text: &'a str,
    valued: &'a str,
) -> Result<&'a str, ExpandFault>
    requires text { text.now ≡ letter ∷ 61 ∷ valued.now }
    requires letter { letter ≢ 58 }
    requires no_zero { HasNoZero text.now }
    ensures read { IsReadOn result text.now modifiers.old modifiers.new }
    ensures rest { IfOk result (λ rest. IsShorterEnd rest.now text.now) }
{
    let (value, rest) = split_before(valued, b":");
    let value = Text::new(alloc, value)?;
    if modifiers.add_valued(letter, value) {
        Ok(rest)
    } else {
        Err(bad_modifier(alloc, text))
    }
}

/// Adds the modifier that stands first, and answers the text after it; `text` begins at its letter.
fn add_modifier<'a>(
    alloc: Global,
    modifiers: &mut Modifiers,
    letter: u8,
    text: &'a str,
    after: &'a str,
) -> Result<&'a str, ExpandFault>
    requires text { text.now ≡ letter ∷ after.now }
    requires letter { letter ≢ 58 }
    requires no_zero { HasNoZero text.now }
    ensures read { IsReadOn result text.now modifiers.old modifiers.new }
    ensures rest { IfOk result (λ rest. IsShorterEnd rest.now text.now) }
{
    if let Some(valued) = after_sign(after, b'=') {
        return add_with_value(alloc, modifiers, letter, text, valued);
    }
    if modifiers.add_alone(letter) {
        Ok(after)
    } else {
        Err(bad_modifier(alloc, text))
    }
}

/// Adds the modifiers that stand in a text.
fn add_all(alloc: Global, modifiers: &mut Modifiers, text: &str) -> Result<(), ExpandFault>
    requires { HasNoZero text.now }
    ensures { IsLeftBy result modifiers.new (modified_after 0 text.now modifiers.old) }
{
    let mut rest = text;
    'letters: while let Some((letter, after)) = first_ascii(rest) {
        if letter == b':' {
            rest = after;
        } else {
            rest = add_modifier(alloc, modifiers, letter, rest, after)?;
        }
    }
    if rest.is_empty() {
        Ok(())
    } else {
        Err(bad_modifier(alloc, rest))
    }
}

/// The modifiers that stand in a text.
pub fn read_modifiers(alloc: Global, text: &str) -> Result<Modifiers, ExpandFault>
    requires { HasNoZero text.now }
    ensures { IsGivenBy result (modified text.now) }
{
    let mut modifiers = Modifiers::new();
    add_all(alloc, &mut modifiers, text)?;
    Ok(modifiers)
}
