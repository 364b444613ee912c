//! What modifiers make of one element.
ghost use Rattle.std.specs.Prelude.{◌≡◌, ◌++◌, [], IfOk, OnOk, string_bytes, if◌then◌else◌};
ghost use Rattle.b2_base.specs.Bytes.{HasNoZero};
ghost use Rattle.jam_path.specs.Names.{parts_of};
ghost use Rattle.jam_expand.specs.Modifiers.{is_select, is_keep, selects, takes_apart, picked, picked_parts, is_rooted, folder_text, root_text, rooted, cased, changed};

use crate::modifiers::{Modifiers, PartChange};
use b2_base::fault::OutOfMemory;
use b2_base::text::Text;
use jam_path::name::{parts, push_grist, push_path};
use jam_path::name_parts::NameParts;
use std::alloc::Global;

/// Makes a part empty.
fn empty(alloc: Global, part: &mut Text) -> Result<(), OutOfMemory>
    ensures { OnOk result (part.new ≡ []) }
{
    *part = Text::new(alloc, "")?;
    Ok(())
}

/// Replaces a part by a text.
fn replace(part: &mut Text, value: &Text) -> Result<(), OutOfMemory>
    ensures { OnOk result (part.new ≡ value.now) }
{
    *part = value.copy()?;
    Ok(())
}

impl PartChange {
    fn is_keep(&self) -> bool
        ensures { result ≡ is_keep self.now }
    {
        matches!(self, PartChange::Keep)
    }

    fn is_select(&self) -> bool
        ensures { result ≡ is_select self.now }
    {
        matches!(self, PartChange::Select)
    }

    /// Changes a part to what stays of it where this is chosen, and `others` tells whether parts are selected.
    fn pick(&self, alloc: Global, others: bool, part: &mut Text) -> Result<(), OutOfMemory>
        ensures { OnOk result (part.new ≡ picked others self.now part.old) }
    {
        match self {
            PartChange::Keep if others => empty(alloc, part),
            PartChange::Keep | PartChange::Select => Ok(()),
            PartChange::Replace(value) => replace(part, value),
        }
    }
}

impl Modifiers {
    /// Whether a letter selects a part.
    fn selects(&self) -> bool
        ensures { result ≡ selects self.now }
    {
        self.grist.is_select()
            || self.dir.is_select()
            || self.base.is_select()
            || self.suffix.is_select()
            || self.member.is_select()
    }

    /// Whether elements are taken apart.
    fn takes_apart(&self) -> bool
        ensures { result ≡ takes_apart self.now }
    {
        let keeps = self.grist.is_keep()
            && self.dir.is_keep()
            && self.base.is_keep()
            && self.suffix.is_keep()
            && self.member.is_keep();
        !keeps || self.parent || self.root.is_some()
    }

    /// Changes a part of a file to what stays of it: nothing where `P` stands.
    fn pick_file(
        &self,
        alloc: Global,
        choice: &PartChange,
        others: bool,
        part: &mut Text,
    ) -> Result<(), OutOfMemory>
        ensures { OnOk result (part.new ≡ (if self.now.parent then [] else picked others choice.now part.old)) }
    {
        if self.parent {
            empty(alloc, part)
        } else {
            choice.pick(alloc, others, part)
        }
    }

    /// Changes the parts to those that stay.
    fn pick_parts(&self, alloc: Global, name: &mut NameParts) -> Result<(), OutOfMemory>
        ensures { OnOk result (name.new ≡ picked_parts self.now name.old) }
    {
        let others = self.selects();
        self.grist.pick(alloc, others, &mut name.grist)?;
        self.dir.pick(alloc, others, &mut name.dir)?;
        self.pick_file(alloc, &self.base, others, &mut name.base)?;
        self.pick_file(alloc, &self.suffix, others, &mut name.suffix)?;
        self.pick_file(alloc, &self.member, others, &mut name.member)?;
        Ok(())
    }

    /// Changes ASCII letters: `U`, then `L`.
    fn change_case(&self, text: &mut String)
        ensures { string_bytes text.new ≡ cased self.now (string_bytes text.old) }
    {
        if self.upper {
            text.make_ascii_uppercase();
        }
        if self.lower {
            text.make_ascii_lowercase();
        }
    }
}

/// Whether the root stands before a name.
fn is_rooted(root: &str, name: &str) -> bool
    ensures { result ≡ is_rooted root.now name.now }
{
    !(root.is_empty() || root == "." || name.starts_with('/'))
}

/// Adds a root, and a slash where it does not end with one.
fn push_folder(text: &mut String, root: &Text) -> Result<(), OutOfMemory>
    requires { HasNoZero (string_bytes text.old) }
    ensures value { OnOk result (string_bytes text.new ≡ string_bytes text.old ++ folder_text root.now) }
    ensures no_zero { OnOk result (HasNoZero (string_bytes text.new)) }
{
    let root = root.as_str();
    text.push_str(root)?;
    if root.ends_with('/') {
        return Ok(());
    }
    text.push('/')?;
    Ok(())
}

/// Adds what the root puts before a name.
fn push_root(text: &mut String, root: &Option<Text>, name: &str) -> Result<(), OutOfMemory>
    requires { HasNoZero (string_bytes text.old) }
    ensures value { OnOk result (string_bytes text.new ≡ string_bytes text.old ++ root_text root.now name.now) }
    ensures no_zero { OnOk result (HasNoZero (string_bytes text.new)) }
{
    match root {
        Some(root) if is_rooted(root.as_str(), name) => push_folder(text, root),
        _ => Ok(()),
    }
}

/// The parts joined, with the root between the grist and the path.
fn rooted(alloc: Global, root: &Option<Text>, parts: &NameParts) -> Result<String, OutOfMemory>
    ensures exact { IfOk result (λ made. string_bytes made ≡ rooted root.now parts.now) }
    ensures no_zero { IfOk result (λ made. HasNoZero (string_bytes made)) }
{
    let mut path = String::new(alloc);
    push_path(&mut path, parts)?;
    let mut text = String::new(alloc);
    push_grist(&mut text, &parts.grist)?;
    push_root(&mut text, root, path.as_str())?;
    text.push_str(path.as_str())?;
    Ok(text)
}

/// The element, taken apart and put together.
fn taken_apart(alloc: Global, modifiers: &Modifiers, element: &Text) -> Result<String, OutOfMemory>
    ensures exact { IfOk result (λ made. string_bytes made ≡ rooted modifiers.now.root (picked_parts modifiers.now (parts_of element.now))) }
    ensures no_zero { IfOk result (λ made. HasNoZero (string_bytes made)) }
{
    let mut name = parts(alloc, element.as_str())?;
    modifiers.pick_parts(alloc, &mut name)?;
    rooted(alloc, &modifiers.root, &name)
}

/// The element, taken apart and put together where a modifier asks for it.
fn uncased(alloc: Global, modifiers: &Modifiers, element: &Text) -> Result<String, OutOfMemory>
    ensures exact { IfOk result (λ made. string_bytes made ≡ (if takes_apart modifiers.now then rooted modifiers.now.root (picked_parts modifiers.now (parts_of element.now)) else element.now)) }
    ensures no_zero { IfOk result (λ made. HasNoZero (string_bytes made)) }
{
    if modifiers.takes_apart() {
        taken_apart(alloc, modifiers, element)
    } else {
        Ok(String::from_str(alloc, element.as_str())?)
    }
}

/// What the modifiers make of one element.
pub fn changed(alloc: Global, modifiers: &Modifiers, element: &Text) -> Result<Text, OutOfMemory>
    ensures { IfOk result (λ made. made ≡ changed modifiers.now element.now) }
{
    let mut text = uncased(alloc, modifiers, element)?;
    modifiers.change_case(&mut text);
    Ok(Text::from_string(text))
}
