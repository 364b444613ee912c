//! Lists of names.
ghost use Rattle.std.specs.Prelude.{◌≡◌, [], ◌∷◌, ◌++◌, IsTrue, IfOk, OnOk, map, string_bytes};
ghost use Rattle.std.specs.List.{filter};
ghost use Rattle.b2_base.specs.Bytes.{HasNoZero};
ghost use Rattle.jam_scope.specs.Names.{is_text};

use super::World;
use b2_base::fault::OutOfMemory;
use b2_base::text::{Text, has_no_zero};
use b2_base::text_list::TextList;
use std::alloc::Global;

/// Whether a name is a text: no byte of it is zero. Takes no memory.
pub fn is_text(name: &str) -> bool
    ensures value { result ≡ is_text name.now }
    ensures no_zero { IsTrue result → HasNoZero name.now }
{
    has_no_zero(name)
}

/// Adds a name, if it is a text.
fn push_name(alloc: Global, names: &mut TextList, name: &str) -> Result<(), OutOfMemory>
    ensures { OnOk result (names.new ≡ names.old ++ filter is_text (name.now ∷ [])) }
{
    if is_text(name) {
        names.push(Text::new(alloc, name)?)?;
    }
    Ok(())
}

fn texts_of(alloc: Global, names: &[&String]) -> Result<TextList, OutOfMemory>
    ensures { IfOk result (λ texts. texts ≡ filter is_text (map (λ name. string_bytes name.now) names.now)) }
{
    let mut texts = TextList::new(alloc);
    for name in names {
        push_name(alloc, &mut texts, name.as_str())?;
    }
    Ok(texts)
}

/// The same of the names of a row.
fn row_texts<V>(alloc: Global, row: &[(&String, &V)]) -> Result<TextList, OutOfMemory>
    ensures { IfOk result (λ texts. texts ≡ filter is_text (map (λ entry. string_bytes entry.0.now) row.now)) }
{
    let mut texts = TextList::new(alloc);
    for (name, _) in row {
        push_name(alloc, &mut texts, name.as_str())?;
    }
    Ok(texts)
}

impl World {
    ghost use Rattle.std.specs.Prelude.{◌≡◌, IfOk};
    ghost use Rattle.jam_scope.specs.Names.{names_in};

    /// The names of a module's own rules, in byte order. A name with a zero byte is no text, and is left out. Takes time in
    /// proportion to the names.
    pub fn rule_names(&self, module: &str) -> Result<TextList, OutOfMemory>
        ensures { IfOk result (λ names. names ≡ names_in self.now.now.rules «module».now) }
    {
        let row = self.rules.row(module)?;
        row_texts(self.alloc, row.as_slice())
    }

    /// The names for which a target has an own value, in byte order. A name with a zero byte is no text, and is left out. Takes
    /// time in proportion to the names.
    pub fn own_names(&self, target: &str) -> Result<TextList, OutOfMemory>
        ensures { IfOk result (λ names. names ≡ names_in self.now.now.own target.now) }
    {
        let row = self.own.row(target)?;
        row_texts(self.alloc, row.as_slice())
    }

    /// The names of a module's variables, in byte order: those that were assigned, also the empty list. A name with a zero byte
    /// is no text, and is left out. Takes time in proportion to the names and to all bindings that stand.
    pub fn var_names(&self, module: &str) -> Result<TextList, OutOfMemory>
        ensures { IfOk result (λ names. names ≡ names_in self.now.now.scopes.variables «module».now) }
    {
        let names = self.variables.names(module)?;
        texts_of(self.alloc, names.as_slice())
    }
}
