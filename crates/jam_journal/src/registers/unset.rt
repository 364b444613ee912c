//! Names that have bindings and no variable.
ghost use Rattle.std.specs.Prelude.{◌≡◌, [], ◌∷◌, if◌then◌else◌, map as each, reverse, string_bytes, IfOk, OnOk};
ghost use Rattle.std.specs.Str.{IsUtf8};
ghost use Rattle.jam_journal.specs.Tables.{lent_names};
ghost use Rattle.jam_journal.specs.Stacks.{owner_before, is_unset, unset_by, others_of, AreNoted};

use super::{Cell, Scope};
use crate::names::Names;
use b2_base::fault::OutOfMemory;
use std::alloc::Global;

/// Whether a binding is of a module, and nothing stood there.
fn is_unset(home: &str, owner: &str, before: &Option<Cell>) -> bool
    ensures { result ≡ is_unset home.now owner.now before.now }
{
    owner == home && before.is_none()
}

/// Adds a name to the set, if `is_noted`.
#[tactic(auto, using(crate::proofs::UnsetNamesHaveNoVariable::noted_none, crate::proofs::UnsetNamesHaveNoVariable::noted_one))]
fn note_name(
    alloc: Global,
    name: &str,
    is_noted: bool,
    unset: &mut Names<()>,
) -> Result<(), OutOfMemory>
    ensures { OnOk result (AreNoted unset.old unset.new (if is_noted then name.now ∷ [] else [])) }
{
    if is_noted {
        let _ = unset.insert(alloc, name, ())?;
        return Ok(());
    }
    Ok(())
}

/// Notes the name that an entry binds in a module where nothing stood, and answers the present module before the entry.
#[tactic(auto, using(crate::proofs::UnsetNamesHaveNoVariable::noted_none))]
fn note_entry<'a>(
    alloc: Global,
    entry: &'a Scope,
    owner: &'a str,
    home: &str,
    unset: &mut Names<()>,
) -> Result<&'a str, OutOfMemory>
    ensures owner { IfOk result (λ before. before.now ≡ owner_before owner.now (entry.now ∷ [])) }
    ensures utf8 { IfOk result (λ before. IsUtf8 before.now) }
    ensures noted { OnOk result (AreNoted unset.old unset.new (unset_by home.now owner.now (entry.now ∷ []))) }
{
    match entry {
        Scope::Opened { owner } => Ok(owner.as_str()),
        Scope::Called { owner, .. } => Ok(owner.as_str()),
        Scope::Bound { name, before, .. } => {
            note_name(alloc, name.as_str(), is_unset(home, owner, before), unset)?;
            Ok(owner)
        }
    }
}

/// The same for entries, the newest last.
pub fn note_unset<'a>(
    alloc: Global,
    entries: &'a [Scope],
    owner: &'a str,
    home: &str,
    unset: &mut Names<()>,
) -> Result<&'a str, OutOfMemory>
    ensures owner { IfOk result (λ before. before.now ≡ owner_before owner.now (reverse entries.now)) }
    ensures utf8 { IfOk result (λ before. IsUtf8 before.now) }
    ensures noted { OnOk result (AreNoted unset.old unset.new (unset_by home.now owner.now (reverse entries.now))) }
{
    let mut owner = owner;
    let mut left = entries;
    'entries: while let Some((newest, older)) = left.split_last() {
        owner = note_entry(alloc, newest, owner, home, unset)?;
        left = older;
    }
    Ok(owner)
}

/// The names of a row that are not noted.
pub fn others<'a>(
    alloc: Global,
    row: &[(&'a String, &'a Cell)],
    unset: &Names<()>,
) -> Result<Vec<&'a String>, OutOfMemory>
    ensures { IfOk result (λ names. each (λ name. string_bytes name.now) names.items ≡ others_of unset.now (lent_names row.now)) }
{
    let mut names = Vec::new(alloc);
    for (name, _) in row {
        if unset.get(name.as_str()).is_none() {
            names.push(*name)?;
        }
    }
    Ok(names)
}
