//! Looking up rules and actions.
ghost use Rattle.std.specs.Prelude.{◌≡◌, [], ◌∷◌, true, false, List, option_map, MatchOption};
ghost use Rattle.std.specs.List.{list_any, before_first, after_first};
ghost use Rattle.jam_journal.specs.Tables.{Text as Bytes};
ghost use Rattle.jam_scope.specs.Lines.{AreAbove, is_dot, dotted, in_each, first_at, places_from};

use super::World;
use crate::parents::Parents;
use crate::rule_ref::RuleRef;
use b2_base::fault::OutOfMemory;
use jam_journal::past::Past;

/// The first module that has a name, of a module and those above it. Takes no memory.
fn in_line<'a, V: Drop>(
    table: &Past<V>,
    parents: &'a Parents,
    owner: &'a str,
    name: &str,
) -> Option<&'a str>
    ensures { (above : List Bytes) → AreAbove parents.now.0 owner.now above → option_map (λ found. (found.now, name.now)) result ≡ first_at table.now.0 (in_each name.now (owner.now ∷ above)) }
{
    let mut owner = owner;
    while table.get(owner, name).is_none() {
        match parents.above(owner) {
            Some(above) => owner = above,
            None => return None,
        }
    }
    Some(owner)
}

/// What stands before and after the first dot of a name, where there is one.
fn halves(name: &str) -> Option<(&str, &str)>
    ensures { MatchOption result (list_any is_dot name.now ≡ false) (λ parts. (list_any is_dot name.now ≡ true) × (parts.0.now ≡ before_first is_dot name.now) × (parts.1.now ≡ after_first is_dot name.now)) }
{
    name.split_once('.')
}

/// Where a name is found beyond the modules above one: in the global module, or in the module before its first dot.
fn beyond<'a, V: Drop>(table: &Past<V>, name: &'a str) -> Option<RuleRef<'a>>
    ensures { option_map (λ found. (found.module.now, found.name.now)) result ≡ first_at table.now.0 (([], name.now) ∷ dotted name.now) }
{
    if table.get("", name).is_some() {
        return Some(RuleRef { module: "", name });
    }
    let (module, rest) = halves(name)?;
    if table.get(module, rest).is_some() {
        return Some(RuleRef { module, name: rest });
    }
    None
}

/// Where a name is found from a module. Takes no memory.
fn find<'a, V: Drop>(
    table: &Past<V>,
    parents: &'a Parents,
    owner: &'a str,
    name: &'a str,
) -> Option<RuleRef<'a>>
    ensures { option_map (λ found. (found.module.now, found.name.now)) result ≡ first_at table.now.0 (places_from parents.now.0 owner.now name.now) }
{
    parents.lined();
    match in_line(table, parents, owner, name) {
        Some(module) => Some(RuleRef { module, name }),
        None => beyond(table, name),
    }
}

impl World {
    ghost use Rattle.std.specs.Prelude.{◌≡◌, IsTrue, option_map, OnOk, OnErr};
    ghost use Rattle.jam_scope.specs.Changes.{changed, set_parent};
    ghost use Rattle.jam_scope.specs.Lines.{AreLines, rule_place, actions_place, may_be_above};

    /// Where a rule of this name is found: in the present module, else in those above it from the nearest on, else in the
    /// global module, else, for a name with a dot, in the module before the first dot under the rest of the name. Takes no
    /// memory.
    pub fn find_rule<'a>(&'a self, name: &'a str) -> Option<RuleRef<'a>>
        ensures lines { AreLines self.now.now.parents }
        ensures found { option_map (λ found. (found.module.now, found.name.now)) result ≡ rule_place name.now self.now.now }
    {
        self.parents.lined();
        find(&self.rules, &self.parents, self.variables.module(), name)
    }

    /// The same for actions. Takes no memory.
    pub fn find_actions<'a>(&'a self, name: &'a str) -> Option<RuleRef<'a>>
        ensures { option_map (λ found. (found.module.now, found.name.now)) result ≡ actions_place name.now self.now.now }
    {
        find(&self.actions, &self.parents, self.variables.module(), name)
    }

    /// Whether a module may be put above another one: it is another, and the other is not above it. Takes no memory.
    pub fn may_be_above(&self, module: &str, parent: &str) -> bool
        ensures { result ≡ may_be_above self.now.now.parents parent.now «module».now }
    {
        self.parents.may_be_above(module, parent)
    }

    /// Sets the module above a module, in which rules are looked for after it. It may be put there. After an error the world is
    /// as before.
    pub fn set_parent(&mut self, module: &str, parent: &str) -> Result<(), OutOfMemory>
        requires { IsTrue (may_be_above self.old.now.parents parent.now «module».now) }
        ensures ok { OnOk result (self.new ≡ changed (set_parent «module».now parent.now) self.old) }
        ensures err { OnErr result (self.new ≡ self.old) }
    {
        self.parents.set(self.alloc, module, parent)?;
        Ok(())
    }
}
