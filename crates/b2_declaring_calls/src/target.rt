//! Main targets.
ghost use Rattle.std.specs.Prelude.{◌≡◌, ◌++◌, IfOk, OnOk};
ghost use Rattle.std.specs.List.{list_any};
ghost use Rattle.b2_base.specs.Bytes.{HasNoZero};
ghost use Rattle.b2_base.specs.Segments.{segments, is_up};
ghost use Rattle.b2_declaring_calls.specs.Targets.{is_refused_name, counts_of, rule_name, rule_in, property_lists, bare, target};

use crate::declaration::{Kind, ListName, MainTarget, PropertyList};
use crate::lists::{push_list, text_at};
use b2_base::fault::OutOfMemory;
use b2_base::list::List;
use b2_base::path::path_of;
use b2_base::rooted::is_rooted;
use b2_base::shape::Count;
use b2_base::text::Text;
use b2_base::text_list::{TextList, list_at, push_copies};
use b2_property_texts::cuts::cut_at;
use std::alloc::Global;

/// Whether a path has a segment `..`.
fn has_up(path: &str) -> bool
    ensures { result ≡ list_any is_up (segments path.now) }
{
    path.split('/').any(|segment| segment == "..")
}

/// Whether no main target has such a name.
pub(crate) fn is_refused_name(alloc: Global, name: &str) -> Result<bool, OutOfMemory>
    requires { HasNoZero name.now }
    ensures { IfOk result (λ refused. refused ≡ is_refused_name name.now) }
{
    if name.is_empty() || is_rooted(name) || cut_at(name, "//").is_some() || has_up(name) {
        return Ok(true);
    }
    Ok(path_of(alloc, name)?.as_str() == ".")
}

/// How many texts the lists of a kind have.
pub(crate) fn counts_of(kind: Kind) -> &'static [Count]
    ensures { result.now ≡ counts_of kind }
{
    match kind {
        Kind::Make => &[Count::One, Count::Any, Count::One, Count::Any, Count::Any],
        Kind::Install => &[Count::One, Count::Any, Count::Any, Count::Any],
        Kind::Exe | Kind::Lib | Kind::Obj | Kind::Alias => &[
            Count::One,
            Count::Any,
            Count::Any,
            Count::Any,
            Count::Any,
        ],
    }
}

/// A rule's name without its leading `@`.
fn rule_name(text: &str) -> &str
    requires { HasNoZero text.now }
    ensures value { result.now ≡ rule_name text.now }
    ensures clean { HasNoZero result.now }
{
    match text.strip_prefix('@') {
        None => text,
        Some(rest) => rest,
    }
}

/// The rule of a `make`; of other kinds nothing. Takes no memory.
fn rule_in(kind: Kind, lists: &[TextList]) -> &str
    ensures value { result.now ≡ rule_in kind lists.now }
    ensures clean { HasNoZero result.now }
{
    match kind {
        Kind::Make => rule_name(text_at(lists, 2)),
        Kind::Exe | Kind::Lib | Kind::Obj | Kind::Alias | Kind::Install => "",
    }
}

/// Adds the property lists of a `make`, which has no `default-build`.
fn push_make_lists(
    alloc: Global,
    found: &mut List<PropertyList>,
    lists: &[TextList],
) -> Result<(), OutOfMemory>
    ensures { OnOk result (found.new ≡ found.old ++ property_lists Kind.Make lists.now) }
{
    push_list(alloc, found, ListName::Requirements, list_at(lists, 3))?;
    push_list(alloc, found, ListName::Usage, list_at(lists, 4))
}

/// Adds the property lists of the other kinds.
fn push_other_lists(
    alloc: Global,
    found: &mut List<PropertyList>,
    lists: &[TextList],
) -> Result<(), OutOfMemory>
    ensures { OnOk result (found.new ≡ found.old ++ property_lists Kind.Exe lists.now) }
{
    push_list(alloc, found, ListName::Requirements, list_at(lists, 2))?;
    push_list(alloc, found, ListName::DefaultBuild, list_at(lists, 3))?;
    push_list(alloc, found, ListName::Usage, list_at(lists, 4))
}

fn push_property_lists(
    alloc: Global,
    found: &mut List<PropertyList>,
    kind: Kind,
    lists: &[TextList],
) -> Result<(), OutOfMemory>
    ensures { OnOk result (found.new ≡ found.old ++ property_lists kind lists.now) }
{
    match kind {
        Kind::Make => push_make_lists(alloc, found, lists),
        Kind::Exe | Kind::Lib | Kind::Obj | Kind::Alias | Kind::Install => {
            push_other_lists(alloc, found, lists)
        }
    }
}

/// A main target without lists; takes no memory.
fn without_lists(alloc: Global, kind: Kind, name: Text, rule: Text) -> MainTarget
    ensures { result ≡ bare kind name rule }
{
    MainTarget {
        kind,
        name,
        sources: TextList::new(alloc),
        rule,
        lists: List::new(alloc),
    }
}

/// The main target of a call.
pub(crate) fn target(
    alloc: Global,
    kind: Kind,
    lists: &[TextList],
) -> Result<MainTarget, OutOfMemory>
    ensures { IfOk result (λ made. made ≡ target kind lists.now) }
{
    let name = Text::new(alloc, text_at(lists, 0))?;
    let rule = Text::new(alloc, rule_in(kind, lists))?;
    let mut target = without_lists(alloc, kind, name, rule);
    push_copies(&mut target.sources, list_at(lists, 1))?;
    push_property_lists(alloc, &mut target.lists, kind, lists)?;
    Ok(target)
}
