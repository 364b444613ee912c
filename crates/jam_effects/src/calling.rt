//! What is called.
ghost use Rattle.std.specs.Prelude.{◌≡◌, ◌∷◌, ◌++◌, [], IfOk, drop};
ghost use Rattle.jam_expand.specs.Limits.{within};
ghost use Rattle.jam_scope.specs.Lines.{find_rule};
ghost use Rattle.jam_effects.specs.Answers.{IsAnswered, named, named_of, lists_with, lists_from};
ghost use Rattle.jam_effects.specs.Views.{value, values};
ghost use Rattle.jam_effects.specs.Spots.{spot_of};

use crate::at::At;
use crate::fault::EvalFault;
use crate::naming::fits;
use crate::words::{expand_fault, join_at};
use b2_base::fault::OutOfMemory;
use b2_base::text::Text;
use b2_base::text_list::{TextList, copy_texts};
use jam_expand::limit::LimitedList;
use jam_scope::rule::Rule;
use jam_scope::world::World;
use jam_values::lists::TextLists;
use std::alloc::Global;

/// The name of what is called, and its lists.
#[derive(Drop)]
pub struct NamedCall {
    pub name: Text,
    pub lists: TextLists,
}

/// A list and another one after it, unless it is too large then.
fn joined(
    alloc: Global,
    first: &[Text],
    second: &[Text],
    at: &At<'_>,
) -> Result<TextList, EvalFault>
    ensures { IsAnswered value (within (first.now ++ second.now)) (spot_of at.now) result }
{
    let mut gathered = LimitedList::new(alloc);
    join_at(&mut gathered, first, at)?;
    join_at(&mut gathered, second, at)?;
    Ok(gathered.into_list())
}

/// That texts are not too large.
fn small(texts: &[Text], at: &At<'_>) -> Result<(), EvalFault>
    ensures { IsAnswered (λ _. texts.now) (within texts.now) (spot_of at.now) result }
{
    match fits(&[], 0, texts) {
        Ok(()) => Ok(()),
        Err(fault) => Err(expand_fault(fault, at)),
    }
}

/// The first of some lists after further texts; none where it stays as it is.
fn first_after(
    alloc: Global,
    more: &[Text],
    given: &[TextList],
    at: &At<'_>,
) -> Result<Option<TextList>, EvalFault>
    ensures { IsAnswered (lists_from given.now) (lists_with more.now given.now) (spot_of at.now) result }
{
    match given {
        [] => Ok(Some(copy_texts(alloc, more)?)),
        [first, ..] if more.is_empty() => {
            small(first.as_slice(), at)?;
            Ok(None)
        }
        [first, ..] => Ok(Some(joined(alloc, more, first.as_slice(), at)?)),
    }
}

/// The lists with another first one.
fn with_first(given: TextLists, first: TextList) -> Result<TextLists, OutOfMemory>
    ensures { IfOk result (λ made. made ≡ first ∷ drop 1 given) }
{
    let mut lists = given.into_vec();
    if lists.is_empty() {
        lists.push(first)?;
    } else {
        lists[0] = first;
    }
    Ok(TextLists::from_vec(lists))
}

/// The lists of a call, before the first of which further texts come. Those that stay as they are are not copied.
fn lists_with(
    alloc: Global,
    more: &[Text],
    given: TextLists,
    at: &At<'_>,
) -> Result<TextLists, EvalFault>
    ensures { IsAnswered values (lists_with more.now given) (spot_of at.now) result }
{
    match first_after(alloc, more, given.as_slice(), at)? {
        None => Ok(given),
        Some(first) => Ok(with_first(given, first)?),
    }
}

/// A call of a name with lists, before the first of which further names come.
fn call_named(
    alloc: Global,
    name: &Text,
    more: &[Text],
    given: TextLists,
    at: &At<'_>,
) -> Result<NamedCall, EvalFault>
    ensures { IsAnswered (λ call. named_of (Some call)) (named (name.now ∷ more.now) given) (spot_of at.now) result }
{
    let lists = lists_with(alloc, more, given, at)?;
    let name = name.copy()?;
    Ok(NamedCall { name, lists })
}

/// The call of the first of some names, whose others come before the first list; none where there is no name.
pub fn named_call(
    alloc: Global,
    names: &[Text],
    given: TextLists,
    at: &At<'_>,
) -> Result<Option<NamedCall>, EvalFault>
    ensures { IsAnswered named_of (named names.now given) (spot_of at.now) result }
{
    match names {
        [] => Ok(None),
        [name, more @ ..] => {
            let call = call_named(alloc, name, more, given, at)?;
            Ok(Some(call))
        }
    }
}

/// The rule of a name, as it is found from the present module.
pub fn rule_named(world: &World, name: &Text) -> Result<Option<Rule>, OutOfMemory>
    ensures { IfOk result (λ found. found ≡ find_rule name.now world.now.now) }
{
    match world.find_rule(name.as_str()) {
        Some(at) => world.rule_at(&at),
        None => Ok(None),
    }
}

/// One list with one text.
pub fn one_list(alloc: Global, item: &Text) -> Result<TextLists, OutOfMemory>
    ensures { IfOk result (λ made. made ≡ (item.now ∷ []) ∷ []) }
{
    let mut list = TextList::new(alloc);
    list.push(item.copy()?)?;
    let mut made = TextLists::new(alloc);
    made.push(list)?;
    Ok(made)
}
