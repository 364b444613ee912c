//! What a call binds in the frame of its rule.
ghost use Rattle.std.specs.Prelude.{◌≡◌, ◌<◌, ◌+◌, [], ◌∷◌, ◌++◌, IfOk, OnOk, option_map};
ghost use Rattle.b2_base.specs.Lists.{list_at};
ghost use Rattle.jam_meaning.specs.Params.{numbered, special, call_binds};
ghost use Rattle.jam_values.specs.Bindings.{bindings_of};
ghost use Rattle.jam_grammar.specs.Trees.{lists_of};

use crate::params::take_params;
use b2_base::fault::OutOfMemory;
use b2_base::text::Text;
use b2_base::text_list::{TextList, copy_texts, list_at};
use jam_grammar::tree::Param;
use jam_journal::name::Name;
use std::alloc::Global;

/// A name with the value that is to be bound to it.
#[derive(Drop)]
pub struct Bound {
    /// The name, which takes no memory where it is that of an argument list.
    pub name: Name,
    /// What is to be bound to it.
    pub value: TextList,
}

/// The name of an argument list, counted from 0.
fn digit(place: usize) -> &'static str
    requires { place < 9 }
    ensures { result.now ≡ (49 + place) ∷ [] }
{
    match place {
        0 => "1",
        1 => "2",
        2 => "3",
        3 => "4",
        4 => "5",
        5 => "6",
        6 => "7",
        7 => "8",
        _ => "9",
    }
}

/// Room for what nearly every call binds: the lists of arguments, and a few parameters.
const ROOM: usize = 16;

/// Adds a binding of a name to copies of texts.
pub(crate) fn add(
    alloc: Global,
    made: &mut Vec<Bound>,
    name: &str,
    texts: &[Text],
) -> Result<(), OutOfMemory>
    ensures { OnOk result (bindings_of made.new.items ≡ bindings_of made.old.items ++ (name.now, texts.now) ∷ []) }
{
    let name = Name::new(alloc, name)?;
    let value = copy_texts(alloc, texts)?;
    made.push(Bound { name, value })?;
    Ok(())
}

/// The lists of arguments as `1` to `9`.
fn numbered(alloc: Global, given: &[TextList]) -> Result<Vec<Bound>, OutOfMemory>
    ensures { IfOk result (λ made. bindings_of made.items ≡ numbered 9 49 given.now) }
{
    let mut made = Vec::new(alloc);
    made.reserve_exact(ROOM)?;
    for place in 0..9 {
        add(alloc, &mut made, digit(place), list_at(given, place))?;
    }
    Ok(made)
}

/// The lists of arguments as `1` to `9`, `<` and `>`.
fn special(alloc: Global, given: &[TextList]) -> Result<Vec<Bound>, OutOfMemory>
    ensures { IfOk result (λ made. bindings_of made.items ≡ special given.now) }
{
    let mut made = numbered(alloc, given)?;
    add(alloc, &mut made, "<", list_at(given, 0))?;
    add(alloc, &mut made, ">", list_at(given, 1))?;
    Ok(made)
}

/// What a call binds: the lists of arguments, and then the parameters, which hide them. Answers none exactly where arguments
/// are missing or left over.
pub fn call_binds(
    alloc: Global,
    params: &[Vec<Param>],
    given: &[TextList],
) -> Result<Option<Vec<Bound>>, OutOfMemory>
    ensures { IfOk result (λ found. option_map (λ made. bindings_of made.items) found ≡ call_binds (lists_of params.now) given.now) }
{
    let mut made = special(alloc, given)?;
    if take_params(alloc, &mut made, params, given)? {
        Ok(Some(made))
    } else {
        Ok(None)
    }
}
