//! How parameters take arguments.
ghost use Rattle.std.specs.Prelude.{◌≡◌, ◌==◌, IfOk, is_some};
ghost use Rattle.jam_grammar.specs.Spelling.{takes_all};
ghost use Rattle.jam_meaning.specs.Params.{list_taken, lists_taken, nothing_left, params_bind};
ghost use Rattle.jam_values.specs.Bindings.{bindings_of};
ghost use Rattle.jam_grammar.specs.Trees.{lists_of};
ghost use Rattle.jam_values.specs.Taking.{count_taken, IsTaken};

use crate::bindings::{Bound, add};
use b2_base::fault::OutOfMemory;
use b2_base::text::Text;
use b2_base::text_list::{TextList, list_at, rest_of};
use jam_grammar::tree::Param;
use std::alloc::Global;

/// How many texts a parameter with this mark takes, if it can.
fn count_taken(mark: Option<char>, texts: &[Text]) -> Option<usize>
    ensures { result ≡ count_taken mark texts.now }
{
    match mark {
        None if texts.is_empty() => None,
        None => Some(1),
        Some('?') if texts.is_empty() => Some(0),
        Some('?') => Some(1),
        Some('*') => Some(texts.len()),
        Some(_) if texts.is_empty() => None,
        Some(_) => Some(texts.len()),
    }
}

/// The parameters of one list take its texts from left to right; whether they can, and none is left over.
fn take_list(
    alloc: Global,
    made: &mut Vec<Bound>,
    params: &[Param],
    texts: &[Text],
) -> Result<bool, OutOfMemory>
    ensures { IfOk result (λ taken. IsTaken (bindings_of made.old.items) (bindings_of made.new.items) taken (list_taken params.now texts.now)) }
{
    match params {
        [] => Ok(texts.is_empty()),
        [first, more @ ..] => {
            let Some(count) = count_taken(first.mark, texts) else {
                return Ok(false);
            };
            add(alloc, made, first.name.as_str(), &texts[..count])?;
            take_list(alloc, made, more, &texts[count..])
        }
    }
}

/// Whether this is `*` alone, which takes all further lists.
fn takes_all(params: &[Param]) -> bool
    ensures { result ≡ takes_all params.now }
{
    match params {
        [one] => one.name.as_str() == "*" && one.mark.is_none(),
        _ => false,
    }
}

/// Whether nothing stands in these lists.
fn is_nothing_left(given: &[TextList]) -> bool
    ensures { result ≡ is_some (nothing_left given.now) }
{
    match given {
        [] => true,
        [first, more @ ..] => first.as_slice().is_empty() && is_nothing_left(more),
    }
}

/// The lists of parameters take the lists of arguments; whether they can, and nothing is left over.
fn take_lists(
    alloc: Global,
    made: &mut Vec<Bound>,
    params: &[Vec<Param>],
    given: &[TextList],
) -> Result<bool, OutOfMemory>
    ensures { IfOk result (λ taken. IsTaken (bindings_of made.old.items) (bindings_of made.new.items) taken (lists_taken (lists_of params.now) given.now)) }
{
    match params {
        [] => Ok(is_nothing_left(given)),
        [first, more @ ..] => {
            if takes_all(first) {
                return Ok(true);
            }
            if !take_list(alloc, made, first, list_at(given, 0))? {
                return Ok(false);
            }
            take_lists(alloc, made, more, rest_of(given))
        }
    }
}

/// Adds what the parameters of a rule bind; whether they can take the arguments. A rule without lists of parameters takes
/// anything.
pub(crate) fn take_params(
    alloc: Global,
    made: &mut Vec<Bound>,
    params: &[Vec<Param>],
    given: &[TextList],
) -> Result<bool, OutOfMemory>
    ensures { IfOk result (λ taken. IsTaken (bindings_of made.old.items) (bindings_of made.new.items) taken (params_bind (lists_of params.now) given.now)) }
{
    if params.is_empty() {
        return Ok(true);
    }
    take_lists(alloc, made, params, given)
}
