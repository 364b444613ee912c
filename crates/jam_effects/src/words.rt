//! Words, and lists that are joined.
ghost use Rattle.std.specs.Prelude.{◌≡◌, ◌++◌, [], OnOk};
ghost use Rattle.jam_meaning.specs.RuleCalls.{kept_if};
ghost use Rattle.jam_expand.specs.Limits.{within};
ghost use Rattle.jam_expand.specs.Expansions.{expansion};
ghost use Rattle.jam_journal.specs.Scopes.{look};
ghost use Rattle.jam_effects.specs.Answers.{IsAnswered, IsExpandFault};
ghost use Rattle.jam_effects.specs.Views.{value};
ghost use Rattle.jam_effects.specs.Spots.{spot_of};

use crate::at::At;
use crate::fault::{EvalCause, EvalFault};
use b2_base::expand_fault::ExpandFault;
use b2_base::fault::OutOfMemory;
use b2_base::text::Text;
use b2_base::text_list::TextList;
use jam_expand::limit::LimitedList;
use jam_expand::word::Word;
use jam_scope::world::World;
use jam_values::joining::join;
use std::alloc::Global;

/// The fault of an expansion, at a place.
pub(crate) fn expand_fault(fault: ExpandFault, at: &At<'_>) -> EvalFault
    ensures { IsExpandFault fault (spot_of at.now) result }
{
    match fault {
        ExpandFault::OutOfMemory => EvalFault::OutOfMemory,
        fault => at.fault(EvalCause::Expand(fault)),
    }
}

/// The elements of a word in a world, or the fault at its line.
pub fn word(alloc: Global, world: &World, word: &Word, at: &At<'_>) -> Result<TextList, EvalFault>
    ensures { IsAnswered value (expansion (look world.now.now.scopes) word.now) (spot_of at.now) result }
{
    match word.expand(alloc, world) {
        Ok(list) => Ok(list),
        Err(fault) => Err(expand_fault(fault, at)),
    }
}

/// Joins texts to a list, unless it is too large with them.
pub fn join_at(gathered: &mut LimitedList, texts: &[Text], at: &At<'_>) -> Result<(), EvalFault>
    ensures { IsAnswered (λ _. gathered.new) (within (gathered.old ++ texts.now)) (spot_of at.now) result }
{
    match join(gathered, texts) {
        Ok(()) => Ok(()),
        Err(fault) => Err(expand_fault(fault, at)),
    }
}

/// Adds a text where a condition holds.
pub fn keep_if(kept: &mut TextList, item: &Text, holds: bool) -> Result<(), OutOfMemory>
    ensures { OnOk result (kept.new ≡ kept.old ++ kept_if holds item.now []) }
{
    if holds {
        kept.push(item.copy()?)?;
    }
    Ok(())
}
