//! Laws of loads and plans, each the contract of a function that does nothing.
ghost use Rattle.b2_source_laws.specs.Laws.{LoadsBySources, MeansBySources, MeaningIsApart};

use b2_generation_laws::laws::{ids_are_distinct, plans_are_apart};
use jam_effects::fault::EvalFault;

/// A load that ends well ends so over other files that differ under its output roots alone.
pub fn loads_by_sources()
    ensures { LoadsBySources }
{}

/// Files that have the same bytes outside the output roots of a plan come to that plan: the same words give it again, with the same
/// lines of ECHO.
pub fn means_by_sources()
    ensures { MeansBySources }
{}

/// Each output of the plan that files and words come to lies below an output root and has one maker, none is a folder of another, and
/// none is the log or below it.
pub fn meaning_is_apart()
    ensures { MeaningIsApart }
{
    ids_are_distinct();
    plans_are_apart::<EvalFault>();
}
