//! Whether steps make files in the output roots alone.
ghost use Rattle.std.specs.Bool.{OnTrue};
ghost use Rattle.std.specs.List.{AllByRecursion, AllWithin};
ghost use Rattle.std.specs.Prelude.{length};
ghost use Rattle.b2_plan.specs.Sources.{IsInRoots};
ghost use Rattle.b2_cost.specs.Housed.{IsHoused};

use b2_base::path::Path;
use b2_plan::roots::is_in_roots;
use b2_plan::step::Step;

fn are_in_roots(roots: &[Path], paths: &[Path]) -> bool
    ensures { OnTrue result (AllByRecursion (IsInRoots roots.now) paths.now) }
{
    match paths {
        [] => true,
        [first, more @ ..] => is_in_roots(roots, first) && are_in_roots(roots, more),
    }
}

fn is_housed(roots: &[Path], step: &Step) -> bool
    ensures { OnTrue result (IsHoused roots.now step.now) }
{
    let outs = step.outs.as_slice();
    !outs.is_empty() && are_in_roots(roots, outs)
}

/// Whether each step has an output, and its outputs lie under output roots.
pub fn are_housed(roots: &[Path], steps: &[Step]) -> bool
    ensures { OnTrue result (AllWithin (IsHoused roots.now) steps.now 0 (length steps.now)) }
{
    for step in steps {
        if !is_housed(roots, step) {
            return false;
        }
    }
    true
}
