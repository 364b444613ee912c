//! Which step makes a path.
ghost use Rattle.std.specs.Prelude.{◌≡◌, ◌<◌, ◌≤◌, ℕ, List, Some, IfOk, OnOk, length, if◌then◌else◌};
ghost use Rattle.std.specs.FinMap as map;
ghost use Rattle.std.specs.List.{list_any};
ghost use Rattle.std.specs.Str.{bytes_eq};
ghost use Rattle.b2_plan.specs.Plans.{maker_of};

use crate::maker_map::MakerMap;
use crate::step::Step;
use b2_base::fault::OutOfMemory;
use b2_base::path::Path;
use std::alloc::Global;

/// Gives each of these paths the number.
fn add_outs(makers: &mut MakerMap, number: u32, outs: &[Path]) -> Result<(), OutOfMemory>
    ensures { OnOk result ((path : List ℕ) → map.get makers.new path ≡ (if list_any (bytes_eq path) outs.now then Some number else map.get makers.old path)) }
{
    for out in outs {
        makers.insert(out, number)?;
    }
    Ok(())
}

/// The map from each output to the first step that has it.
pub fn makers_of(alloc: Global, steps: &[Step]) -> Result<MakerMap, OutOfMemory>
    requires { length steps.now ≤ 65536 }
    ensures { IfOk result (λ makers. (path : List ℕ) → map.get makers path ≡ maker_of steps.now path) }
{
    let mut makers = MakerMap::new(alloc);
    let mut left = steps.len();
    while left > 0 {
        add_outs(&mut makers, left as u32, steps[left - 1].outs.as_slice())?;
        left -= 1;
    }
    Ok(makers)
}
