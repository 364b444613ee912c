//! What is reached from some numbers.
ghost use Rattle.std.specs.Prelude.{◌≡◌, ◌↔◌, ◌<◌, ℕ, length, IfOk};
ghost use Rattle.std.specs.List.{Contains};
ghost use Rattle.b2_sched.specs.NumberSets.{Has};
ghost use Rattle.b2_sched.specs.Cycles.{NeedsIn};
ghost use Rattle.b2_sched.specs.Reaches.{Reached};

use crate::skips::SkipSearch;
use b2_base::fault::OutOfMemory;
use b2_base::list::List;
use std::alloc::Global;

/// For each number whether it is reached: the first ones are, and so are all dependents of one that is. The lists are of
/// the dependents of each number. Each list is read at most once.
pub fn reached(
    alloc: Global,
    first: &[u32],
    dependents: &[List<u32>],
) -> Result<Vec<bool>, OutOfMemory>
    requires first { (i : ℕ) → Contains first.now i → i < length dependents.now }
    requires within { (i k : ℕ) → NeedsIn dependents.now i k → i < length dependents.now }
    ensures size { IfOk result (λ marks. length marks.items ≡ length dependents.now) }
    ensures marks { IfOk result (λ marks. (i : ℕ) → Has marks.items i ↔ Reached first.now dependents.now i) }
{
    let left = vec![in alloc; true; dependents.len()]?;
    let found = vec![in alloc; false; dependents.len()]?;
    let mut search = SkipSearch {
        left,
        found,
        pending: Vec::new(alloc),
    };
    search.find_all(first)?;
    while let Some(number) = search.pending.pop() {
        search.find_all(dependents[number as usize].as_slice())?;
    }
    Ok(search.into_found())
}
