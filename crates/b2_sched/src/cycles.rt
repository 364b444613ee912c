//! The cycle of stuck steps.
ghost use Rattle.std.specs.Prelude.{◌≡◌, ◌<◌, ◌≤◌, ℕ, true, false, length, slice_index_or, IfOk, MatchOption};
ghost use Rattle.std.specs.List.{Contains};
ghost use Rattle.b2_sched.specs.Ends.{IsCycleOf};
ghost use Rattle.b2_sched.specs.NumberSets.{Has, HasNone};
ghost use Rattle.b2_sched.specs.Cycles.{NeedsIn, ArePointed, LeadTo, IsRestFrom, AreWithin, IsWalkOf};

use crate::number_set::first_in;
use b2_base::fault::OutOfMemory;
use b2_base::list::List;
use std::alloc::Global;

/// Has each of these steps lead to the number.
fn point(next: &mut Vec<u32>, dependents: &[u32], number: u32)
    requires { (i : ℕ) → Contains dependents.now i → i < length next.old.items }
    ensures { ArePointed dependents.now number next.old.items next.new.items }
{
    for dependent in dependents {
        next[*dependent as usize] = number;
    }
}

/// For each number the lowest flagged one that it needs, or 0.
pub fn next_flagged(
    alloc: Global,
    flags: &[bool],
    dependents: &[List<u32>],
) -> Result<Vec<u32>, OutOfMemory>
    requires size { length dependents.now ≡ length flags.now }
    requires few { length flags.now ≤ 65537 }
    requires none { slice_index_or flags.now 0 false ≡ false }
    requires within { (i k : ℕ) → NeedsIn dependents.now i k → i < length flags.now }
    ensures { IfOk result (λ next. LeadTo flags.now dependents.now 0 next.items) }
{
    let mut next = vec![in alloc; 0; flags.len()]?;
    let mut number = flags.len();
    while number > 0 {
        number -= 1;
        if flags[number] {
            point(&mut next, dependents[number].as_slice(), number as u32);
        }
    }
    Ok(next)
}

/// What stands in a path from the first place of a step on.
fn rest_from(alloc: Global, path: &[u32], back: u32) -> Result<Vec<u32>, OutOfMemory>
    requires { Contains path.now back }
    ensures { IfOk result (λ list. IsRestFrom path.now back list.items) }
{
    let mut place = 0;
    while path[place] != back {
        place += 1;
    }
    Ok(Vec::from_slice(alloc, &path[place..])?)
}

/// The cycle to which the walk from a step comes.
fn cycle_from(alloc: Global, next: &[u32], first: u32) -> Result<Vec<u32>, OutOfMemory>
    requires first { first < length next.now }
    requires within { AreWithin next.now }
    ensures { IfOk result (λ list. IsWalkOf next.now first list.items) }
{
    let mut seen = vec![in alloc; false; next.len()]?;
    let mut path = Vec::new(alloc);
    let mut at = first;
    while !seen[at as usize] {
        seen[at as usize] = true;
        path.push(at)?;
        at = next[at as usize];
    }
    let cycle = rest_from(alloc, &path, at)?;
    Ok(cycle)
}

/// The cycle of the flagged steps, each of which needs one of them. None where no step is flagged.
pub fn cycle_of(
    alloc: Global,
    flags: &[bool],
    dependents: &[List<u32>],
) -> Result<Option<Vec<u32>>, OutOfMemory>
    requires size { length dependents.now ≡ length flags.now }
    requires few { length flags.now ≤ 65537 }
    requires none { slice_index_or flags.now 0 false ≡ false }
    requires within { (i k : ℕ) → NeedsIn dependents.now i k → i < length flags.now }
    requires each { (i : ℕ) → Has flags.now i → ((k : ℕ) → Has flags.now k → NeedsIn dependents.now i k → ⊥) → ⊥ }
    ensures { IfOk result (λ found. MatchOption found (HasNone flags.now) (λ list. IsCycleOf (Has flags.now) (NeedsIn dependents.now) list.items)) }
{
    match first_in(flags, 0, flags.len()) {
        None => Ok(None),
        Some(first) => {
            let next = next_flagged(alloc, flags, dependents)?;
            let list = cycle_from(alloc, &next, first as u32)?;
            Ok(Some(list))
        }
    }
}
