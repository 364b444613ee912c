//! Who needs a step, and what that makes ready.
ghost use Rattle.std.specs.Prelude.{◌≡◌, ◌+◌, ◌<◌, ℕ, List, true, [], length, slice_index_or, slice_set, IfOk, OnOk, if◌then◌else◌};
ghost use Rattle.std.specs.List.{Contains};
ghost use Rattle.b2_plan.specs.Plans.{maker_of};
ghost use Rattle.b2_sched.specs.Keeping.{IsWoken, AreWanted, is_unjudged, asked_too, looked_too};

use crate::number_set::NumberSet;
use crate::state::State;
use b2_base::fault::OutOfMemory;
use b2_base::list::List;
use b2_base::path::Path;
use b2_plan::plan::Plan;
use std::alloc::Global;

/// For each number below `size` the steps that need it: none yet.
pub fn no_dependents(alloc: Global, size: usize) -> Result<Vec<List<u32>>, OutOfMemory>
    ensures { IfOk result (λ lists. (length lists.items ≡ size) × ((k : ℕ) → slice_index_or lists.items k [] ≡ [])) }
{
    let mut lists = Vec::new(alloc);
    for _number in 0..size {
        lists.push(List::new(alloc))?;
    }
    Ok(lists)
}

/// Has a step looked at again, if it is not judged.
fn wake_one(looks: &mut NumberSet, state: State, number: usize)
    requires { number < length looks.old }
    ensures { looks.new ≡ (if is_unjudged state then slice_set looks.old number true else looks.old) }
{
    match state {
        State::Unjudged => looks.insert(number),
        _ => (),
    }
}

/// Has these dependents looked at again, as far as they are not judged.
pub fn wake(looks: &mut NumberSet, states: &[State], dependents: &[u32])
    requires size { length looks.old ≡ length states.now }
    requires within { (i : ℕ) → Contains dependents.now i → i < length states.now }
    ensures { IsWoken states.now dependents.now looks.old looks.new }
{
    for dependent in dependents {
        let number = *dependent as usize;
        wake_one(looks, states[number], number);
    }
}

/// Tells that the maker of a wanted file is needed, if there is one.
fn want(
    plan: &Plan,
    path: &Path,
    dependents: &mut Vec<List<u32>>,
    looks: &mut NumberSet,
) -> Result<(), OutOfMemory>
    requires dependents { length dependents.old.items ≡ length plan.now.steps + 1 }
    requires looks { length looks.old ≡ length plan.now.steps + 1 }
    ensures dependents { OnOk result (dependents.new.items ≡ asked_too (maker_of plan.now.steps path.now) dependents.old.items) }
    ensures looks { OnOk result (looks.new ≡ looked_too (maker_of plan.now.steps path.now) looks.old) }
{
    match plan.maker(path) {
        Some(step) => {
            let list = &mut dependents[step as usize];
            list.push(0)?;
            looks.insert(step as usize);
        }
        None => (),
    }
    Ok(())
}

/// Tells that the makers of wanted files are needed.
pub fn want_all(
    plan: &Plan,
    dependents: &mut Vec<List<u32>>,
    looks: &mut NumberSet,
) -> Result<(), OutOfMemory>
    requires { AreWanted plan.now.steps [] dependents.old.items looks.old }
    ensures { OnOk result (AreWanted plan.now.steps plan.now.wanted dependents.new.items looks.new) }
{
    for path in plan.wanted.as_slice() {
        want(plan, path, dependents, looks)?;
    }
    Ok(())
}
