//! Lists of numbers in rising order.
ghost use Rattle.std.specs.Prelude.{◌≡◌, true, ◌≤◌, ◌++◌, ◌∷◌, [], ℕ, length, slice_index_or, IfOk, OnOk, if◌then◌else◌};
ghost use Rattle.b2_runs.specs.Outcomes.{IsListOf};
ghost use Rattle.b2_sched.specs.declared.state.State.TheVariants.{Settled, Failed};
ghost use Rattle.b2_sched.specs.NumberSets.{Has};
ghost use Rattle.b2_sched.specs.Keeping.{is_failed as told_failed};

use crate::state::State;
use b2_base::fault::OutOfMemory;
use std::alloc::Global;

/// Puts a number at the end of a list, where the flag is set.
fn push_if(numbers: &mut Vec<u32>, flag: bool, number: u32) -> Result<(), OutOfMemory>
    ensures { OnOk result (numbers.new.items ≡ (if flag then numbers.old.items ++ number ∷ [] else numbers.old.items)) }
{
    if flag {
        numbers.push(number)?;
    }
    Ok(())
}

/// The numbers whose flag is set.
pub fn numbers_of(alloc: Global, flags: &[bool]) -> Result<Vec<u32>, OutOfMemory>
    requires { length flags.now ≤ 65537 }
    ensures { IfOk result (λ numbers. IsListOf (Has flags.now) numbers.items) }
{
    let mut numbers = Vec::new(alloc);
    for (number, flag) in flags.iter().enumerate() {
        push_if(&mut numbers, *flag, number as u32)?;
    }
    Ok(numbers)
}

/// Whether the state is that of a failed step.
fn is_failed(state: State) -> bool
    ensures { result ≡ told_failed state }
{
    matches!(state, State::Failed)
}

/// The numbers of the steps that failed.
pub fn failed_of(alloc: Global, states: &[State]) -> Result<Vec<u32>, OutOfMemory>
    requires { length states.now ≤ 65537 }
    ensures { IfOk result (λ numbers. IsListOf (λ i. slice_index_or states.now i Settled ≡ Failed) numbers.items) }
{
    let mut numbers = Vec::new(alloc);
    for (number, state) in states.iter().enumerate() {
        push_if(&mut numbers, is_failed(*state), number as u32)?;
    }
    Ok(numbers)
}
