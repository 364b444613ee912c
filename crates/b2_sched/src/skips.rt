//! The search for skipped steps.
ghost use Rattle.std.specs.Prelude.{◌≡◌, ◌<◌, ◌&&◌, ℕ, length, OnOk, IfOk, true};
ghost use Rattle.std.specs.List.{Contains};
ghost use Rattle.b2_sched.specs.Searches.{AreLeftFlags, AreStuckFlags, AreFound, is_left as told_left, found_too, pending_too};

use crate::state::State;
use b2_base::fault::OutOfMemory;
use b2_base::list::List;
use std::alloc::Global;

/// Whether a step is left: it is needed, and neither settled nor failed.
fn is_left(state: State, dependents: &[u32]) -> bool
    ensures { result ≡ told_left state dependents.now }
{
    match state {
        State::Settled | State::Failed => false,
        _ => !dependents.is_empty(),
    }
}

/// For each number whether its step is left.
pub fn left_flags(
    alloc: Global,
    states: &[State],
    dependents: &[List<u32>],
) -> Result<Vec<bool>, OutOfMemory>
    requires { length dependents.now ≡ length states.now }
    ensures { IfOk result (λ flags. AreLeftFlags states.now dependents.now flags.items) }
{
    let mut flags = Vec::new(alloc);
    for (number, state) in states.iter().enumerate() {
        flags.push(is_left(*state, dependents[number].as_slice()))?;
    }
    Ok(flags)
}

/// The steps that are left, those of them that were found to be skipped, and those whose dependents are still to be found.
#[derive(Drop)]
pub struct SkipSearch {
    pub left: Vec<bool>,
    pub found: Vec<bool>,
    pub pending: Vec<u32>,
}

impl SkipSearch {
    /// Finds a step, if it is left and was not found.
    fn find(&mut self, number: u32) -> Result<(), OutOfMemory>
        requires size { length self.old.found.items ≡ length self.old.left.items }
        requires within { number < length self.old.left.items }
        ensures left { self.new.left.items ≡ self.old.left.items }
        ensures found { OnOk result (self.new.found.items ≡ found_too self.old.left.items self.old.found.items number) }
        ensures pending { OnOk result (self.new.pending.items ≡ pending_too self.old.left.items self.old.found.items self.old.pending.items number) }
    {
        let place = number as usize;
        if self.left[place] && !self.found[place] {
            self.found[place] = true;
            self.pending.push(number)?;
        }
        Ok(())
    }

    /// Finds those of the steps that are left and were not found.
    pub fn find_all(&mut self, numbers: &[u32]) -> Result<(), OutOfMemory>
        requires size { length self.old.found.items ≡ length self.old.left.items }
        requires within { (i : ℕ) → Contains numbers.now i → i < length self.old.left.items }
        ensures left { self.new.left.items ≡ self.old.left.items }
        ensures found { OnOk result (AreFound self.old.left.items numbers.now self.old.found.items self.old.pending.items self.new.found.items self.new.pending.items) }
    {
        for number in numbers {
            self.find(*number)?;
        }
        Ok(())
    }

    /// The steps that were found.
    pub fn into_found(self) -> Vec<bool>
        ensures { result.items ≡ self.found.items }
    {
        let SkipSearch {
            left,
            found,
            pending,
        } = self;
        drop(left);
        drop(pending);
        found
    }
}

/// For each number whether its step is left and was not found.
pub fn stuck_flags(alloc: Global, left: &[bool], found: &[bool]) -> Result<Vec<bool>, OutOfMemory>
    requires { length found.now ≡ length left.now }
    ensures { IfOk result (λ flags. AreStuckFlags left.now found.now flags.items) }
{
    let mut flags = Vec::new(alloc);
    for (number, is_left) in left.iter().enumerate() {
        flags.push(*is_left && !found[number])?;
    }
    Ok(flags)
}
