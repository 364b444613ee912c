//! How an update ends: which steps failed, which are skipped, and the cycle of those that are stuck.
ghost use Rattle.std.specs.Prelude.{◌≡◌, ◌↔◌, ◌⊎◌, ℕ, true, false, [], IsTrue, IfOk, MatchOption};
ghost use Rattle.b2_runs.specs.Outcomes.{IsListOf};
ghost use Rattle.b2_sched.specs.Schedules.{IsFailed, IsSkipped, NoneStuck, GoesOn, AreJudged};
ghost use Rattle.b2_sched.specs.Searches.{IsSearch};
ghost use Rattle.b2_sched.specs.Ends.{IsStepCycle};

use super::Sched;
use crate::cycles::cycle_of;
use crate::numbers::{failed_of, numbers_of};
use crate::skips::{SkipSearch, left_flags, stuck_flags};
use b2_base::fault::OutOfMemory;

impl Sched {
    /// Whether some step failed. Takes the same time however many steps there are, and no memory.
    pub fn has_failed(&self) -> bool
        ensures { IsTrue result ↔ ((i : ℕ) × IsFailed self.now i) }
    {
        self.any_failed
    }

    /// Whether all that is left is skipped: the update is to quit, and some step failed.
    fn quits(&self, quit: bool) -> bool
        ensures { IsTrue result ↔ ((quit ≡ true) × ((i : ℕ) × IsFailed self.now i)) }
    {
        quit && self.has_failed()
    }

    /// The steps that failed, in rising order.
    pub fn failed(&self) -> Result<Vec<u32>, OutOfMemory>
        ensures { IfOk result (λ list. IsListOf (IsFailed self.now) list.items) }
    {
        let numbers = failed_of(self.alloc, &self.states)?;
        Ok(numbers)
    }

    /// Which steps are left, and which of them are skipped where the update does not quit.
    fn search(&self) -> Result<SkipSearch, OutOfMemory>
        ensures { IfOk result (λ search. IsSearch self.now search.left.items search.found.items []) }
    {
        let pending = failed_of(self.alloc, &self.states)?;
        let lacking = numbers_of(self.alloc, &self.lacking)?;
        let left = left_flags(self.alloc, &self.states, &self.dependents)?;
        let found = vec![in self.alloc; false; self.states.len()]?;
        let mut search = SkipSearch {
            left,
            found,
            pending,
        };
        search.find_all(&lacking)?;
        while let Some(step) = search.pending.pop() {
            search.find_all(self.dependents[step as usize].as_slice())?;
        }
        Ok(search)
    }

    /// The steps that are skipped, in rising order: those that are left and lack a source, or need a failed or skipped step.
    /// Where something has failed and `quit` is set, all that are left.
    pub fn skipped(&self, quit: bool) -> Result<Vec<u32>, OutOfMemory>
        ensures { IfOk result (λ list. IsListOf (IsSkipped self.now quit) list.items) }
    {
        if self.quits(quit) {
            let left = left_flags(self.alloc, &self.states, &self.dependents)?;
            let numbers = numbers_of(self.alloc, &left)?;
            return Ok(numbers);
        }
        let search = self.search()?;
        let numbers = numbers_of(self.alloc, &search.found)?;
        Ok(numbers)
    }

    /// Whether something runs, can start or can be looked at.
    fn goes_on(&self) -> bool
        ensures { IsTrue result ↔ GoesOn self.now }
    {
        if self.running > 0 {
            return true;
        }
        if self.starts.lowest().is_some() {
            return true;
        }
        self.looks.lowest().is_some()
    }

    /// The cycle of steps that need one another, where nothing goes on and some needed steps are neither settled, failed nor
    /// skipped. The walk starts from the lowest such step and goes on to the lowest such step that the present one needs.
    pub fn stuck(&self) -> Result<Option<Vec<u32>>, OutOfMemory>
        requires { AreJudged self.now }
        ensures { IfOk result (λ found. MatchOption found (GoesOn self.now ⊎ NoneStuck self.now) (λ list. IsStepCycle self.now list.items)) }
    {
        if self.goes_on() {
            return Ok(None);
        }
        let search = self.search()?;
        let flags = stuck_flags(self.alloc, &search.left, &search.found)?;
        let found = cycle_of(self.alloc, &flags, &self.dependents)?;
        Ok(found)
    }
}
