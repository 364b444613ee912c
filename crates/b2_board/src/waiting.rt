//! The steps that a step waits for.
use b2_base::fault::OutOfMemory;
use b2_sched::sched::Sched;
use std::alloc::Global;
use std::marker::Model;

/// The steps that a step may still have to wait for, seen as the list of their numbers.
pub struct Waiting {
    numbers: Vec<u32>,
}

/// By hand, so that dropping one is one call.
impl Drop for Waiting {
    fn drop(self) {
        let Waiting { numbers } = self;
        drop(numbers);
    }
}

impl Model for Waiting {
    ghost use Rattle.std.specs.Prelude.{ℕ, List};

    ghost Value = { List ℕ };

    ghost view = { λ waiting. waiting.numbers.items };
}

impl Waiting {
    ghost use Rattle.std.specs.Prelude.{◌≡◌, ◌++◌, ◌⊎◌, [], ℕ, false, IsTrue, OnOk, OnErr};
    ghost use Rattle.std.specs.List.{Contains};
    ghost use Rattle.b2_sched.specs.Schedules.{IsStep, IsSettled};

    /// None; takes no memory.
    pub fn new(alloc: Global) -> Waiting
        ensures { result ≡ [] }
    {
        Waiting {
            numbers: Vec::new(alloc),
        }
    }

    /// Adds numbers at the end. After an error the list is as before.
    pub fn extend(&mut self, numbers: &[u32]) -> Result<(), OutOfMemory>
        ensures ok { OnOk result (self.new ≡ self.old ++ numbers.now) }
        ensures err { OnErr result (self.new ≡ self.old) }
    {
        self.numbers.extend_from_slice(numbers)?;
        Ok(())
    }

    /// Takes settled steps off the end, until one is not settled, and says whether none is left.
    pub fn is_over(&mut self, sched: &Sched) -> bool
        requires { (k : ℕ) → Contains self.old k → IsStep sched.now k }
        ensures fewer { (k : ℕ) → Contains self.new k → Contains self.old k }
        ensures rest { (k : ℕ) → Contains self.old k → IsSettled sched.now k ⊎ Contains self.new k }
        ensures over { IsTrue result → self.new ≡ [] }
        ensures waits { result ≡ false → (k : ℕ) × Contains self.new k × (IsSettled sched.now k → ⊥) }
    {
        while let Some(number) = self.numbers.last() {
            if !sched.settled(*number) {
                return false;
            }
            let _settled = self.numbers.pop();
        }
        true
    }
}
