//! Rules that answer for a set.
ghost use Rattle.std.specs.Prelude.{◌≡◌, ◌<◌, ℕ, Bool, Option, Some, Ok, IfOk, IfErr};
ghost use Rattle.b2_refine.specs.Answers.{Answer, IsFaultOf};
ghost use Rattle.b2_base.specs.Counts.{IsCounted};

use b2_props::pair_list::PairList;
use b2_props::props::Props;

/// Rules, named by numbers from 0, each of which answers with properties for a set.
pub trait Ask {
    /// Why a rule has no answer.
    type Fault: Drop;

    /// How many rules there are. No call changes it.
    ghost rules: { Self → ℕ };

    /// How the rules answer, where that is told: what they answer but for faults of the host and out of memory. No call
    /// changes it.
    ghost answer: { Self → Option (Answer Self.Fault) };

    /// What is kept between calls.
    ghost Kept: { Type 0 };

    /// What is kept. No call changes it.
    ghost kept: { Self → Kept };

    /// How often a call of the host failed. It never falls, and stops at the largest number of 64 bits.
    ghost faults: { Self → ℕ };

    /// Whether a fault is one of the host, or of the engine of patterns.
    ghost is_host_fault: { Self.Fault → Bool };

    /// Whether a fault is out of memory. A fault that is one of the host too is neither: a pattern was refused though it reads as
    /// one, which no answer determines, and no call of the host failed.
    ghost is_out_of_memory: { Self.Fault → Bool };

    /// What is known of each fault, by what is kept. An evaluation promises the same of a rule's fault that it answers.
    ghost CanFault: { Kept → Self.Fault → Type 0 };

    /// The properties that a rule answers for a set, or its fault.
    fn ask(&mut self, rule: usize, set: &Props) -> Result<PairList, Self::Fault>
        requires { rule < rules self.old }
        ensures told { (told : Answer Self.Fault) → answer self.old ≡ Some told → IfOk result (λ pairs. told rule set.now ≡ Ok pairs) }
        ensures told_fault { (told : Answer Self.Fault) → answer self.old ≡ Some told → IfErr result (IsFaultOf is_host_fault is_out_of_memory (told rule set.now)) }
        ensures known { IfErr result (CanFault (kept self.old)) }
        ensures counted { IsCounted is_host_fault is_out_of_memory (faults self.old) (faults self.new) result }
        ensures rules { rules self.new ≡ rules self.old }
        ensures answer { answer self.new ≡ answer self.old }
        ensures kept { kept self.new ≡ kept self.old };
}
