//! A loaded project's own text, which is evaluated.
ghost use Rattle.std.specs.Prelude.{◌≡◌, ℕ, Bool, Option, IfErr};
ghost use Rattle.jam_meaning.specs.StepJobs.{job_of, step_answer};
ghost use Rattle.b2_evaluator.specs.Answers.{Answers, IsTold};
ghost use Rattle.b2_base.specs.Counts.{IsCounted};

use b2_base::text::Text;
use b2_base::text_list::TextList;
use jam_meaning::step::{StepJob, StepText};

/// Evaluates rules of a loaded project, and the texts of steps. Each evaluation begins in the world that loading left, which stands
/// again after it.
pub trait Evaluate {
    /// Why there is no answer.
    type Fault: Drop;

    /// What is answered, where that is told, but for faults of the host and out of memory. No call changes it.
    ghost answers: { Self → Option (Answers Self.Fault) };

    /// What is kept between calls.
    ghost Kept: { Type 0 };

    /// What is kept. No call changes it.
    ghost kept: { Self → Kept };

    /// How often a call of the host failed. It never falls, and stops at the largest number of 64 bits.
    ghost faults: { Self → ℕ };

    /// Whether a fault counts as one of the host: a call of the host failed, unless the fault counts as out of memory too.
    ghost is_host_fault: { Self.Fault → Bool };

    /// Whether a fault counts as out of memory. One that counts as both is a fault that no answer determines, such as a pattern that
    /// was refused though it reads as one, and no call of the host failed. An evaluator need not have faults that count as both:
    /// `Refusing` of b2_own_text has none.
    ghost is_out_of_memory: { Self.Fault → Bool };

    /// What is known of each fault, by what is kept.
    ghost CanFault: { Kept → Self.Fault → Type 0 };

    /// What a rule of the project at a place returns for the texts of properties, where it was named at a line of the project's
    /// file.
    fn returned(
        &mut self,
        project: usize,
        rule: &Text,
        line: u32,
        properties: &[Text],
    ) -> Result<TextList, Self::Fault>
        ensures told { IsTold is_host_fault is_out_of_memory (λ texts. texts) (λ a. a.returned project rule.now line properties.now) (answers self.old) result }
        ensures known { IfErr result (CanFault (kept self.old)) }
        ensures counted { IsCounted is_host_fault is_out_of_memory (faults self.old) (faults self.new) result }
        ensures answers { answers self.new ≡ answers self.old }
        ensures kept { kept self.new ≡ kept self.old };

    /// The text of a step, and what its rule noted.
    fn step_text(&mut self, job: &StepJob) -> Result<StepText, Self::Fault>
        ensures told { IsTold is_host_fault is_out_of_memory step_answer (λ a. a.step_text (job_of job.now)) (answers self.old) result }
        ensures known { IfErr result (CanFault (kept self.old)) }
        ensures counted { IsCounted is_host_fault is_out_of_memory (faults self.old) (faults self.new) result }
        ensures answers { answers self.new ≡ answers self.old }
        ensures kept { kept self.new ≡ kept self.old };
}
