//! A loaded project's own text, of which one question is refused.
ghost use Rattle.std.specs.Prelude.{◌≡◌, true, is_some};
ghost use Rattle.jam_effects.specs.Causes.{refused_by};

use crate::lending_moment::LendingMoment;
use crate::own_text::OwnText;
use crate::question::Question;
use crate::refused::{copy_refused, unless_refused};
use b2_base::text::Text;
use b2_base::text_list::TextList;
use b2_evaluator::evaluate::Evaluate;
use b2_host::files::Files;
use jam_effects::fault::EvalFault;
use jam_meaning::step::{StepJob, StepText};

/// The own text of a loaded project, of which one question ends with a fault that is known beforehand: a pattern that is refused
/// although it reads as one. Where no memory is left to copy that fault, it is out of memory. All other questions are evaluated; where
/// a pattern is refused in one of these, the answer is out of memory.
#[derive(Drop)]
pub struct Refusing<'a, F: Files, S: LendingMoment> {
    pub own: OwnText<'a, F, S>,
    pub question: Question,
    pub fault: EvalFault,
    ghost refused: { is_some (refused_by fault) ≡ true },
}

impl<'a, F: Files, S: LendingMoment> Evaluate for Refusing<'a, F, S> {
    ghost use Rattle.std.specs.Option.{option_map};
    ghost use Rattle.b2_own_text.specs.Faults.{is_host, is_memory};
    ghost use Rattle.b2_own_text.specs.KeptState.{Given, CanEndWithGiven, given, held};
    ghost use Rattle.b2_own_text.specs.Questions.{with_fault};
    ghost use Rattle.b2_own_text.specs.Worlds.{told_in};

    type Fault = EvalFault;

    ghost answers = { λ r. option_map (with_fault r.question r.fault) (told_in r.own.projects.now r.own.loaded.world (F.outside r.own.host.files.now).disk) };

    ghost Kept = { Given };

    ghost kept = { λ r. given (held r.own.projects.now r.own.loaded.world r.own.host.files.ghost_name (F.outside r.own.host.files.now)) r.fault };

    ghost faults = { λ r. (F.outside r.own.host.files.now).faults };

    ghost is_host_fault = { is_host };

    ghost is_out_of_memory = { is_memory };

    ghost CanFault = { CanEndWithGiven };

    fn returned(
        &mut self,
        project: usize,
        rule: &Text,
        line: u32,
        properties: &[Text],
    ) -> Result<TextList, EvalFault> {
        if self.question.is_rule(project, rule, line, properties) {
            return Err(copy_refused(&self.fault));
        }
        match self.own.returned(project, rule, line, properties) {
            Ok(value) => Ok(value),
            Err(fault) => Err(unless_refused(fault)),
        }
    }

    fn step_text(&mut self, job: &StepJob) -> Result<StepText, EvalFault> {
        if self.question.is_step(job) {
            return Err(copy_refused(&self.fault));
        }
        match self.own.step_text(job) {
            Ok(text) => Ok(text),
            Err(fault) => Err(unless_refused(fault)),
        }
    }
}
