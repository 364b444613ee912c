//! A host that is lent.
ghost use Rattle.std.specs.Prelude.{◌≡◌};
ghost use Rattle.b2_host.specs.OutsideLaws.{Keeps};
ghost use Rattle.jam_meaning.specs.StepJobs.{job_of, step_answer};
ghost use Rattle.std.specs.Option.{option_copied};
ghost use Rattle.b2_own_text.specs.EvaluationParts.{EvaluatesOn, ReturnsOn, text_of_at};
ghost use Rattle.b2_own_text.specs.Lending.{HasKept};

use crate::evaluating::{returned, text_of};
use crate::lending_moment::LendingMoment;
use crate::loaded_world::LoadedWorld;
use b2_base::text::Text;
use b2_base::text_list::TextList;
use b2_declared::place::Place;
use b2_host::files::Files;
use jam_effects::fault::EvalFault;
use jam_meaning::step::{StepJob, StepText};
use std::alloc::Global;
use std::marker::PhantomData;

/// A host that was lent when it was what `S` says. Its files and child processes are those of that moment, and what every call keeps is kept.
#[derive(Drop)]
pub struct LentHost<'a, F: Files, S: LendingMoment> {
    pub files: &'a mut F,
    entry: PhantomData<S>,
    ghost disk: { (F.outside files.now).disk ≡ S.outside.disk },
    ghost children: { (F.outside files.now).children ≡ S.outside.children },
    ghost kept: { HasKept S.outside (F.outside files.now) },
}

impl<'a, F: Files, S: LendingMoment> LentHost<'a, F, S> {
    /// Borrows a host, which is what `S` says.
    #[tactic(auto, using(crate::proofs::LentHostKeeps::kept_at_first))]
    pub fn new(files: &'a mut F) -> LentHost<'a, F, S>
        requires { F.outside files.old ≡ S.outside }
        ensures same_reference { result.files.ghost_name ≡ files.entry.ghost_name }
        ensures files { result.files.now ≡ files.old }
    {
        LentHost {
            files,
            entry: PhantomData,
        }
    }

    /// Gives the host back.
    #[tactic(auto, using(crate::proofs::LentHostKeeps::all_is_kept))]
    pub fn into_files(self) -> &'a mut F
        ensures same_reference { result.ghost_name ≡ self.entry.files.ghost_name }
        ensures files { result.now ≡ self.entry.files.now }
        ensures disk { (F.outside result.now).disk ≡ S.outside.disk }
        ensures children { (F.outside result.now).children ≡ S.outside.children }
        ensures keeps { Keeps S.outside (F.outside result.now) }
    {
        let LentHost {
            files,
            entry: _entry,
        } = self;
        files
    }

    /// What a rule of a project returns for properties.
    #[tactic(auto, using(crate::proofs::LentHostKeeps::kept_on))]
    pub(crate) fn returned(
        &mut self,
        alloc: Global,
        loaded: &mut LoadedWorld,
        project: &Place,
        rule: &Text,
        line: u32,
        properties: &[Text],
    ) -> Result<TextList, EvalFault>
        ensures does { ReturnsOn F.outside project.now rule.now line properties.now loaded.old.world self.old.files.now self.new.files.now result }
        ensures world { loaded.new.world ≡ loaded.old.world }
        ensures same_reference { self.new.files.ghost_name ≡ self.old.files.ghost_name }
    {
        returned(
            alloc,
            &mut loaded.world,
            self.files,
            project,
            rule,
            line,
            properties,
        )
    }

    /// The text of a step of this project, in the world that loading left.
    #[tactic(auto, using(crate::proofs::LentHostKeeps::kept_on))]
    pub(crate) fn text_of(
        &mut self,
        alloc: Global,
        loaded: &mut LoadedWorld,
        project: Option<&Place>,
        job: &StepJob,
    ) -> Result<StepText, EvalFault>
        ensures does { EvaluatesOn F.outside step_answer (text_of_at (option_copied project.entry) (job_of job.now)) loaded.old.world self.old.files.now self.new.files.now result }
        ensures world { loaded.new.world ≡ loaded.old.world }
        ensures same_reference { self.new.files.ghost_name ≡ self.old.files.ghost_name }
    {
        text_of(alloc, &mut loaded.world, self.files, project, job)
    }
}
