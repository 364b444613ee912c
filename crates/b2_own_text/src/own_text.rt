//! A loaded project's own text.
ghost use Rattle.std.specs.Prelude.{◌≡◌, slice_get};
ghost use Rattle.std.specs.Option.{option_copied};
ghost use Rattle.b2_own_text.specs.Worlds.{with_module};

use crate::lending_moment::LendingMoment;
use crate::lent_host::LentHost;
use crate::loaded_world::LoadedWorld;
use crate::question::Question;
use crate::refused::is_refused;
use b2_base::fault::OutOfMemory;
use b2_base::text::Text;
use b2_base::text_list::TextList;
use b2_declared::place::Place;
use b2_evaluator::evaluate::Evaluate;
use b2_host::files::Files;
use jam_effects::fault::EvalFault;
use jam_meaning::step::{StepJob, StepText};
use jam_scope::world::World;
use std::alloc::Global;

/// The project at a place; takes no memory.
fn project_at(projects: &[Place], place: usize) -> Option<&Place>
    ensures { option_copied result ≡ slice_get projects.now place }
{
    projects.get(place)
}

/// The project whose module this is; takes no memory.
fn with_module<'a>(projects: &'a [Place], owner: &Text) -> Option<&'a Place>
    ensures { option_copied result ≡ with_module owner.now projects.now }
{
    projects.iter().find(|project| project.module == *owner)
}

/// The own text of a loaded project, evaluated in the world that loading left, over files that are lent. Each evaluation has
/// 100,000 turns of its own; what it echoes is not kept.
///
/// Where the files are visible, each answer is the one that evaluation gives (`told_in`), unless a call of the host failed, memory ran
/// out, or a pattern was refused although it reads as one. The newest question with such a pattern is kept, so that it can be asked
/// again by itself.
///
/// A rule of an indirect requirement runs in the directory of its project, and so does the rule of a step; the place is then as
/// before.
///
/// A project is named by its place; where none is there, nothing is returned. A name that the project sees no rule of is
/// `UnknownRule`. This, and any other fault of a rule's call that occurs while no statement runs, stands at the project's file and the
/// line that was given.
#[derive(Drop)]
pub struct OwnText<'a, F: Files, S: LendingMoment> {
    alloc: Global,
    pub projects: &'a [Place],
    pub loaded: LoadedWorld,
    pub host: LentHost<'a, F, S>,
    refused: Option<Question>,
}

impl<'a, F: Files, S: LendingMoment> OwnText<'a, F, S> {
    ghost use Rattle.std.specs.Prelude.{◌≡◌, is_some, false, IfErr};
    ghost use Rattle.b2_host.specs.OutsideLaws.{Keeps};
    ghost use Rattle.b2_base.specs.Counts.{IsCounted};
    ghost use Rattle.b2_own_text.specs.AskedQuestions.{AsksRule, AsksStep, EndsOn, IsAsked};
    ghost use Rattle.b2_own_text.specs.Faults.{is_host_fault, is_out_of_memory};
    ghost use Rattle.b2_own_text.specs.Worlds.{told_in};

    /// The own text of these projects, whose files left a world in which no step is open. The host is what `S` says.
    pub fn new(
        alloc: Global,
        projects: &'a [Place],
        world: World,
        files: &'a mut F,
    ) -> OwnText<'a, F, S>
        requires entry { F.outside files.old ≡ S.outside }
        requires closed { is_some world.now.step ≡ false }
        ensures projects { result.projects.now ≡ projects.now }
        ensures world { result.loaded.world ≡ world }
        ensures same_reference { result.host.files.ghost_name ≡ files.entry.ghost_name }
        ensures files { result.host.files.now ≡ files.old }
    {
        OwnText {
            alloc,
            projects,
            loaded: LoadedWorld { world },
            host: LentHost::new(files),
            refused: None,
        }
    }

    /// What a rule of the project at a place returns for properties.
    fn value_of(
        &mut self,
        place: usize,
        rule: &Text,
        line: u32,
        texts: &[Text],
    ) -> Result<TextList, EvalFault>
        ensures asks { AsksRule F.outside place rule.now line texts.now self.old.projects.now self.old.loaded.world self.old.host.files self.new.host.files result }
        ensures projects { self.new.projects.now ≡ self.old.projects.now }
        ensures world { self.new.loaded.world ≡ self.old.loaded.world }
        ensures same_reference { self.new.host.files.ghost_name ≡ self.old.host.files.ghost_name }
    {
        let Some(project) = project_at(self.projects, place) else {
            return Ok(TextList::new(self.alloc));
        };
        let loaded = &mut self.loaded;
        self.host
            .returned(self.alloc, loaded, project, rule, line, texts)
    }

    /// Asks the own text of the projects for the command of a step.
    fn text_of(&mut self, job: &StepJob) -> Result<StepText, EvalFault>
        ensures asks { AsksStep F.outside job.now self.old.projects.now self.old.loaded.world self.old.host.files self.new.host.files result }
        ensures projects { self.new.projects.now ≡ self.old.projects.now }
        ensures world { self.new.loaded.world ≡ self.old.loaded.world }
        ensures same_reference { self.new.host.files.ghost_name ≡ self.old.host.files.ghost_name }
    {
        let project = with_module(self.projects, &job.module);
        let loaded = &mut self.loaded;
        self.host.text_of(self.alloc, loaded, project, job)
    }

    /// Keeps a question in which a pattern was refused; none where no memory was left to copy it.
    fn keep(&mut self, question: Result<Question, OutOfMemory>)
        ensures projects { self.new.projects.now ≡ self.old.projects.now }
        ensures world { self.new.loaded.world ≡ self.old.loaded.world }
        ensures same_reference { self.new.host.files.ghost_name ≡ self.old.host.files.ghost_name }
        ensures files { self.new.host.files.now ≡ self.old.host.files.now }
    {
        self.refused = question.ok();
    }

    /// Takes the newest question in which a pattern was refused although it reads as one; none where there was none since the last
    /// call, or no memory was left to copy it.
    pub fn take_refused(&mut self) -> Option<Question>
        ensures projects { self.new.projects.now ≡ self.old.projects.now }
        ensures world { self.new.loaded.world ≡ self.old.loaded.world }
        ensures same_reference { self.new.host.files.ghost_name ≡ self.old.host.files.ghost_name }
        ensures files { self.new.host.files.now ≡ self.old.host.files.now }
    {
        self.refused.take()
    }

    /// Asks a question by itself, and tells whether it has an answer, or the fault that it ends with. The answer is dropped, and
    /// where a pattern is refused, the question is not kept.
    pub fn ask(&mut self, question: &Question) -> Result<(), EvalFault>
        ensures told { IsAsked (told_in self.old.projects.now self.old.loaded.world (F.outside self.old.host.files.now).disk) question.now result }
        ensures refused { IfErr result (EndsOn F.outside question.now self.old.projects.now self.old.loaded.world self.old.host.files) }
        ensures counted { IsCounted is_host_fault is_out_of_memory (F.outside self.old.host.files.now).faults (F.outside self.new.host.files.now).faults result }
        ensures disk { (F.outside self.new.host.files.now).disk ≡ (F.outside self.old.host.files.now).disk }
        ensures children { (F.outside self.new.host.files.now).children ≡ (F.outside self.old.host.files.now).children }
        ensures projects { self.new.projects.now ≡ self.old.projects.now }
        ensures world { self.new.loaded.world ≡ self.old.loaded.world }
        ensures same_reference { self.new.host.files.ghost_name ≡ self.old.host.files.ghost_name }
    {
        match question {
            Question::OfRule {
                project,
                rule,
                line,
                properties,
            } => {
                self.value_of(*project, rule, *line, properties.as_slice())?;
            }
            Question::OfStep(job) => {
                self.text_of(job)?;
            }
        }
        Ok(())
    }

    /// Gives the host back. Its files and child processes are as they were at first, and no count of its failures fell.
    pub fn into_files(self) -> &'a mut F
        ensures same_reference { result.ghost_name ≡ self.entry.host.files.ghost_name }
        ensures files { result.now ≡ self.entry.host.files.now }
        ensures disk { (F.outside result.now).disk ≡ S.outside.disk }
        ensures children { (F.outside result.now).children ≡ S.outside.children }
        ensures keeps { Keeps S.outside (F.outside result.now) }
    {
        let OwnText {
            alloc: _alloc,
            projects: _projects,
            loaded,
            host,
            refused: _refused,
        } = self;
        loaded.leave_world();
        host.into_files()
    }
}

impl<'a, F: Files, S: LendingMoment> Evaluate for OwnText<'a, F, S> {
    ghost use Rattle.b2_own_text.specs.Faults.{is_host_fault, is_out_of_memory};
    ghost use Rattle.b2_own_text.specs.KeptState.{Held, held, CanEndWith};
    ghost use Rattle.b2_own_text.specs.Worlds.{told_in};

    type Fault = EvalFault;

    ghost answers = { λ own. told_in own.projects.now own.loaded.world (F.outside own.host.files.now).disk };

    ghost Kept = { Held };

    ghost kept = { λ own. held own.projects.now own.loaded.world own.host.files.ghost_name (F.outside own.host.files.now) };

    ghost faults = { λ own. (F.outside own.host.files.now).faults };

    ghost is_host_fault = { is_host_fault };

    ghost is_out_of_memory = { is_out_of_memory };

    ghost CanFault = { CanEndWith };

    fn returned(
        &mut self,
        project: usize,
        rule: &Text,
        line: u32,
        properties: &[Text],
    ) -> Result<TextList, EvalFault> {
        match self.value_of(project, rule, line, properties) {
            Ok(value) => Ok(value),
            Err(fault) => {
                if !is_refused(&fault) {
                    return Err(fault);
                }
                self.keep(Question::of_rule(self.alloc, project, rule, line, properties));
                Err(fault)
            }
        }
    }

    fn step_text(&mut self, job: &StepJob) -> Result<StepText, EvalFault> {
        match self.text_of(job) {
            Ok(text) => Ok(text),
            Err(fault) => {
                if !is_refused(&fault) {
                    return Err(fault);
                }
                self.keep(Question::of_step(self.alloc, job));
                Err(fault)
            }
        }
    }
}
