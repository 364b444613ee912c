//! Questions of a loaded project's own text.
ghost use Rattle.std.specs.Prelude.{◌≡◌, IfOk};
ghost use Rattle.jam_meaning.specs.StepJobs.{job_of};
ghost use Rattle.b2_own_text.specs.Questions.{is_rule, is_same_job, is_step};
ghost use Rattle.b2_own_text.specs.declared.question.Question.TheVariants.{OfRule, OfStep};

use b2_base::fault::OutOfMemory;
use b2_base::path_list::copy_paths;
use b2_base::text::Text;
use b2_base::text_list::{TextList, copy_texts};
use jam_meaning::step::StepJob;
use std::alloc::Global;

/// A question of a loaded project's own text.
pub enum Question {
    /// What a rule of the project at a place returns for the texts of properties, where it was named at this line of the project's
    /// file.
    OfRule {
        project: usize,
        rule: Text,
        line: u32,
        properties: TextList,
    },
    /// The text of a step, and what its rule noted.
    OfStep(StepJob),
}

// By hand, so that dropping a question is one call of this proved function: a derived drop would be taken apart at each exit, with a
// case for each kind of question.
impl Drop for Question {
    fn drop(self) {
        match self {
            Question::OfRule {
                project: _project,
                rule: _rule,
                line: _line,
                properties: _properties,
            } => {}
            Question::OfStep(job) => drop(job),
        }
    }
}

/// Whether all that two steps are is equal; takes no memory.
fn is_same_job(a: &StepJob, b: &StepJob) -> bool
    ensures { result ≡ is_same_job (job_of a.now) (job_of b.now) }
{
    a.name == b.name
        && a.module == b.module
        && a.path == b.path
        && a.line == b.line
        && a.outs.as_slice() == b.outs.as_slice()
        && a.ins.as_slice() == b.ins.as_slice()
        && a.props.as_slice() == b.props.as_slice()
}

impl Question {
    /// What a rule of the project at a place returns for properties, as a question.
    pub(crate) fn of_rule(
        alloc: Global,
        project: usize,
        rule: &Text,
        line: u32,
        properties: &[Text],
    ) -> Result<Question, OutOfMemory>
        ensures { IfOk result (λ question. question ≡ OfRule project rule.now line properties.now) }
    {
        Ok(Question::OfRule {
            project,
            rule: rule.copy()?,
            line,
            properties: copy_texts(alloc, properties)?,
        })
    }

    /// The text of a step, as a question.
    pub(crate) fn of_step(alloc: Global, job: &StepJob) -> Result<Question, OutOfMemory>
        ensures { IfOk result (λ question. question ≡ OfStep job.now) }
    {
        Ok(Question::OfStep(StepJob {
            name: job.name.copy()?,
            module: job.module.copy()?,
            path: job.path.copy()?,
            outs: copy_paths(alloc, job.outs.as_slice())?,
            ins: copy_paths(alloc, job.ins.as_slice())?,
            props: copy_texts(alloc, job.props.as_slice())?,
            line: job.line,
        }))
    }

    /// Whether it is what this rule returns for these properties; takes no memory.
    pub(crate) fn is_rule(
        &self,
        project: usize,
        rule: &Text,
        line: u32,
        properties: &[Text],
    ) -> bool
        ensures { result ≡ is_rule self.now project rule.now line properties.now }
    {
        match self {
            Question::OfRule {
                project: own_project,
                rule: own_rule,
                line: own_line,
                properties: own_properties,
            } => {
                project == *own_project
                    && rule == own_rule
                    && line == *own_line
                    && properties == own_properties.as_slice()
            }
            Question::OfStep(_) => false,
        }
    }

    /// Whether it is the text of this step; takes no memory.
    pub(crate) fn is_step(&self, job: &StepJob) -> bool
        ensures { result ≡ is_step self.now (job_of job.now) }
    {
        match self {
            Question::OfRule { .. } => false,
            Question::OfStep(own) => is_same_job(job, own),
        }
    }
}
