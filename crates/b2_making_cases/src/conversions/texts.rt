//! Texts of steps that show their jobs.
use b2_base::fault::OutOfMemory;
use b2_base::path::Path;
use b2_base::path_list::{PathList, copy_paths};
use b2_base::text::{Text, has_no_zero};
use b2_base::text_list::TextList;
use b2_evaluator::evaluate::Evaluate;
use jam_meaning::step::{StepJob, StepText};
use std::alloc::Global;
use std::mem::ManuallyDrop;
use transcript::answer::Answer;
use transcript::case_fault::CaseFault;
use transcript::command::Word;
use transcript::words::own_texts;

/// Why a step has no text.
#[derive(Drop)]
pub enum TextFault {
    /// The step of this name is to have none.
    NoText(Text),
    OutOfMemory,
}

impl From<OutOfMemory> for TextFault {
    fn from(_error: OutOfMemory) -> TextFault {
        TextFault::OutOfMemory
    }
}

/// The names of the steps that have no text, and what the rules of the others note.
#[derive(Drop)]
pub struct Texts {
    pub alloc: Global,
    pub without: TextList,
    pub noted: PathList,
}

/// Adds the sign `|`, and after it each path.
fn push_paths(shown: &mut String, paths: &[Path]) -> Result<(), OutOfMemory> {
    shown.push_str(" |")?;
    for path in paths {
        shown.push(' ')?;
        shown.push_str(path.as_str())?;
    }
    Ok(())
}

/// Adds the sign `|`, and after it each property.
fn push_properties(shown: &mut String, properties: &[Text]) -> Result<(), OutOfMemory> {
    shown.push_str(" |")?;
    for property in properties {
        shown.push(' ')?;
        shown.push_str(property.as_str())?;
    }
    Ok(())
}

fn push_job(shown: &mut String, job: &StepJob) -> Result<(), OutOfMemory> {
    let module = job.module.as_str();
    let path = job.path.as_str();
    let line = job.line;
    write!(shown, "{module} {path}:{line}")?;
    push_paths(shown, job.outs.as_slice())?;
    push_paths(shown, job.ins.as_slice())?;
    push_properties(shown, job.props.as_slice())
}

fn job_text(alloc: Global, job: &StepJob) -> Result<Text, TextFault> {
    let mut shown = ManuallyDrop::new(String::new(alloc));
    push_job(&mut shown, job)?;
    let text = shown.as_str();
    if has_no_zero(text) {
        return Ok(Text::new(alloc, text)?);
    }
    Err(TextFault::NoText(job.name.copy()?))
}

fn has(names: &[Text], name: &Text) -> bool {
    for one in names {
        if one == name {
            return true;
        }
    }
    false
}

fn text_of(texts: &Texts, job: &StepJob) -> Result<StepText, TextFault> {
    if has(texts.without.as_slice(), &job.name) {
        return Err(TextFault::NoText(job.name.copy()?));
    }
    Ok(StepText {
        text: job_text(texts.alloc, job)?,
        depends: copy_paths(texts.alloc, texts.noted.as_slice())?,
        always: false,
        notfile: false,
    })
}

impl Texts {
    /// No step is without a text, and nothing is noted.
    pub fn new(alloc: Global) -> Texts {
        Texts {
            alloc,
            without: TextList::new(alloc),
            noted: PathList::new(alloc),
        }
    }

    /// Puts names in the place of those of the steps that have no text.
    pub fn put_names(&mut self, alloc: Global, words: &[Word]) -> Result<Answer, CaseFault> {
        self.without = own_texts(alloc, words)?;
        Ok(Answer::new(alloc))
    }
}

impl Evaluate for Texts {
    ghost use Rattle.std.specs.Prelude.{None, false};

    type Fault = TextFault;

    ghost answers = { λ _. None };

    ghost Kept = { Unit {0} };

    ghost kept = { λ _. tt };

    ghost faults = { λ _. 0 };

    ghost is_host_fault = { λ _. false };

    ghost is_out_of_memory = { λ _. false };

    ghost CanFault = { λ _ _. Unit {0} };

    fn returned(
        &mut self,
        _project: usize,
        rule: &Text,
        _line: u32,
        _properties: &[Text],
    ) -> Result<TextList, TextFault> {
        Err(TextFault::NoText(rule.copy()?))
    }

    fn step_text(&mut self, job: &StepJob) -> Result<StepText, TextFault> {
        text_of(self, job)
    }
}
