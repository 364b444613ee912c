//! The texts of actions.
ghost use Rattle.std.specs.Prelude.{◌≡◌, ◌∷◌, [], IfOk, string_bytes};
ghost use Rattle.std.specs.Option.{option_copied};
ghost use Rattle.b2_base.specs.Bytes.{HasNoZero};
ghost use Rattle.jam_expand.specs.Bodies.{body_expansion};
ghost use Rattle.jam_meaning.specs.Rolled.{is_text, own_at, noted as noted_of};
ghost use Rattle.jam_effects.specs.Answers.{IsAnswered};
ghost use Rattle.jam_meaning.specs.StepJobs.{job_of, step_answer};
ghost use Rattle.jam_effects.specs.Rolling.{names_here, IsStepText};
ghost use Rattle.jam_effects.specs.Spots.{spot_of};

use crate::at::At;
use crate::fault::EvalFault;
use crate::natives::unknown_rule;
use crate::words::expand_fault;
use b2_base::fault::OutOfMemory;
use b2_base::look::Look;
use b2_base::path::Path;
use b2_base::path_list::{PathList, copy_paths};
use b2_base::text::Text;
use b2_base::text_list::{TextList, copy_texts};
use jam_expand::body::expand_body;
use jam_meaning::step::{StepJob, StepText};
use jam_scope::notes::StepNotes;
use jam_scope::world::World;
use jam_values::lists::TextLists;
use std::alloc::Global;

/// What names stand for in the body of actions.
#[derive(Drop)]
struct StepNames<'a> {
    world: &'a World,
    outs: &'a [Text],
    ins: &'a [Text],
}

/// Whether a name is one of two bytes.
fn is_either(name: &str, first: u8, second: u8) -> bool
    ensures { result ≡ is_text first second name.now }
{
    match name.as_bytes() {
        [byte] => *byte == first || *byte == second,
        _ => false,
    }
}

/// The own value that the first of some targets has for a name. Takes no memory.
fn own<'a>(world: &'a World, targets: &[Text], name: &str) -> Option<&'a [Text]>
    ensures { option_copied result ≡ own_at targets.now name.now world.now.now }
{
    match targets {
        [] => None,
        [target, ..] => world.on_target(target.as_str(), name),
    }
}

impl Look for StepNames<'_> {
    ghost use Rattle.jam_effects.specs.Rolling.{names_here};

    ghost answer = { λ names name. names_here names.outs.now names.ins.now names.world.now.now name };

    /// `<` and `1` stand for the outputs, `>` and `2` for the inputs; others for the own value of the first output, and else for
    /// what they are in the present module.
    fn look(&self, name: &str) -> &[Text] {
        if is_either(name, b'<', b'1') {
            return self.outs;
        }
        if is_either(name, b'>', b'2') {
            return self.ins;
        }
        match own(self.world, self.outs, name) {
            Some(value) => value,
            None => self.world.look(name),
        }
    }
}

fn texts_of(alloc: Global, paths: &[Path]) -> Result<TextList, OutOfMemory>
    ensures { IfOk result (λ made. made ≡ paths.now) }
{
    let mut made = Vec::new(alloc);
    for path in paths {
        made.push(path.as_text().copy()?)?;
    }
    Ok(TextList::from_vec(made))
}

/// The lists of the call of a step's rule.
pub fn lists_of(alloc: Global, job: &StepJob) -> Result<TextLists, OutOfMemory>
    ensures { IfOk result (λ made. made ≡ job.now.outs ∷ job.now.ins ∷ job.now.props ∷ []) }
{
    let mut lists = TextLists::new(alloc);
    lists.push(texts_of(alloc, job.outs.as_slice())?)?;
    lists.push(texts_of(alloc, job.ins.as_slice())?)?;
    lists.push(copy_texts(alloc, job.props.as_slice())?)?;
    Ok(lists)
}

/// What a body stands for, in the module of the newest frame.
fn expanded(
    alloc: Global,
    world: &World,
    body: &str,
    outs: &[Text],
    ins: &[Text],
    at: &At<'_>,
) -> Result<Text, EvalFault>
    requires { HasNoZero body.now }
    ensures { IsAnswered (λ text. text) (body_expansion (names_here outs.now ins.now world.now.now) body.now) (spot_of at.now) result }
{
    let names = StepNames { world, outs, ins };
    match expand_body(alloc, body, &names) {
        Ok(text) => Ok(text),
        Err(fault) => Err(expand_fault(fault, at)),
    }
}

/// The answer for a step of which this is noted.
fn noted(alloc: Global, text: Text, notes: Option<&StepNotes>) -> Result<StepText, OutOfMemory>
    ensures { IfOk result (λ step. step_answer step ≡ noted_of text (option_copied notes.entry)) }
{
    match notes {
        None => Ok(StepText {
            text,
            depends: PathList::new(alloc),
            always: false,
            notfile: false,
        }),
        Some(notes) => Ok(StepText {
            text,
            depends: copy_paths(alloc, notes.depends.as_slice())?,
            always: notes.always,
            notfile: notes.notfile,
        }),
    }
}

fn copy_text(alloc: Global, text: &str) -> Result<String, OutOfMemory>
    ensures { IfOk result (λ made. string_bytes made ≡ text.now) }
{
    Ok(String::from_str(alloc, text)?)
}

/// The text of the actions of the step's name, expanded in the module that has them. A frame of it is opened, which stays.
pub fn actions_text(
    alloc: Global,
    world: &mut World,
    job: &StepJob,
    at: &At<'_>,
) -> Result<StepText, EvalFault>
    ensures marked { world.new.marked ≡ world.old.marked }
    ensures answer { IsStepText (job_of job.now) (spot_of at.now) world.old.now result }
{
    let Some(found) = world.find_actions(job.name.as_str()) else {
        return Err(unknown_rule(&job.name, at));
    };
    let Some(actions) = world.action_body(&found) else {
        return Err(unknown_rule(&job.name, at));
    };
    let body = actions.text().copy()?;
    let module = copy_text(alloc, found.module)?;
    let outs = texts_of(alloc, job.outs.as_slice())?;
    let ins = texts_of(alloc, job.ins.as_slice())?;
    world.enter(module.as_str())?;
    let text = expanded(
        alloc,
        world,
        body.as_str(),
        outs.as_slice(),
        ins.as_slice(),
        at,
    )?;
    Ok(noted(alloc, text, world.step())?)
}
