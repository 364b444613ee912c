//! Texts of steps.
use crate::evaluation::faults::push_fault;
use crate::evaluation::machine::Machine;
use crate::shown::push_signs;
use b2_base::text::Text;
use b2_base::text_list::{TextList, copy_texts, list_at};
use jam_interp::step::step_text;
use jam_interp::turns::Turns;
use jam_meaning::step::{StepJob, StepText};
use std::alloc::Global;
use std::mem::ManuallyDrop;
use transcript::answer::Answer;
use transcript::case_fault::CaseFault;
use transcript::command::Word;
use transcript::words::{lists, paths_of, text};

fn name_of(lists: &[TextList]) -> Result<Text, CaseFault> {
    match list_at(lists, 0) {
        [name] => Ok(name.copy()?),
        _ => Err(CaseFault::WrongWords),
    }
}

/// A step that is declared in a module. Its parts are held where no exit drops them until it has them all.
fn job_of(
    alloc: Global,
    module: &Text,
    words: &[Word],
) -> Result<ManuallyDrop<StepJob>, CaseFault> {
    let lists = lists(alloc, words)?;
    let lists = lists.as_slice();
    let name = ManuallyDrop::new(name_of(lists)?);
    let module = ManuallyDrop::new(module.copy()?);
    let path = text(alloc, "Jamroot")?;
    let outs = paths_of(alloc, list_at(lists, 1))?;
    let ins = paths_of(alloc, list_at(lists, 2))?;
    let props = copy_texts(alloc, list_at(lists, 3))?;
    Ok(ManuallyDrop::new(StepJob {
        name: ManuallyDrop::into_inner(name),
        module: ManuallyDrop::into_inner(module),
        path: ManuallyDrop::into_inner(path),
        outs: ManuallyDrop::into_inner(outs),
        ins: ManuallyDrop::into_inner(ins),
        props,
        line: 1,
    }))
}

fn push_step(answer: &mut Answer, step: &StepText) {
    answer.push_text(step.text.as_str());
    answer.push_paths("depends", step.depends.as_slice());
    push_signs(answer, step.always, step.notfile);
}

/// Shows the text of a step, while no step is open.
pub fn text_of_step(
    alloc: Global,
    machine: &mut Machine,
    module: &Text,
    words: &[Word],
    turns: &mut Turns,
) -> Result<Answer, CaseFault> {
    let job = job_of(alloc, module, words)?;
    if machine.world.step().is_some() {
        return Err(CaseFault::WrongWords);
    }
    let ended = ManuallyDrop::new(step_text(
        alloc,
        &mut machine.world,
        &job,
        turns,
        &mut *machine.natives,
        &mut *machine.host,
    ));
    let mut answer = Answer::new(alloc);
    match &*ended {
        Ok(step) => push_step(&mut answer, step),
        Err(fault) => push_fault(&mut answer, fault),
    }
    Ok(answer)
}
