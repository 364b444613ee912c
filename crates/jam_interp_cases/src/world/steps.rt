//! Commands on the notes of a step.
use crate::shown::push_signs;
use crate::world::project::own_command;
use jam_scope::notes::StepNotes;
use jam_scope::world::World;
use std::alloc::Global;
use transcript::answer::Answer;
use transcript::case_fault::CaseFault;
use transcript::command::{Command, Word};
use transcript::words::{halves, no_words, only, own_path, paths};

fn open_step(alloc: Global, world: &mut World, words: &[Word]) -> Result<Answer, CaseFault> {
    let (outs, ins) = halves(words);
    let outs = paths(alloc, outs)?;
    let ins = paths(alloc, ins)?;
    if world.step().is_some() {
        return Answer::line(alloc, "open");
    }
    Answer::done(alloc, world.open_step(outs.as_slice(), ins.as_slice()))
}

fn push_notes(answer: &mut Answer, notes: &StepNotes) {
    answer.push_paths("out", notes.outs.as_slice());
    answer.push_paths("in", notes.ins.as_slice());
    answer.push_paths("added", notes.depends.as_slice());
    push_signs(answer, notes.always, notes.notfile);
}

fn step(alloc: Global, world: &World) -> Result<Answer, CaseFault> {
    let mut answer = Answer::new(alloc);
    match world.step() {
        Some(notes) => push_notes(&mut answer, notes),
        None => answer.push_line("none"),
    }
    Ok(answer)
}

/// Carries out a command on a step, or another one.
pub fn step_command(
    alloc: Global,
    world: &mut World,
    command: &Command,
) -> Result<Answer, CaseFault> {
    let words = command.words();
    match command.name() {
        "open_step" => open_step(alloc, world, words),
        "step" => {
            no_words(words)?;
            step(alloc, world)
        }
        "add_depends" => {
            let path = own_path(alloc, only(words)?)?;
            Answer::done(alloc, world.add_depends(path))
        }
        "set_always" => {
            no_words(words)?;
            world.set_always();
            Ok(Answer::new(alloc))
        }
        "set_notfile" => {
            no_words(words)?;
            world.set_notfile();
            Ok(Answer::new(alloc))
        }
        _ => own_command(alloc, world, command),
    }
}
