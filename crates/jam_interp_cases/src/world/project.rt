//! Commands on own values of targets, the project's directory and the output roots.
use crate::world::texts::text_command;
use crate::world::values::name_and_value;
use jam_scope::world::World;
use std::alloc::Global;
use std::mem::ManuallyDrop;
use transcript::answer::Answer;
use transcript::case_fault::CaseFault;
use transcript::command::{Command, Word};
use transcript::words::{both, first, named, no_words, only, path, paths};

fn set_on(alloc: Global, world: &mut World, words: &[Word]) -> Result<Answer, CaseFault> {
    let (target, others) = first(words)?;
    let (name, value) = named(alloc, others)?;
    Answer::done(alloc, world.set_on(target, name, value))
}

fn append_on(alloc: Global, world: &mut World, words: &[Word]) -> Result<Answer, CaseFault> {
    let (target, others) = first(words)?;
    let (name, value) = name_and_value(alloc, others)?;
    Answer::done(alloc, world.append_on(target, name, value.as_slice()))
}

fn own_size(alloc: Global, world: &World, words: &[Word]) -> Result<Answer, CaseFault> {
    let (target, name) = both(words)?;
    Answer::number(alloc, world.own_size(target, name))
}

fn on_target(alloc: Global, world: &World, words: &[Word]) -> Result<Answer, CaseFault> {
    let (target, name) = both(words)?;
    match world.on_target(target, name) {
        Some(texts) => Answer::texts(alloc, texts),
        None => Answer::line(alloc, "none"),
    }
}

fn own_names(alloc: Global, world: &World, words: &[Word]) -> Result<Answer, CaseFault> {
    let names = ManuallyDrop::new(world.own_names(only(words)?)?);
    Answer::texts(alloc, names.as_slice())
}

fn bind_own(alloc: Global, world: &mut World, words: &[Word]) -> Result<Answer, CaseFault> {
    let target = only(words)?;
    if !world.may_leave() {
        return Answer::line(alloc, "no frame");
    }
    Answer::done(alloc, world.bind_own(target))
}

fn set_place(alloc: Global, world: &mut World, words: &[Word]) -> Result<Answer, CaseFault> {
    let dir = path(alloc, only(words)?)?;
    Answer::done(alloc, world.set_place(&dir))
}

fn add_roots(alloc: Global, world: &mut World, words: &[Word]) -> Result<Answer, CaseFault> {
    let dirs = paths(alloc, words)?;
    let added = world.add_roots(dirs.as_slice())?;
    Answer::line(alloc, if added { "added" } else { "frozen" })
}

/// Carries out a command on the project's directory and the output roots, or another one.
fn project_command(
    alloc: Global,
    world: &mut World,
    command: &Command,
) -> Result<Answer, CaseFault> {
    let words = command.words();
    match command.name() {
        "set_place" => set_place(alloc, world, words),
        "place" => Answer::line(alloc, world.place().as_str()),
        "add_roots" => add_roots(alloc, world, words),
        "freeze_roots" => {
            no_words(words)?;
            world.freeze_roots();
            Ok(Answer::new(alloc))
        }
        "roots" => Answer::paths(alloc, world.roots()),
        _ => text_command(alloc, command),
    }
}

/// Carries out a command on own values of targets, or another one.
pub fn own_command(
    alloc: Global,
    world: &mut World,
    command: &Command,
) -> Result<Answer, CaseFault> {
    let words = command.words();
    match command.name() {
        "set_on" => set_on(alloc, world, words),
        "append_on" => append_on(alloc, world, words),
        "own_size" => own_size(alloc, world, words),
        "on_target" => on_target(alloc, world, words),
        "own_names" => own_names(alloc, world, words),
        "bind_own" => bind_own(alloc, world, words),
        _ => project_command(alloc, world, command),
    }
}
