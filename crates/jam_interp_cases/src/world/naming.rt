//! Commands on names and frames.
use crate::world::rules::rule_command;
use crate::world::values::name_and_value;
use b2_base::look::Look;
use jam_scope::world::World;
use std::alloc::Global;
use transcript::answer::Answer;
use transcript::case_fault::CaseFault;
use transcript::command::{Command, Word};
use transcript::words::{named, no_words, only};

fn set(alloc: Global, world: &mut World, words: &[Word]) -> Result<Answer, CaseFault> {
    let (name, value) = named(alloc, words)?;
    Answer::done(alloc, world.set(name, value))
}

fn append(alloc: Global, world: &mut World, words: &[Word]) -> Result<Answer, CaseFault> {
    let (name, value) = name_and_value(alloc, words)?;
    Answer::done(alloc, world.append(name, value.as_slice()))
}

fn bind(alloc: Global, world: &mut World, words: &[Word]) -> Result<Answer, CaseFault> {
    if !world.may_leave() {
        return Answer::line(alloc, "no frame");
    }
    let (name, value) = named(alloc, words)?;
    Answer::done(alloc, world.bind(name, value))
}

fn leave(alloc: Global, world: &mut World, words: &[Word]) -> Result<Answer, CaseFault> {
    no_words(words)?;
    if !world.may_leave() {
        return Answer::line(alloc, "no frame");
    }
    world.leave();
    Ok(Answer::new(alloc))
}

/// Carries out a command that looks at names and frames, or another one.
fn look_command(alloc: Global, world: &mut World, command: &Command) -> Result<Answer, CaseFault> {
    let words = command.words();
    match command.name() {
        "look" => Answer::texts(alloc, world.look(only(words)?)),
        "look_size" => Answer::number(alloc, world.look(only(words)?).len() as u64),
        "assigned" => Answer::texts(alloc, world.assigned(only(words)?)),
        "assigned_size" => Answer::number(alloc, world.assigned_size(only(words)?)),
        "module" => Answer::line(alloc, world.module()),
        "caller" => Answer::line(alloc, world.caller()),
        _ => rule_command(alloc, world, command),
    }
}

/// Carries out a command on names and frames, or another one.
pub fn naming_command(
    alloc: Global,
    world: &mut World,
    command: &Command,
) -> Result<Answer, CaseFault> {
    let words = command.words();
    match command.name() {
        "set" => set(alloc, world, words),
        "append" => append(alloc, world, words),
        "bind" => bind(alloc, world, words),
        "enter" => Answer::done(alloc, world.enter(only(words)?)),
        "enter_call" => Answer::done(alloc, world.enter_call(only(words)?)),
        "leave" => leave(alloc, world, words),
        _ => look_command(alloc, world, command),
    }
}
