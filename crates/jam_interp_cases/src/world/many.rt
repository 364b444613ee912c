//! Commands that make many calls.
use crate::world::steps::step_command;
use crate::world::values::name_and_value;
use jam_scope::world::World;
use std::alloc::Global;
use transcript::answer::Answer;
use transcript::case_fault::CaseFault;
use transcript::command::{Command, Word};
use transcript::words::{first, named, number};

/// How often a command is carried out, and its other words.
pub fn counted(words: &[Word]) -> Result<(u32, &[Word]), CaseFault> {
    let (count, others) = first(words)?;
    Ok((number(count)?, others))
}

/// Sets a name to what follows it in the words.
pub fn set_once(alloc: Global, world: &mut World, words: &[Word]) -> Result<(), CaseFault> {
    let (name, value) = named(alloc, words)?;
    world.set(name, value)?;
    Ok(())
}

fn sets(alloc: Global, world: &mut World, words: &[Word]) -> Result<Answer, CaseFault> {
    let (count, words) = counted(words)?;
    for _ in 0..count {
        set_once(alloc, world, words)?;
    }
    Ok(Answer::new(alloc))
}

fn appends(alloc: Global, world: &mut World, words: &[Word]) -> Result<Answer, CaseFault> {
    let (count, words) = counted(words)?;
    let (name, value) = name_and_value(alloc, words)?;
    for _ in 0..count {
        world.append(name, value.as_slice())?;
    }
    Ok(Answer::new(alloc))
}

fn appends_on(alloc: Global, world: &mut World, words: &[Word]) -> Result<Answer, CaseFault> {
    let (count, others) = counted(words)?;
    let (target, others) = first(others)?;
    let (name, value) = name_and_value(alloc, others)?;
    for _ in 0..count {
        world.append_on(target, name, value.as_slice())?;
    }
    Ok(Answer::new(alloc))
}

/// Carries out a command that makes many calls, or another one.
pub fn many_command(
    alloc: Global,
    world: &mut World,
    command: &Command,
) -> Result<Answer, CaseFault> {
    let words = command.words();
    match command.name() {
        "sets" => sets(alloc, world, words),
        "appends" => appends(alloc, world, words),
        "appends_on" => appends_on(alloc, world, words),
        _ => step_command(alloc, world, command),
    }
}
