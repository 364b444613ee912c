//! Commands on marks.
use crate::world::calls::call_command;
use crate::world::many::{counted, set_once};
use crate::world::session::Scene;
use b2_base::fault::OutOfMemory;
use jam_scope::mark::Mark;
use jam_scope::world::World;
use std::alloc::Global;
use transcript::answer::Answer;
use transcript::case_fault::CaseFault;
use transcript::command::{Command, Word};
use transcript::words::{no_words, number, only};

/// Goes back to the newest mark, and tells whether there is one.
fn roll_one_back(world: &mut World, marks: &mut Vec<Mark>) -> bool {
    match marks.pop() {
        Some(mark) if world.is_newest(&mark) => {
            world.roll_back(mark);
            true
        }
        _ => false,
    }
}

fn mark(world: &mut World, marks: &mut Vec<Mark>) -> Result<(), OutOfMemory> {
    marks.push(world.mark()?)?;
    Ok(())
}

/// Goes back so often.
fn roll_back(
    alloc: Global,
    world: &mut World,
    marks: &mut Vec<Mark>,
    count: u32,
) -> Result<Answer, CaseFault> {
    for _ in 0..count {
        if !roll_one_back(world, marks) {
            return Answer::line(alloc, "no mark");
        }
    }
    Ok(Answer::new(alloc))
}

fn marked_sets(
    alloc: Global,
    world: &mut World,
    marks: &mut Vec<Mark>,
    words: &[Word],
) -> Result<Answer, CaseFault> {
    let (count, words) = counted(words)?;
    for _ in 0..count {
        mark(world, marks)?;
        set_once(alloc, world, words)?;
    }
    Ok(Answer::new(alloc))
}

/// Carries out a command on marks, or another one.
pub fn marking_command(
    alloc: Global,
    scene: &mut Scene,
    command: &Command,
) -> Result<Answer, CaseFault> {
    let words = command.words();
    match command.name() {
        "mark" => {
            no_words(words)?;
            Answer::done(alloc, mark(&mut scene.world, &mut scene.marks))
        }
        "roll_back" => {
            no_words(words)?;
            roll_back(alloc, &mut scene.world, &mut scene.marks, 1)
        }
        "roll_backs" => {
            let count = number(only(words)?)?;
            roll_back(alloc, &mut scene.world, &mut scene.marks, count)
        }
        "marked" => Answer::yes_or_no(alloc, scene.world.marked()),
        "marked_sets" => marked_sets(alloc, &mut scene.world, &mut scene.marks, words),
        _ => call_command(alloc, scene, command),
    }
}
