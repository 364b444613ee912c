//! Commands that let steps join.
use crate::outputs::paths::path_command;
use crate::outputs::shown::{number_answer, refused};
use b2_base::path_list::PathList;
use b2_plan::step::Step;
use b2_virtual::builder::Builder;
use std::alloc::Global;
use std::mem::ManuallyDrop;
use transcript::answer::Answer;
use transcript::case_fault::CaseFault;
use transcript::command::{Command, Word};
use transcript::words::{both, halves, number, only, own_path, own_paths, own_text};

/// A step of a name and a text alone.
fn bare(alloc: Global, name: &str, words: &str) -> Result<Step, CaseFault> {
    let name = own_text(alloc, name)?;
    let text = own_text(alloc, words)?;
    Ok(Step {
        name,
        text,
        outs: PathList::new(alloc),
        ins: PathList::new(alloc),
        dirs: PathList::new(alloc),
        always: false,
        notfile: false,
    })
}

fn has(words: &[Word], name: &str) -> bool {
    for word in words {
        if word.bytes() == name.as_bytes() {
            return true;
        }
    }
    false
}

/// Gives a step what `OUTS : INS : DIRS : FLAGS` tells.
fn fill(alloc: Global, step: &mut Step, words: &[Word]) -> Result<(), CaseFault> {
    let (outs, rest) = halves(words);
    let (ins, rest) = halves(rest);
    let (dirs, flags) = halves(rest);
    step.outs = own_paths(alloc, outs)?;
    step.ins = own_paths(alloc, ins)?;
    step.dirs = own_paths(alloc, dirs)?;
    step.always = has(flags, "always");
    step.notfile = has(flags, "notfile");
    Ok(())
}

/// The step that `NAME TEXT : OUTS : INS : DIRS : FLAGS` tells.
fn step_of(alloc: Global, words: &[Word]) -> Result<Step, CaseFault> {
    let (head, rest) = halves(words);
    let (name, text) = both(head)?;
    let mut step = bare(alloc, name, text)?;
    fill(alloc, &mut step, rest)?;
    Ok(step)
}

/// A step of its own.
fn add(alloc: Global, builder: &mut Builder, words: &[Word]) -> Result<Answer, CaseFault> {
    let added = ManuallyDrop::new(builder.add(step_of(alloc, words)?));
    number_answer(alloc, &added)
}

/// A step that writes one path.
fn note(alloc: Global, out: &str) -> Result<Step, CaseFault> {
    let out = own_path(alloc, out)?;
    let mut step = bare(alloc, "note", "true")?;
    step.outs.push(out)?;
    Ok(step)
}

fn numbered_note(alloc: Global, number: u32) -> Result<Step, CaseFault> {
    note(alloc, format!(in alloc; "bin/{number}")?.as_str())
}

/// Numbered steps, up to the first that is refused.
fn add_each(alloc: Global, builder: &mut Builder, words: &[Word]) -> Result<Answer, CaseFault> {
    let (from, to) = both(words)?;
    let mut last = 0;
    for count in number(from)?..=number(to)? {
        let added = ManuallyDrop::new(builder.add(numbered_note(alloc, count)?));
        match &*added {
            Ok(number) => last = *number,
            Err(fault) => return refused(alloc, fault),
        }
    }
    Answer::number(alloc, u64::from(last))
}

fn deep_path(alloc: Global, segments: u32) -> Result<String, CaseFault> {
    let mut path = String::from_str(alloc, "bin")?;
    for _ in 1..segments {
        path.push_str("/d")?;
    }
    Ok(path)
}

/// A step whose output has so many segments.
fn add_deep(alloc: Global, builder: &mut Builder, count: &str) -> Result<Answer, CaseFault> {
    let path = ManuallyDrop::new(deep_path(alloc, number(count)?)?);
    let added = ManuallyDrop::new(builder.add(note(alloc, path.as_str())?));
    number_answer(alloc, &added)
}

/// Carries out a command that lets steps join, or else one on paths.
pub fn adding_command(
    alloc: Global,
    builder: &mut Builder,
    command: &Command,
) -> Result<Answer, CaseFault> {
    let words = command.words();
    match command.name() {
        "add" => add(alloc, builder, words),
        "add_each" => add_each(alloc, builder, words),
        "add_deep" => add_deep(alloc, builder, only(words)?),
        _ => path_command(alloc, command),
    }
}
