//! Commands on paths.
use crate::host::plan_commands::plan_command;
use b2_base::path::{Path, PathFault};
use b2_base::path_list::{PathList, copy_paths};
use b2_memory::memory::MemoryHost;
use std::alloc::Global;
use std::cmp::Ordering;
use std::mem::ManuallyDrop;
use transcript::answer::Answer;
use transcript::case_fault::CaseFault;
use transcript::command::{Command, Word};
use transcript::words::{both, only, path, paths};

/// `normal TEXT`: the normal form.
fn normal(alloc: Global, words: &[Word]) -> Result<Answer, CaseFault> {
    match Path::normal(alloc, only(words)?) {
        Ok(path) => {
            let path = ManuallyDrop::new(path);
            Answer::line(alloc, path.as_str())
        }
        Err(PathFault::Empty) => Answer::line(alloc, "Empty"),
        Err(PathFault::Nul) => Answer::line(alloc, "Nul"),
        Err(PathFault::OutOfMemory) => Err(CaseFault::OutOfMemory),
    }
}

/// `under PATH DIR`: whether the path lies below the folder.
fn under(alloc: Global, words: &[Word]) -> Result<Answer, CaseFault> {
    let (one, dir) = both(words)?;
    let (path, dir) = (path(alloc, one)?, path(alloc, dir)?);
    Answer::truth(alloc, path.under(&dir))
}

fn order_name(order: Ordering) -> &'static str {
    match order {
        Ordering::Less => "Less",
        Ordering::Equal => "Equal",
        Ordering::Greater => "Greater",
    }
}

/// `cmp PATH PATH`: how a copy of the first one stands to the second.
fn cmp(alloc: Global, words: &[Word]) -> Result<Answer, CaseFault> {
    let (one, other) = both(words)?;
    let one = path(alloc, one)?;
    let other = path(alloc, other)?;
    let copy = ManuallyDrop::new(one.copy()?);
    Answer::line(alloc, order_name(copy.cmp(&other)))
}

/// `paths PATH ..`: a copy of a list of paths, made of a vector of them again.
fn path_list(alloc: Global, words: &[Word]) -> Result<Answer, CaseFault> {
    let given = paths(alloc, words)?;
    let copies = copy_paths(alloc, given.as_slice())?;
    let list = ManuallyDrop::new(PathList::from_vec(copies.into_vec()));
    Answer::paths(alloc, list.as_slice())
}

/// Carries out a command on paths, or another one.
pub fn path_command(
    alloc: Global,
    host: &mut MemoryHost,
    command: &Command,
) -> Result<Answer, CaseFault> {
    let words = command.words();
    match command.name() {
        "normal" => normal(alloc, words),
        "under" => under(alloc, words),
        "cmp" => cmp(alloc, words),
        "paths" => path_list(alloc, words),
        _ => plan_command(alloc, host, command),
    }
}
