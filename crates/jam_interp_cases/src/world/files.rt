//! Commands on files.
use crate::host_files::put_files;
use crate::world::naming::naming_command;
use crate::world::session::Scene;
use b2_base::path_list::PathList;
use b2_base::text_list::{TextList, first_of, list_at};
use b2_host::fault::IoFault;
use b2_memory::memory::{CallKind, MemoryHost};
use jam_natives::glob::{glob, project_glob};
use std::alloc::Global;
use std::mem::ManuallyDrop;
use transcript::answer::Answer;
use transcript::case_fault::CaseFault;
use transcript::command::{Command, Word};
use transcript::words::{lists, number, only, own_path, path};

/// The output roots of a new world.
fn first_roots(alloc: Global) -> Result<ManuallyDrop<PathList>, CaseFault> {
    let mut roots = PathList::new(alloc);
    for root in &["bin", "stage", "dist"] {
        roots.push(own_path(alloc, root)?)?;
    }
    Ok(ManuallyDrop::new(roots))
}

fn found(alloc: Global, found: Result<TextList, IoFault>) -> Result<Answer, CaseFault> {
    match found {
        Ok(texts) => {
            let texts = ManuallyDrop::new(texts);
            Answer::texts(alloc, texts.as_slice())
        }
        Err(IoFault::Failed) => Answer::line(alloc, "host fault"),
        Err(IoFault::OutOfMemory) => Err(CaseFault::OutOfMemory),
    }
}

fn glob_command(alloc: Global, host: &mut MemoryHost, words: &[Word]) -> Result<Answer, CaseFault> {
    let given = lists(alloc, words)?;
    let given = given.as_slice();
    let roots = first_roots(alloc)?;
    let (dirs, patterns) = (list_at(given, 0), list_at(given, 1));
    found(alloc, glob(alloc, dirs, patterns, roots.as_slice(), host))
}

fn project_glob_command(
    alloc: Global,
    host: &mut MemoryHost,
    words: &[Word],
) -> Result<Answer, CaseFault> {
    let given = lists(alloc, words)?;
    let given = given.as_slice();
    let roots = first_roots(alloc)?;
    let place = path(alloc, first_of(list_at(given, 0)))?;
    let (patterns, excluded) = (list_at(given, 1), list_at(given, 2));
    let answer = project_glob(alloc, &place, patterns, excluded, roots.as_slice(), host);
    found(alloc, answer)
}

fn fail_list(alloc: Global, host: &mut MemoryHost, words: &[Word]) -> Result<Answer, CaseFault> {
    let number = number(only(words)?)?;
    host.fail_calls([(CallKind::List, number)].as_slice())?;
    Ok(Answer::new(alloc))
}

/// Carries out a command on files, or another one.
pub fn file_command(
    alloc: Global,
    scene: &mut Scene,
    command: &Command,
) -> Result<Answer, CaseFault> {
    let words = command.words();
    match command.name() {
        "file" => put_files(alloc, &mut scene.host, command),
        "fail_list" => fail_list(alloc, &mut scene.host, words),
        "glob" => glob_command(alloc, &mut scene.host, words),
        "project_glob" => project_glob_command(alloc, &mut scene.host, words),
        _ => naming_command(alloc, &mut scene.world, command),
    }
}
