//! Edits of the host in memory, and the stamps of its files.
use crate::host::child_commands::child_command;
use b2_base::path::Path;
use b2_host::fault::Failed;
use b2_host::files::Files;
use b2_memory::memory::MemoryHost;
use std::alloc::Global;
use transcript::answer::Answer;
use transcript::case_fault::CaseFault;
use transcript::command::{Command, Word};
use transcript::words::{only, path};

fn edit_file(
    alloc: Global,
    host: &mut MemoryHost,
    path: &Path,
    bytes: Option<&[u8]>,
) -> Result<Answer, CaseFault> {
    if !host.running().is_empty() {
        return Answer::line(alloc, "a child runs");
    }
    host.edit(path, bytes)?;
    Ok(Answer::new(alloc))
}

/// `edit PATH BYTES`, or `edit PATH` with the text below it: writes a file. It needs that no child runs.
fn edit(alloc: Global, host: &mut MemoryHost, command: &Command) -> Result<Answer, CaseFault> {
    match command.words() {
        [word] => {
            let path = path(alloc, word.as_str()?)?;
            edit_file(alloc, host, &path, Some(command.text().as_bytes()))
        }
        [word, bytes] => {
            let path = path(alloc, word.as_str()?)?;
            edit_file(alloc, host, &path, Some(bytes.bytes()))
        }
        _ => Err(CaseFault::WrongWords),
    }
}

/// `delete PATH`: an edit that deletes. It needs that no child runs.
fn delete(alloc: Global, host: &mut MemoryHost, words: &[Word]) -> Result<Answer, CaseFault> {
    let path = path(alloc, only(words)?)?;
    edit_file(alloc, host, &path, None)
}

/// `stat PATH`: the stamp of the file there.
fn stat(alloc: Global, host: &mut MemoryHost, words: &[Word]) -> Result<Answer, CaseFault> {
    let path = path(alloc, only(words)?)?;
    match host.stat(&path) {
        Ok(None) => Answer::line(alloc, "none"),
        Ok(Some(stamp)) => {
            let mut answer = Answer::new(alloc);
            answer.put("stamp ");
            answer.put_number(stamp);
            answer.end_line();
            Ok(answer)
        }
        Err(Failed) => Answer::line(alloc, "Failed"),
    }
}

/// Carries out an edit, or a look at a stamp, or another command.
pub fn file_command(
    alloc: Global,
    host: &mut MemoryHost,
    command: &Command,
) -> Result<Answer, CaseFault> {
    let words = command.words();
    match command.name() {
        "edit" => edit(alloc, host, command),
        "delete" => delete(alloc, host, words),
        "stat" => stat(alloc, host, words),
        _ => child_command(alloc, host, command),
    }
}
