//! The files of a load, and which calls of their host fail.
use b2_memory::memory::{CallKind, MemoryHost};
use std::alloc::Global;
use std::mem::ManuallyDrop;
use transcript::answer::Answer;
use transcript::case_fault::CaseFault;
use transcript::command::{Command, Word};
use transcript::words::{first, number, path};

/// Makes bytes the file of a path, unless the host runs a child process.
fn change(
    alloc: Global,
    host: &mut MemoryHost,
    word: &Word,
    bytes: &[u8],
) -> Result<Answer, CaseFault> {
    let path = path(alloc, word.as_str()?)?;
    if host.running().is_empty() {
        host.edit(&path, Some(bytes))?;
    }
    Ok(Answer::new(alloc))
}

/// Makes the text of a command, or what its words tell, a file.
pub fn edit(alloc: Global, host: &mut MemoryHost, command: &Command) -> Result<Answer, CaseFault> {
    match command.words() {
        [path] => change(alloc, host, path, command.text().as_bytes()),
        [path, bytes] => change(alloc, host, path, bytes.bytes()),
        [path, text, times] => {
            let times = number(times.as_str()?)? as usize;
            let text = ManuallyDrop::new(text.as_str()?.repeat(alloc, times)?);
            change(alloc, host, path, text.as_bytes())
        }
        _ => Err(CaseFault::WrongWords),
    }
}

/// The kind of calls of this name.
fn kind_of(word: &str) -> Result<CallKind, CaseFault> {
    match word {
        "stat" => Ok(CallKind::Stat),
        "read" => Ok(CallKind::Read),
        "list" => Ok(CallKind::List),
        _ => Err(CaseFault::WrongWords),
    }
}

fn fail_call(host: &mut MemoryHost, kind: CallKind, number: u32) -> Result<(), CaseFault> {
    host.fail_calls(&[(kind, number)])?;
    Ok(())
}

/// Lets calls of a kind fail from now on.
pub fn fail_calls(
    alloc: Global,
    host: &mut MemoryHost,
    words: &[Word],
) -> Result<Answer, CaseFault> {
    let (kind, numbers) = first(words)?;
    let kind = kind_of(kind)?;
    for word in numbers {
        fail_call(host, kind, number(word.as_str()?)?)?;
    }
    Ok(Answer::new(alloc))
}
