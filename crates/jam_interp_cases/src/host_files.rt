//! Files in memory.
use b2_base::path::Path;
use b2_memory::memory::MemoryHost;
use std::alloc::Global;
use transcript::answer::Answer;
use transcript::case_fault::CaseFault;
use transcript::command::Command;
use transcript::words::paths;

/// Puts a file there, unless the host runs a child process.
fn put_file(host: &mut MemoryHost, path: &Path, text: &str) -> Result<(), CaseFault> {
    if host.running().is_empty() {
        host.edit(path, Some(text.as_bytes()))?;
    }
    Ok(())
}

/// Makes the text lines of the command the file of each path that it names, unless the host runs a child process.
pub fn put_files(
    alloc: Global,
    host: &mut MemoryHost,
    command: &Command,
) -> Result<Answer, CaseFault> {
    let paths = paths(alloc, command.words())?;
    for path in paths.as_slice() {
        put_file(host, path, command.text())?;
    }
    Ok(Answer::new(alloc))
}
