//! Commands on the files of a host.
use b2_host::fault::Failed;
use b2_host::files::Files;
use b2_host_cases::host_calls;
use std::alloc::Global;
use transcript::answer::Answer;
use transcript::case_fault::CaseFault;
use transcript::command::{Command, Word};
use transcript::words::{only, path};

/// `stat PATH`: whether a file stands there. Real time stamps are not the same in two runs.
fn stat<H: Files>(alloc: Global, host: &mut H, words: &[Word]) -> Result<Answer, CaseFault> {
    let path = path(alloc, only(words)?)?;
    match host.stat(&path) {
        Ok(None) => Answer::line(alloc, "None"),
        Ok(Some(_stamp)) => Answer::line(alloc, "Some"),
        Err(Failed) => Answer::line(alloc, "Failed"),
    }
}

/// Carries out a command on files. It asks no more of the host than files.
pub fn file_command<H: Files>(
    alloc: Global,
    host: &mut H,
    command: &Command,
) -> Result<Answer, CaseFault> {
    match command.name() {
        "stat" => stat(alloc, host, command.words()),
        _ => host_calls::file_command(alloc, host, command),
    }
}
