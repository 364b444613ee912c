//! Commands that tell the host in memory which calls fail and how its child processes end.
use crate::host::look_commands::look_command;
use b2_memory::memory::{CallKind, MemoryHost};
use std::alloc::Global;
use std::mem::ManuallyDrop;
use transcript::answer::Answer;
use transcript::case_fault::CaseFault;
use transcript::command::{Command, Word};
use transcript::words::{both, no_words, number, only};

/// The words as numbers, to lend.
fn numbers(alloc: Global, words: &[Word]) -> Result<ManuallyDrop<Vec<u32>>, CaseFault> {
    let mut numbers = Vec::new(alloc);
    for word in words {
        numbers.push(number(word.as_str()?)?)?;
    }
    Ok(ManuallyDrop::new(numbers))
}

/// The kind of a call that changes a file.
fn change_kind(word: &str) -> Result<CallKind, CaseFault> {
    match word {
        "Append" => Ok(CallKind::Append),
        "Replace" => Ok(CallKind::Replace),
        "Remove" => Ok(CallKind::Remove),
        _ => Err(CaseFault::WrongWords),
    }
}

fn call_kind(word: &str) -> Result<CallKind, CaseFault> {
    match word {
        "Stat" => Ok(CallKind::Stat),
        "Read" => Ok(CallKind::Read),
        "List" => Ok(CallKind::List),
        "Start" => Ok(CallKind::Start),
        "Wait" => Ok(CallKind::Wait),
        _ => change_kind(word),
    }
}

/// `fail_calls KIND NUMBER`: lets a call of that kind fail, by its number from now on.
fn fail_calls(alloc: Global, host: &mut MemoryHost, words: &[Word]) -> Result<Answer, CaseFault> {
    let (kind, place) = both(words)?;
    let calls = [(call_kind(kind)?, number(place)?)];
    Answer::done(alloc, host.fail_calls(calls.as_slice()))
}

/// `child_fails NUMBER ..`: lets children end badly, by the numbers of their starts from now on.
fn child_fails(alloc: Global, host: &mut MemoryHost, words: &[Word]) -> Result<Answer, CaseFault> {
    Answer::done(alloc, host.child_fails(numbers(alloc, words)?.as_slice()))
}

/// `order NUMBER ..`: which of the running children each wait gives.
fn order(alloc: Global, host: &mut MemoryHost, words: &[Word]) -> Result<Answer, CaseFault> {
    Answer::done(alloc, host.order(numbers(alloc, words)?.as_slice()))
}

/// `tear BYTES`: how many bytes a failing write leaves.
fn tear(alloc: Global, host: &mut MemoryHost, words: &[Word]) -> Result<Answer, CaseFault> {
    host.tear(number(only(words)?)?);
    Ok(Answer::new(alloc))
}

/// `fuse CALLS`: after so many more calls every call fails.
fn fuse(alloc: Global, host: &mut MemoryHost, words: &[Word]) -> Result<Answer, CaseFault> {
    host.fuse(number(only(words)?)?);
    Ok(Answer::new(alloc))
}

/// `reopen`: ends the children that run, and lets calls succeed again.
fn reopen(alloc: Global, host: &mut MemoryHost, words: &[Word]) -> Result<Answer, CaseFault> {
    no_words(words)?;
    host.reopen();
    Ok(Answer::new(alloc))
}

/// Carries out a command that tells the host what is to come, or another one.
pub fn script_command(
    alloc: Global,
    host: &mut MemoryHost,
    command: &Command,
) -> Result<Answer, CaseFault> {
    let words = command.words();
    match command.name() {
        "fail_calls" => fail_calls(alloc, host, words),
        "child_fails" => child_fails(alloc, host, words),
        "order" => order(alloc, host, words),
        "tear" => tear(alloc, host, words),
        "fuse" => fuse(alloc, host, words),
        "reopen" => reopen(alloc, host, words),
        _ => look_command(alloc, host, command),
    }
}
