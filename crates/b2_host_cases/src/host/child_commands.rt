//! Commands on the child processes of the host in memory.
use crate::answers::{ended_answer, io_answer};
use crate::host::free::may_start;
use crate::host::script_commands::script_command;
use b2_base::path::Path;
use b2_base::path_list::PathList;
use b2_host::children::Children;
use b2_memory::memory::MemoryHost;
use std::alloc::Global;
use std::mem::ManuallyDrop;
use transcript::answer::Answer;
use transcript::case_fault::CaseFault;
use transcript::command::{Command, Word};
use transcript::words::{no_words, number, paths};

/// What a child reads and writes, to lend: the paths before the first word `>`, and those after it.
fn ins_and_outs(
    alloc: Global,
    words: &[Word],
) -> Result<(ManuallyDrop<PathList>, ManuallyDrop<PathList>), CaseFault> {
    match words
        .iter()
        .position(|word| word.bytes() == b">".as_slice())
    {
        None => Err(CaseFault::WrongWords),
        Some(place) => {
            let ins = paths(alloc, &words[..place])?;
            let outs = paths(alloc, &words[place + 1..])?;
            Ok((ins, outs))
        }
    }
}

fn start_child(
    alloc: Global,
    host: &mut MemoryHost,
    step: u32,
    text: &str,
    ins: &[Path],
    outs: &[Path],
) -> Result<Answer, CaseFault> {
    if !may_start(host.running(), ins, outs) {
        return Answer::line(alloc, "a child that runs is in the way");
    }
    io_answer(alloc, host.start(step, text, ins, outs))
}

/// `start STEP TEXT IN .. > OUT ..`: starts a child. It needs that no running child is in the way.
fn start(alloc: Global, host: &mut MemoryHost, words: &[Word]) -> Result<Answer, CaseFault> {
    let [step, text, more @ ..] = words else {
        return Err(CaseFault::WrongWords);
    };
    let step = number(step.as_str()?)?;
    let text = text.as_str()?;
    let (ins, outs) = ins_and_outs(alloc, more)?;
    start_child(alloc, host, step, text, ins.as_slice(), outs.as_slice())
}

/// `wait_one`: which child has ended, and how. It needs that one runs.
fn wait_one(alloc: Global, host: &mut MemoryHost, words: &[Word]) -> Result<Answer, CaseFault> {
    no_words(words)?;
    if host.running().is_empty() {
        return Answer::line(alloc, "no child runs");
    }
    ended_answer(alloc, host.wait_one())
}

/// Carries out a command on children, or another one.
pub fn child_command(
    alloc: Global,
    host: &mut MemoryHost,
    command: &Command,
) -> Result<Answer, CaseFault> {
    let words = command.words();
    match command.name() {
        "start" => start(alloc, host, words),
        "wait_one" => wait_one(alloc, host, words),
        _ => script_command(alloc, host, command),
    }
}
