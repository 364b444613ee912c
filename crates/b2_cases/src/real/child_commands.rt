//! Commands on the child processes of the system.
use crate::real::file_commands::file_command;
use crate::real::system::System;
use b2_base::path::Path;
use b2_host::children::Children;
use b2_host::fault::{Failed, IoFault};
use b2_host_cases::answers::{ended_answer, fault_answer, io_answer};
use b2_realhost::real_host::RealHost;
use std::alloc::Global;
use transcript::answer::Answer;
use transcript::case_fault::CaseFault;
use transcript::command::{Command, Word};
use transcript::words::{no_words, number, only, paths};

fn start_child<R: System>(
    alloc: Global,
    host: &mut RealHost<R>,
    step: u32,
    text: &str,
    outs: &[Path],
) -> Result<Answer, CaseFault> {
    if outs.is_empty() {
        return io_answer(alloc, host.start(step, text, &[], &[]));
    }
    if host.running_count() == 0 {
        return io_answer(alloc, host.start(step, text, &[], outs));
    }
    Answer::line(alloc, "other children run")
}

/// `start STEP TEXT OUT ..`: starts a child. Outputs can be named where no child runs.
fn start<R: System>(
    alloc: Global,
    host: &mut RealHost<R>,
    words: &[Word],
) -> Result<Answer, CaseFault> {
    let [step, text, outs @ ..] = words else {
        return Err(CaseFault::WrongWords);
    };
    let (step, text) = (number(step.as_str()?)?, text.as_str()?);
    start_child(alloc, host, step, text, paths(alloc, outs)?.as_slice())
}

/// `wait_one`: which child has ended, and how. It needs that one runs.
fn wait_one<R: System>(
    alloc: Global,
    host: &mut RealHost<R>,
    words: &[Word],
) -> Result<Answer, CaseFault> {
    no_words(words)?;
    if host.running_count() == 0 {
        return Answer::line(alloc, "no child runs");
    }
    ended_answer(alloc, host.wait_one())
}

/// How many children ended well, and how many badly.
#[derive(Clone, Copy)]
struct Ended {
    well: u32,
    badly: u32,
}

/// Waits for a child, where one runs.
fn wait_and_count<R: System>(host: &mut RealHost<R>, ended: &mut Ended) -> Result<(), IoFault> {
    if host.running_count() == 0 {
        return Ok(());
    }
    match host.wait_one() {
        Ok((_step, true)) => ended.well = ended.well.saturating_add(1),
        Ok((_step, false)) => ended.badly = ended.badly.saturating_add(1),
        Err(Failed) => return Err(IoFault::Failed),
    }
    Ok(())
}

/// Waits for each child that runs.
fn wait_for_all<R: System>(host: &mut RealHost<R>, ended: &mut Ended) -> Result<(), IoFault> {
    for _ in 0..host.running_count() {
        wait_and_count(host, ended)?;
    }
    Ok(())
}

/// Starts a child for a line, once fewer run than so many.
fn start_line<R: System>(
    host: &mut RealHost<R>,
    jobs: usize,
    line: &str,
    ended: &mut Ended,
) -> Result<(), IoFault> {
    if host.running_count() >= jobs {
        wait_and_count(host, ended)?;
    }
    host.start(0, line, &[], &[])
}

/// Runs each line of a text, so many at a time.
fn run_lines<R: System>(host: &mut RealHost<R>, jobs: usize, text: &str) -> Result<Ended, IoFault> {
    let mut ended = Ended { well: 0, badly: 0 };
    for line in text.lines() {
        start_line(host, jobs, line, &mut ended)?;
    }
    wait_for_all(host, &mut ended)?;
    Ok(ended)
}

fn count_shown(alloc: Global, ended: Ended) -> Result<Answer, CaseFault> {
    let mut answer = Answer::new(alloc);
    answer.put_number(u64::from(ended.well));
    answer.put(" well, ");
    answer.put_number(u64::from(ended.badly));
    answer.push_line(" badly");
    Ok(answer)
}

/// `run JOBS` with texts below it, one a line: starts a child for each, so many at a time, and waits for all.
fn run_all<R: System>(
    alloc: Global,
    host: &mut RealHost<R>,
    command: &Command,
) -> Result<Answer, CaseFault> {
    let jobs = number(only(command.words())?)? as usize;
    match run_lines(host, jobs, command.text()) {
        Ok(ended) => count_shown(alloc, ended),
        Err(fault) => fault_answer(alloc, fault),
    }
}

/// Carries out a command on children, or else one on files.
pub fn child_command<R: System>(
    alloc: Global,
    host: &mut RealHost<R>,
    command: &Command,
) -> Result<Answer, CaseFault> {
    let words = command.words();
    match command.name() {
        "start" => start(alloc, host, words),
        "wait_one" => wait_one(alloc, host, words),
        "run" => run_all(alloc, host, command),
        _ => file_command(alloc, host, command),
    }
}
