//! How the commands of a transcript are carried out.
use crate::answer::Answer;
use crate::case_fault::CaseFault;
use crate::command::Command;
use crate::word_reader::words_of;
use std::alloc::Global;
use std::io;
use std::process::ExitCode;

/// What carries out the commands of a transcript, one after another.
pub trait Session {
    /// Carries out a command and answers it. A session that keeps a state says by its own answers what a command that
    /// was refused left of it.
    fn carry_out(&mut self, alloc: Global, command: &Command) -> Result<Answer, CaseFault>;
}

/// What the last lines have told to do, once no further text line follows.
#[derive(Drop)]
enum Pending {
    Nothing,
    CarryOut(Command),
    Refuse,
}

/// Prints the answer to a refused command, and tells that something was refused.
fn print_fault(rt: &impl Print, fault: CaseFault) -> io::Result<bool> {
    match fault {
        CaseFault::UnknownCommand => println!(rt; "= unknown command")?,
        CaseFault::WrongWords => println!(rt; "= wrong words")?,
        CaseFault::OutOfMemory => return Err(io::Error::from(io::ErrorKind::OutOfMemory)),
    }
    Ok(false)
}

/// Carries out a command, and tells whether it was one.
fn carry_out<R: Print + AllocGlobal, S: Session>(
    rt: &R,
    session: &mut S,
    command: &Command,
) -> io::Result<bool> {
    match session.carry_out(rt.alloc(), command) {
        Ok(answer) => {
            answer.print(rt)?;
            Ok(true)
        }
        Err(fault) => print_fault(rt, fault),
    }
}

/// Does what is pending, and tells whether all was well.
fn settle<R: Print + AllocGlobal, S: Session>(
    rt: &R,
    session: &mut S,
    pending: &Pending,
) -> io::Result<bool> {
    match pending {
        Pending::Nothing => Ok(true),
        Pending::CarryOut(command) => carry_out(rt, session, command),
        Pending::Refuse => print_fault(rt, CaseFault::WrongWords),
    }
}

/// What a line that is no text line tells to do.
fn read_line(alloc: Global, line: &str) -> Result<Pending, CaseFault> {
    if line.starts_with('#') {
        return Ok(Pending::Nothing);
    }
    match words_of(alloc, line) {
        Ok(words) => {
            if words.is_empty() {
                Ok(Pending::Nothing)
            } else {
                Ok(Pending::CarryOut(Command::new(alloc, words)))
            }
        }
        Err(CaseFault::OutOfMemory) => Err(CaseFault::OutOfMemory),
        Err(_fault) => Ok(Pending::Refuse),
    }
}

/// Adds a text line to what is pending. With no command above it, the line is refused.
fn add_text(pending: &mut Pending, line: &str) -> Result<(), CaseFault> {
    match pending {
        Pending::Nothing => *pending = Pending::Refuse,
        Pending::CarryOut(command) => command.push_line(line)?,
        Pending::Refuse => {}
    }
    Ok(())
}

/// What a text line adds to the text, where the line is one.
fn text_line(line: &str) -> Option<&str> {
    match line.strip_prefix('|') {
        Some(text) => Some(text.strip_prefix(' ').unwrap_or(text)),
        None => None,
    }
}

fn out_of_memory(_fault: CaseFault) -> io::Error {
    io::Error::from(io::ErrorKind::OutOfMemory)
}

/// Takes the next line, and tells whether what was pending before it went well.
fn take_line<R: Print + AllocGlobal, S: Session>(
    rt: &R,
    session: &mut S,
    pending: &mut Pending,
    line: &str,
) -> io::Result<bool> {
    match text_line(line) {
        Some(text) => {
            println!(rt; "{line}")?;
            match add_text(pending, text) {
                Ok(()) => Ok(true),
                Err(fault) => Err(out_of_memory(fault)),
            }
        }
        None => {
            let is_well = settle(rt, session, pending)?;
            println!(rt; "{line}")?;
            match read_line(rt.alloc(), line) {
                Ok(read) => *pending = read,
                Err(fault) => return Err(out_of_memory(fault)),
            }
            Ok(is_well)
        }
    }
}

/// Runs a transcript from the standard input to the standard output. The program's status is 1 where a command was
/// unknown or had wrong words.
pub fn run<R: Input + Print + AllocGlobal, S: Session>(
    rt: &R,
    session: &mut S,
) -> io::Result<ExitCode> {
    let mut pending = Pending::Nothing;
    let mut is_well = true;
    for line in rt.lines(rt.alloc()) {
        let line = line?;
        if !take_line(rt, session, &mut pending, line.as_str())? {
            is_well = false;
        }
    }
    if settle(rt, session, &pending)? && is_well {
        Ok(ExitCode::SUCCESS)
    } else {
        Ok(ExitCode::FAILURE)
    }
}
