//! Commands that make one call of any host or sink.
use crate::answers::{bytes_answer, fault_answer, io_answer};
use b2_host::fault::Failed;
use b2_host::files::{Files, ReadAnswer};
use b2_host::sink::Sink;
use std::alloc::Global;
use std::mem::ManuallyDrop;
use transcript::answer::Answer;
use transcript::case_fault::CaseFault;
use transcript::command::{Command, Word};
use transcript::words::{both, number, only, path};

fn read_answer(alloc: Global, read: &ReadAnswer) -> Result<Answer, CaseFault> {
    match read {
        ReadAnswer::Bytes(bytes) => bytes_answer(alloc, bytes.as_slice()),
        ReadAnswer::Missing => Answer::line(alloc, "Missing"),
        ReadAnswer::TooBig { size } => {
            let mut answer = Answer::new(alloc);
            answer.put("TooBig ");
            answer.put_number(*size);
            answer.end_line();
            Ok(answer)
        }
    }
}

/// `read PATH MOST`: the bytes of the file there, where it has no more than so many.
fn read<H: Files>(alloc: Global, host: &mut H, words: &[Word]) -> Result<Answer, CaseFault> {
    let (name, most) = both(words)?;
    let most = number(most)? as u64;
    let path = path(alloc, name)?;
    let read = ManuallyDrop::new(host.read(&path, most));
    match &*read {
        Ok(read) => read_answer(alloc, read),
        Err(fault) => fault_answer(alloc, *fault),
    }
}

/// `list DIR`: the names of the files in it, one a line.
fn list<H: Files>(alloc: Global, host: &mut H, words: &[Word]) -> Result<Answer, CaseFault> {
    let path = path(alloc, only(words)?)?;
    let listed = ManuallyDrop::new(host.list(&path));
    match &*listed {
        Ok(names) => Answer::texts(alloc, names.as_slice()),
        Err(fault) => fault_answer(alloc, *fault),
    }
}

/// `append PATH BYTES`: adds bytes to a file.
fn append<H: Files>(alloc: Global, host: &mut H, words: &[Word]) -> Result<Answer, CaseFault> {
    let [name, piece] = words else {
        return Err(CaseFault::WrongWords);
    };
    let path = path(alloc, name.as_str()?)?;
    io_answer(alloc, host.append(&path, piece.bytes()))
}

/// `replace PATH BYTES`: puts bytes in place of a file.
fn replace<H: Files>(alloc: Global, host: &mut H, words: &[Word]) -> Result<Answer, CaseFault> {
    let [name, piece] = words else {
        return Err(CaseFault::WrongWords);
    };
    let path = path(alloc, name.as_str()?)?;
    io_answer(alloc, host.replace(&path, piece.bytes()))
}

/// `remove PATH`: leaves no file there.
fn remove<H: Files>(alloc: Global, host: &mut H, words: &[Word]) -> Result<Answer, CaseFault> {
    let path = path(alloc, only(words)?)?;
    match host.remove(&path) {
        Ok(()) => Answer::line(alloc, "Ok"),
        Err(Failed) => Answer::line(alloc, "Failed"),
    }
}

/// Carries out a command on files. It asks no more of the host than files.
pub fn file_command<H: Files>(
    alloc: Global,
    host: &mut H,
    command: &Command,
) -> Result<Answer, CaseFault> {
    let words = command.words();
    match command.name() {
        "read" => read(alloc, host, words),
        "list" => list(alloc, host, words),
        "append" => append(alloc, host, words),
        "replace" => replace(alloc, host, words),
        "remove" => remove(alloc, host, words),
        _ => Err(CaseFault::UnknownCommand),
    }
}

/// `write BYTES`: writes a piece, which stands before the answer where the sink is the standard output.
pub fn write<S: Sink>(alloc: Global, sink: &mut S, words: &[Word]) -> Result<Answer, CaseFault> {
    let [piece] = words else {
        return Err(CaseFault::WrongWords);
    };
    io_answer(alloc, sink.write(piece.bytes()))
}
