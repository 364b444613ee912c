//! The current log.
use crate::log::bytes::{given, lines_answer};
use crate::log::lines::{line_of, scan_of};
use crate::log::record_words::record_of;
use crate::log::words::stamp;
use b2_log::line::{Record, ScanLine};
use b2_log::log::{Log, read_log};
use b2_log::proper::{is_digest, is_proper};
use b2_log::write::{drop_line, line_bytes, record_line, scan_line};
use std::alloc::Global;
use std::mem::ManuallyDrop;
use transcript::answer::Answer;
use transcript::case_fault::CaseFault;
use transcript::command::{Command, Word};
use transcript::session::Session;
use transcript::words::{both, no_words, only, path, paths};

/// The log that the commands speak of. The one that it takes the place of stays until the process ends.
#[derive(Drop)]
pub struct LogSession {
    log: ManuallyDrop<Log>,
}

/// Shows how many bytes of a prefix are good.
fn push_prefix(answer: &mut Answer, end: usize, good: usize) {
    answer.put("from ");
    answer.put_number(end as u64);
    answer.put(" bytes on ");
    answer.put_number(good as u64);
    answer.push_line(" are good");
}

/// How many bytes of each prefix are good, at the shortest one and wherever there are more.
fn prefixes_answer(alloc: Global, bytes: &[u8]) -> Result<Answer, CaseFault> {
    let mut answer = Answer::new(alloc);
    let mut last = None;
    for end in 0..=bytes.len() {
        let read = ManuallyDrop::new(read_log(alloc, &bytes[..end])?);
        let good = read.good();
        if last != Some(good) {
            push_prefix(&mut answer, end, good);
        }
        last = Some(good);
    }
    Ok(answer)
}

fn shown_record(alloc: Global, record: &Record) -> Result<Answer, CaseFault> {
    let line = ManuallyDrop::new(record_line(alloc, record)?);
    lines_answer(alloc, line.as_slice())
}

fn record_answer(alloc: Global, words: &[Word]) -> Result<Answer, CaseFault> {
    let record = ManuallyDrop::new(record_of(alloc, words)?);
    shown_record(alloc, &record)
}

fn drop_answer(alloc: Global, words: &[Word]) -> Result<Answer, CaseFault> {
    let outs = paths(alloc, words)?;
    let line = ManuallyDrop::new(drop_line(alloc, outs.as_slice())?);
    lines_answer(alloc, line.as_slice())
}

fn shown_scan(alloc: Global, scan: &ScanLine) -> Result<Answer, CaseFault> {
    let line = ManuallyDrop::new(scan_line(alloc, scan)?);
    lines_answer(alloc, line.as_slice())
}

fn scan_answer(alloc: Global, words: &[Word]) -> Result<Answer, CaseFault> {
    let scan = ManuallyDrop::new(scan_of(alloc, words)?);
    shown_scan(alloc, &scan)
}

fn line_answer(alloc: Global, words: &[Word]) -> Result<Answer, CaseFault> {
    let line = ManuallyDrop::new(line_of(alloc, words)?);
    let bytes = ManuallyDrop::new(line_bytes(alloc, &line)?);
    lines_answer(alloc, bytes.as_slice())
}

fn proper_answer(alloc: Global, words: &[Word]) -> Result<Answer, CaseFault> {
    let line = ManuallyDrop::new(line_of(alloc, words)?);
    Answer::yes_or_no(alloc, is_proper(&line))
}

/// Carries out a command on lines alone.
fn line_command(alloc: Global, command: &Command) -> Result<Answer, CaseFault> {
    let words = command.words();
    match command.name() {
        "record_line" => record_answer(alloc, words),
        "drop_line" => drop_answer(alloc, words),
        "scan_line" => scan_answer(alloc, words),
        "line_bytes" => line_answer(alloc, words),
        "is_digest" => Answer::yes_or_no(alloc, is_digest(only(words)?)),
        "is_proper" => proper_answer(alloc, words),
        _ => Err(CaseFault::UnknownCommand),
    }
}

fn number(alloc: Global, words: &[Word], number: usize) -> Result<Answer, CaseFault> {
    no_words(words)?;
    Answer::number(alloc, number as u64)
}

/// Carries out a command that asks for a number of the log, or one on lines alone.
fn count_command(alloc: Global, log: &Log, command: &Command) -> Result<Answer, CaseFault> {
    let words = command.words();
    match command.name() {
        "good" => number(alloc, words, log.good()),
        "line_count" => number(alloc, words, log.line_count()),
        "kept_count" => number(alloc, words, log.kept_count()),
        _ => line_command(alloc, command),
    }
}

fn kept(alloc: Global, log: &Log, words: &[Word]) -> Result<Answer, CaseFault> {
    no_words(words)?;
    let lines = ManuallyDrop::new(log.kept()?);
    lines_answer(alloc, lines.as_slice())
}

fn found(alloc: Global, log: &Log, words: &[Word]) -> Result<Answer, CaseFault> {
    let outs = paths(alloc, words)?;
    match log.find(outs.as_slice()) {
        Some(record) => shown_record(alloc, record),
        None => Answer::line(alloc, "none"),
    }
}

fn scanned(alloc: Global, log: &Log, words: &[Word]) -> Result<Answer, CaseFault> {
    let (name, time) = both(words)?;
    let time = stamp(time)?;
    let path = path(alloc, name)?;
    match log.scan(&path, time) {
        Some(scan) => shown_scan(alloc, scan),
        None => Answer::line(alloc, "none"),
    }
}

/// Carries out a command that looks at the log, or at what is read of bytes, or another one.
fn look_command(alloc: Global, log: &Log, command: &Command) -> Result<Answer, CaseFault> {
    let words = command.words();
    match command.name() {
        "kept" => kept(alloc, log, words),
        "find" => found(alloc, log, words),
        "scan" => scanned(alloc, log, words),
        "read_prefixes" => prefixes_answer(alloc, given(alloc, command)?.as_slice()),
        _ => count_command(alloc, log, command),
    }
}

/// Puts the log that is read from bytes in place of the current one.
fn read(alloc: Global, log: &mut ManuallyDrop<Log>, bytes: &[u8]) -> Result<Answer, CaseFault> {
    let read = read_log(alloc, bytes)?;
    let good = read.good();
    *log = ManuallyDrop::new(read);
    let mut answer = Answer::new(alloc);
    answer.put_number(good as u64);
    answer.put(" of ");
    answer.put_number(bytes.len() as u64);
    answer.push_line(" bytes are good");
    Ok(answer)
}

fn add(alloc: Global, log: &mut Log, words: &[Word]) -> Result<Answer, CaseFault> {
    let line = line_of(alloc, words)?;
    if is_proper(&line) {
        Answer::done(alloc, log.add(line))
    } else {
        drop(line);
        Answer::line(alloc, "not proper")
    }
}

impl LogSession {
    /// The log without a line, which takes no memory.
    pub fn new(alloc: Global) -> LogSession {
        LogSession {
            log: ManuallyDrop::new(Log::new(alloc)),
        }
    }

    fn renew(&mut self, alloc: Global, words: &[Word]) -> Result<Answer, CaseFault> {
        no_words(words)?;
        *self = LogSession::new(alloc);
        Ok(Answer::new(alloc))
    }
}

impl Session for LogSession {
    fn carry_out(&mut self, alloc: Global, command: &Command) -> Result<Answer, CaseFault> {
        let words = command.words();
        match command.name() {
            "new" => self.renew(alloc, words),
            "read_log" => read(alloc, &mut self.log, given(alloc, command)?.as_slice()),
            "add" => add(alloc, &mut self.log, words),
            _ => look_command(alloc, &self.log, command),
        }
    }
}
