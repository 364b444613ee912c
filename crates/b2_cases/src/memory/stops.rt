//! Tables of updates that are stopped, and of single calls that fail, each over hosts in memory of their own.
//!
//! The words of a command are those of an update. Its lines say what comes before: `edit PATH TEXT`, where `\n` stands for a line
//! feed, `update WORD ..`, or `child_fails N`, which lets the N-th child process of the next update end badly.
//!
//! `stops WORD ..`: the update comes under a fuse of 0, 1, 2 .. calls until it ends with Ok, each time over a new host; the host
//! is opened again, and the same update follows. It is right where it ends with Ok and leaves what a full build leaves. The
//! answer has a line for each number of bytes that a write may leave of its piece.
//!
//! `failures WORD ..`: for each kind of call, the first to the twelfth call fails, each over a new host. The update is right where
//! it is a fault of the host exactly if a call failed, and else what it is without failures; and where the update after it, once
//! the host is opened again, ends with Ok and leaves what a full build leaves.
use crate::memory::case_host::is_idle;
use b2_base::path::Path;
use b2_base::text::Text;
use b2_base::text_list::TextList;
use b2_host::log_file::log_file;
use b2_memory::memory::{CallKind, MemoryHost};
use b2_memory::memory_sink::MemorySink;
use b2_top::run::run_b2;
use std::alloc::Global;
use std::mem::ManuallyDrop;
use transcript::answer::Answer;
use transcript::case_fault::CaseFault;
use transcript::command::Command;
use transcript::words::{number, own_text, path, texts};

/// With at most so many calls each update of a table ends.
const MOST_CALLS: u32 = 400;

/// Each call of a kind up to this one fails.
const LAST_CALL: u32 = 12;

/// How many bytes of its piece a write leaves that fails.
const TEARS: [u32; 3] = [0, 1, 7];

/// The status where a child process is left, beside which no update may begin; no update has it.
const CHILD_LEFT: u8 = 255;

/// How an update ended, and what it printed.
#[derive(Drop)]
struct Ran {
    status: u8,
    printed: MemorySink,
}

/// What came of an update under a fuse, and of the one after it.
#[derive(Clone, Copy)]
enum Stopped {
    /// It was stopped, and the next one is right.
    Right,
    /// It ended with Ok, and the next one is right.
    Ended,
    /// The next one is not right.
    Wrong,
}

/// An update with these words.
fn update(alloc: Global, host: &mut MemoryHost, words: &[Text]) -> ManuallyDrop<Ran> {
    let mut printed = MemorySink::new(alloc);
    let status = if is_idle(host) {
        let answer = ManuallyDrop::new(run_b2(alloc, words, host, &mut printed));
        answer.status()
    } else {
        CHILD_LEFT
    };
    ManuallyDrop::new(Ran { status, printed })
}

/// The words of a line, which single spaces divide.
fn words_in(alloc: Global, line: &str) -> Result<ManuallyDrop<TextList>, CaseFault> {
    let mut words = ManuallyDrop::new(TextList::new(alloc));
    for word in line.split(' ') {
        words.push(own_text(alloc, word)?)?;
    }
    Ok(words)
}

/// Writes a file, whose name the text follows.
fn edit(alloc: Global, host: &mut MemoryHost, line: &str) -> Result<(), CaseFault> {
    let (name, text) = line.split_once(' ').unwrap_or((line, ""));
    let path = path(alloc, name)?;
    let text = text.replace(alloc, "\\n", "\n")?;
    if !is_idle(host) {
        return Err(CaseFault::WrongWords);
    }
    Ok(host.edit(&path, Some(text.as_bytes()))?)
}

/// Carries out one line of what comes before. Where a host is made for a full build, only files are written.
fn prepare(
    alloc: Global,
    host: &mut MemoryHost,
    line: &str,
    is_full: bool,
) -> Result<(), CaseFault> {
    let Some((name, rest)) = line.split_once(' ') else {
        return Err(CaseFault::WrongWords);
    };
    match name {
        "edit" => edit(alloc, host, rest),
        "update" | "child_fails" if is_full => Ok(()),
        "update" => {
            let words = words_in(alloc, rest)?;
            let _ran = update(alloc, host, words.as_slice());
            Ok(())
        }
        "child_fails" => Ok(host.child_fails(&[number(rest)?])?),
        _ => Err(CaseFault::WrongWords),
    }
}

/// A host over which all lines were carried out.
fn prepared(
    alloc: Global,
    lines: &str,
    is_full: bool,
) -> Result<ManuallyDrop<MemoryHost>, CaseFault> {
    let mut host = ManuallyDrop::new(MemoryHost::new(alloc)?);
    for line in lines.lines() {
        prepare(alloc, &mut host, line, is_full)?;
    }
    Ok(host)
}

/// The bytes of the file at a path.
fn bytes_at<'a>(host: &'a MemoryHost, path: &Path) -> Option<&'a [u8]> {
    let stamp = host.stamp_of(path)?;
    let version = host.past().get((stamp as usize).saturating_sub(1))?;
    Some(host.bytes_of(version))
}

/// Whether the same bytes stand at a path, or nothing does.
fn is_same_at(host: &MemoryHost, full: &MemoryHost, path: &Path) -> bool {
    match (bytes_at(host, path), bytes_at(full, path)) {
        (None, None) => true,
        (Some(bytes), Some(others)) => bytes == others,
        _ => false,
    }
}

/// Whether all that a full build leaves, but for its log, stands in the host too.
fn is_clean(alloc: Global, host: &MemoryHost, full: &MemoryHost) -> Result<bool, CaseFault> {
    let log = ManuallyDrop::new(log_file(alloc)?);
    for version in full.past() {
        if version.path.as_str() != log.as_str() && !is_same_at(host, full, &version.path) {
            return Ok(false);
        }
    }
    Ok(true)
}

/// Opens the host again, and tells whether the next update ends with Ok and leaves what a full build leaves.
fn is_right_next(
    alloc: Global,
    host: &mut MemoryHost,
    words: &[Text],
    full: &MemoryHost,
) -> Result<bool, CaseFault> {
    host.reopen();
    let next = update(alloc, host, words);
    Ok(next.status == 0 && is_clean(alloc, host, full)?)
}

/// What comes of an update under a fuse.
fn stop_after(
    alloc: Global,
    lines: &str,
    words: &[Text],
    full: &MemoryHost,
    calls: u32,
    tear: u32,
) -> Result<Stopped, CaseFault> {
    let mut host = prepared(alloc, lines, false)?;
    host.tear(tear);
    host.fuse(calls);
    let first = update(alloc, &mut host, words);
    if !is_right_next(alloc, &mut host, words, full)? {
        return Ok(Stopped::Wrong);
    }
    Ok(if first.status == 0 {
        Stopped::Ended
    } else {
        Stopped::Right
    })
}

/// The line on updates under a fuse of more and more calls, where a write leaves so many bytes of its piece.
fn tear_line(
    alloc: Global,
    lines: &str,
    words: &[Text],
    full: &MemoryHost,
    tear: u32,
) -> Result<&'static str, CaseFault> {
    for calls in 0..MOST_CALLS {
        match stop_after(alloc, lines, words, full, calls, tear)? {
            Stopped::Right => {}
            Stopped::Ended => return Ok(": each next update is right"),
            Stopped::Wrong => return Ok(": a next update is not right"),
        }
    }
    Ok(": no update ends")
}

/// The host after a full build with these words.
fn full_build(
    alloc: Global,
    lines: &str,
    words: &[Text],
) -> Result<ManuallyDrop<MemoryHost>, CaseFault> {
    let mut full = prepared(alloc, lines, true)?;
    let _ran = update(alloc, &mut full, words);
    Ok(full)
}

/// Carries out `stops`.
pub fn stops(alloc: Global, command: &Command) -> Result<Answer, CaseFault> {
    let words = texts(alloc, command.words())?;
    let full = full_build(alloc, command.text(), words.as_slice())?;
    let mut answer = Answer::new(alloc);
    for tear in TEARS {
        let line = tear_line(alloc, command.text(), words.as_slice(), &full, tear)?;
        answer.put("tear ");
        answer.put_number(u64::from(tear));
        answer.push_line(line);
    }
    Ok(answer)
}

/// Whether an update in which one call fails is right, and the next one too.
fn is_right_beside(
    alloc: Global,
    lines: &str,
    words: &[Text],
    full: &MemoryHost,
    plain: &Ran,
    call: (CallKind, u32),
) -> Result<bool, CaseFault> {
    let mut host = prepared(alloc, lines, false)?;
    let faults = host.fault_count();
    host.fail_calls(&[call])?;
    let first = update(alloc, &mut host, words);
    let is_told = if host.fault_count() == faults {
        first.status == plain.status && first.printed.bytes() == plain.printed.bytes()
    } else {
        first.status == 4
    };
    Ok(is_told && is_right_next(alloc, &mut host, words, full)?)
}

/// The line on updates in which a call of a kind fails.
fn kind_line(
    alloc: Global,
    lines: &str,
    words: &[Text],
    full: &MemoryHost,
    plain: &Ran,
    kind: CallKind,
) -> Result<&'static str, CaseFault> {
    for call in 1..=LAST_CALL {
        if !is_right_beside(alloc, lines, words, full, plain, (kind, call))? {
            return Ok(": not right");
        }
    }
    Ok(": each is right, and each next one")
}

/// Carries out `failures`.
pub fn failures(alloc: Global, command: &Command) -> Result<Answer, CaseFault> {
    let words = texts(alloc, command.words())?;
    let full = full_build(alloc, command.text(), words.as_slice())?;
    let mut host = prepared(alloc, command.text(), false)?;
    let plain = update(alloc, &mut host, words.as_slice());
    let mut answer = Answer::new(alloc);
    for (name, kind) in KINDS {
        answer.put(name);
        answer.push_line(kind_line(alloc, command.text(), words.as_slice(), &full, &plain, kind)?);
    }
    Ok(answer)
}

/// The kinds of calls with their names.
const KINDS: [(&str, CallKind); 8] = [
    ("stat", CallKind::Stat),
    ("read", CallKind::Read),
    ("list", CallKind::List),
    ("append", CallKind::Append),
    ("replace", CallKind::Replace),
    ("remove", CallKind::Remove),
    ("start", CallKind::Start),
    ("wait", CallKind::Wait),
];
