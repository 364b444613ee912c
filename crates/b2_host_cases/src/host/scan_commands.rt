//! Commands on includes, and on what a step is known to read.
use crate::host::file_commands::file_command;
use b2_memory::memory::MemoryHost;
use jam_scan::closure::Closure;
use jam_scan::include::Include;
use jam_scan::places::candidates;
use jam_scan::scan::{includes, is_scanned};
use std::alloc::Global;
use std::mem::ManuallyDrop;
use transcript::answer::Answer;
use transcript::case_fault::CaseFault;
use transcript::command::{Command, Word};
use transcript::words::{first, halves, number, only, own_text, path, paths};

/// Shows each include on a line: `q` for a name in quotes or `a` for one in angle brackets, and the name.
fn includes_shown(alloc: Global, found: &[Include]) -> Answer {
    let mut answer = Answer::new(alloc);
    for include in found {
        let (name, quoted) = include.pair();
        answer.put(if quoted { "q " } else { "a " });
        answer.push_line(name.as_str());
    }
    answer
}

/// `includes WORD ..`: the includes of a file. Its bytes are those of the text below, and then those of the words.
fn includes_answer(alloc: Global, command: &Command) -> Result<Answer, CaseFault> {
    let mut bytes = Vec::from_slice(alloc, command.text().as_bytes())?;
    for word in command.words() {
        bytes.extend_from_slice(word.bytes())?;
    }
    let found = ManuallyDrop::new(includes(alloc, bytes.as_slice())?);
    Ok(includes_shown(alloc, found.as_slice()))
}

/// An include by its mark, which is `q` or `a`, and its name.
fn include_of(alloc: Global, mark: &str, name: &str) -> Result<Include, CaseFault> {
    let quoted = match mark {
        "q" => true,
        "a" => false,
        _ => return Err(CaseFault::WrongWords),
    };
    Ok(Include::of_pair(own_text(alloc, name)?, quoted))
}

/// `candidates MARK NAME FROM DIR ..`: the places where an include of the file `FROM` is looked for.
fn candidates_answer(alloc: Global, words: &[Word]) -> Result<Answer, CaseFault> {
    let (mark, words) = first(words)?;
    let (name, words) = first(words)?;
    let (from, words) = first(words)?;
    let include = ManuallyDrop::new(include_of(alloc, mark, name)?);
    let from = path(alloc, from)?;
    let dirs = paths(alloc, words)?;
    let found = ManuallyDrop::new(candidates(alloc, &include, &from, dirs.as_slice())?);
    Answer::paths(alloc, found.as_slice())
}

/// Tells that the member at a place was scanned, and what was found in it. `WrongWords` where it is not left to be scanned.
fn scan_member(alloc: Global, closure: &mut Closure, words: &[Word]) -> Result<(), CaseFault> {
    let (place, found) = first(words)?;
    let from = number(place)? as usize;
    let found = paths(alloc, found)?;
    let Some(at) = closure.next(from) else {
        return Err(CaseFault::WrongWords);
    };
    if at != from {
        return Err(CaseFault::WrongWords);
    }
    closure.scanned(at, found.as_slice())?;
    Ok(())
}

/// Shows the members in order, each with whether it was scanned, and the first place that is left.
fn closure_shown(alloc: Global, closure: &Closure) -> Answer {
    let mut answer = Answer::new(alloc);
    for (at, member) in closure.members().iter().enumerate() {
        answer.put(if closure.next(at) == Some(at) {
            "open "
        } else {
            "scanned "
        });
        answer.push_line(member.as_str());
    }
    match closure.next(0) {
        None => answer.push_line("none is left"),
        Some(at) => {
            answer.put("next ");
            answer.put_number(at as u64);
            answer.end_line();
        }
    }
    answer
}

/// `closure IN .. : PLACE FOUND .. > PLACE FOUND ..`: the closure of a step with these inputs, after the members at these places
/// were scanned one after another.
fn closure_answer(alloc: Global, words: &[Word]) -> Result<Answer, CaseFault> {
    let (ins, scans) = halves(words);
    let ins = paths(alloc, ins)?;
    let mut closure = ManuallyDrop::new(Closure::new(alloc, ins.as_slice())?);
    if !scans.is_empty() {
        for scan in scans.split(|word| word.bytes() == b">".as_slice()) {
            scan_member(alloc, &mut closure, scan)?;
        }
    }
    Ok(closure_shown(alloc, &closure))
}

/// Carries out a command on includes, or another one. `is_scanned PATH` tells whether a file at this path is scanned.
pub fn scan_command(
    alloc: Global,
    host: &mut MemoryHost,
    command: &Command,
) -> Result<Answer, CaseFault> {
    match command.name() {
        "includes" => includes_answer(alloc, command),
        "is_scanned" => Answer::truth(alloc, is_scanned(&*path(alloc, only(command.words())?)?)),
        "candidates" => candidates_answer(alloc, command.words()),
        "closure" => closure_answer(alloc, command.words()),
        _ => file_command(alloc, host, command),
    }
}
