//! Lines of the log that are given as words.

use crate::log::record_words::record_of;
use crate::log::words::stamp;
use b2_log::line::{IncludeList, LogLine, ScanLine};
use std::alloc::Global;
use transcript::case_fault::CaseFault;
use transcript::command::Word;
use transcript::words::{first, own_path, own_paths};

fn is_quoted(mark: &str) -> Result<bool, CaseFault> {
    match mark {
        "q" => Ok(true),
        "a" => Ok(false),
        _ => Err(CaseFault::WrongWords),
    }
}

fn push_include(
    alloc: Global,
    includes: &mut IncludeList,
    mark: &Word,
    name: &Word,
) -> Result<(), CaseFault> {
    let quoted = is_quoted(mark.as_str()?)?;
    includes.push((name.as_text(alloc)?, quoted))?;
    Ok(())
}

fn includes_of(alloc: Global, words: &[Word]) -> Result<IncludeList, CaseFault> {
    let mut includes = IncludeList::new(alloc);
    for include in words.chunks(2) {
        let [mark, name] = include else {
            return Err(CaseFault::WrongWords);
        };
        push_include(alloc, &mut includes, mark, name)?;
    }
    Ok(includes)
}

/// The scan of these words: its path, its stamp, and of each include its mark and its name.
pub fn scan_of(alloc: Global, words: &[Word]) -> Result<ScanLine, CaseFault> {
    let [name, time, rest @ ..] = words else {
        return Err(CaseFault::WrongWords);
    };
    let stamp = stamp(time.as_str()?)?;
    Ok(ScanLine {
        path: own_path(alloc, name.as_str()?)?,
        stamp,
        includes: includes_of(alloc, rest)?,
    })
}

/// The line of these words: its kind, and what it takes.
pub fn line_of(alloc: Global, words: &[Word]) -> Result<LogLine, CaseFault> {
    let (kind, rest) = first(words)?;
    match kind {
        "record" => Ok(LogLine::Record(record_of(alloc, rest)?)),
        "drop" => Ok(LogLine::Drop(own_paths(alloc, rest)?)),
        "scan" => Ok(LogLine::Scan(scan_of(alloc, rest)?)),
        _ => Err(CaseFault::WrongWords),
    }
}
