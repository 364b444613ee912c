//! What an opened log begins with.
ghost use Rattle.std.specs.Prelude.{◌≡◌, ◌↔◌, ℕ, List, Option, IfOk, IsTrue};
ghost use Rattle.std.specs.List.{AllByRecursion};
ghost use Rattle.b2_host.specs.FileCalls.{log_path};
ghost use Rattle.b2_log.specs.Good.{IsGood};
ghost use Rattle.b2_runs.specs.LogCourses.{IsLong, IsToShorten};
ghost use Rattle.b2_journal.specs.Rules.{opening_by};
ghost use Rattle.b2_journal.specs.Readings.{Stands};
ghost use Rattle.b2_journal.specs.Openings.{IsKeptBeginning, Begins, PutsBack};

use crate::log_reading::{LogReading, LogState};
use crate::opening_rule::OpeningRule;
use b2_base::fault::OutOfMemory;
use b2_base::path::Path;
use b2_host::fault::IoFault;
use b2_host::files::Files;
use b2_log::log::{Log, read_log};
use std::alloc::Global;

/// The lines that an opened log begins with.
#[derive(Drop)]
pub struct Beginning {
    /// The lines.
    pub log: Log,
    /// The bytes that are to stand in the file's place, unless it stays.
    pub bytes: Option<Vec<u8>>,
}

/// Whether a log has more lines than twice the kept ones plus 100: those that are not kept are more than the kept ones plus 100.
fn is_long(log: &Log) -> bool
    ensures { IsTrue result ↔ IsLong log.now.lines }
{
    let kept = log.kept_count();
    log.line_count() - kept > kept.saturating_add(100)
}

/// Whether a log is to be shortened: it is long, and the rule is that of an update.
fn is_to_shorten(rule: OpeningRule, log: &Log) -> bool
    ensures { IsTrue result ↔ IsToShorten (opening_by rule) log.now.lines }
{
    match rule {
        OpeningRule::Update => is_long(log),
        OpeningRule::Cut => false,
    }
}

/// The kept lines of a log, which are to stand in the file's place.
fn kept_beginning(alloc: Global, log: Log) -> Result<Beginning, OutOfMemory>
    ensures { IfOk result (IsKeptBeginning log.lines) }
{
    let bytes = log.kept()?;
    drop(log);
    let kept = read_log(alloc, bytes.as_slice())?;
    Ok(Beginning {
        log: kept,
        bytes: Some(bytes),
    })
}

/// The lines to begin with, and what is to stand in the file's place.
pub fn first_lines(
    alloc: Global,
    rule: OpeningRule,
    reading: LogReading,
) -> Result<Beginning, OutOfMemory>
    requires { AllByRecursion IsGood reading.log.lines }
    ensures good { IfOk result (λ beginning. AllByRecursion IsGood beginning.log.lines) }
    ensures begins { IfOk result (λ beginning. (file : Option (List ℕ)) → Stands file reading.state reading.log.lines → Begins (opening_by rule) file beginning.log.lines beginning.bytes) }
{
    let LogReading { log, state } = reading;
    match state {
        LogState::Missing => Ok(Beginning { log, bytes: None }),
        LogState::TooLarge => Ok(Beginning {
            log,
            bytes: Some(Vec::new(alloc)),
        }),
        LogState::Torn => kept_beginning(alloc, log),
        LogState::Whole => {
            if is_to_shorten(rule, &log) {
                kept_beginning(alloc, log)
            } else {
                Ok(Beginning { log, bytes: None })
            }
        }
    }
}

/// Puts bytes in the place of the log's file, which stands at this path, where there are any to put.
pub fn put_back<F: Files>(
    files: &mut F,
    path: &Path,
    bytes: &Option<Vec<u8>>,
) -> Result<(), IoFault>
    requires { path.now ≡ log_path }
    ensures { PutsBack bytes.now (F.outside files.old) (F.outside files.new) result }
{
    match bytes {
        None => Ok(()),
        Some(bytes) => files.replace(path, bytes.as_slice()),
    }
}
