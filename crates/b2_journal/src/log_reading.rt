//! Reads the log's file.
ghost use Rattle.std.specs.Prelude.{◌≡◌, IfOk};
ghost use Rattle.std.specs.Option.{IfSome};
ghost use Rattle.std.specs.List.{AllByRecursion};
ghost use Rattle.b2_host.specs.FileCalls.{log_path};
ghost use Rattle.b2_log.specs.Good.{IsGood};
ghost use Rattle.b2_runs.specs.LogCourses.{log_file as file_of_log};
ghost use Rattle.b2_journal.specs.Readings.{IsBytesRead, IsAnswered, Stands, ReadsLog};

use b2_base::fault::OutOfMemory;
use b2_base::path::Path;
use b2_host::fault::IoFault;
use b2_host::files::{Files, ReadAnswer};
use b2_host::log_file::log_file;
use b2_log::log::{Log, read_log};
use std::alloc::Global;

/// How many bytes a log has at most.
const LOG_LIMIT: u64 = 268_435_456;

/// How the log's file stands.
#[derive(Clone, Copy)]
pub enum LogState {
    /// No file stands.
    Missing,
    /// The file is made of good lines.
    Whole,
    /// Bytes that are no whole good line follow the file's lines.
    Torn,
    /// The file has more than 268,435,456 bytes, and counts as one without lines.
    TooLarge,
}

/// The lines that the log's file counts as, and how it stands.
#[derive(Drop)]
pub struct LogReading {
    /// The lines; none where no file stands or a file that is too large.
    pub log: Log,
    /// How the file stands.
    pub state: LogState,
}

/// The lines that bytes are read as. What follows them is a torn tail.
fn reading_of_bytes(alloc: Global, bytes: &[u8]) -> Result<LogReading, OutOfMemory>
    ensures { IfOk result (λ reading. IsBytesRead bytes.now reading.state reading.log.lines) }
{
    let log = read_log(alloc, bytes)?;
    let state = if log.good() < bytes.len() {
        LogState::Torn
    } else {
        LogState::Whole
    };
    Ok(LogReading { log, state })
}

/// What an answer of a read tells.
fn reading_of(alloc: Global, answer: ReadAnswer) -> Result<LogReading, OutOfMemory>
    ensures { IfOk result (λ reading. IsAnswered answer reading.state reading.log.lines) }
{
    match answer {
        ReadAnswer::Bytes(bytes) => reading_of_bytes(alloc, bytes.as_slice()),
        ReadAnswer::Missing => Ok(LogReading {
            log: Log::new(alloc),
            state: LogState::Missing,
        }),
        ReadAnswer::TooBig { size: _ } => Ok(LogReading {
            log: Log::new(alloc),
            state: LogState::TooLarge,
        }),
    }
}

/// Reads the log's file, which stands at this path.
pub(crate) fn read_at<F: Files>(
    alloc: Global,
    files: &mut F,
    path: &Path,
) -> Result<LogReading, IoFault>
    requires { path.now ≡ log_path }
    ensures host { ReadsLog (F.outside files.old) (F.outside files.new) result }
    ensures good { IfOk result (λ reading. AllByRecursion IsGood reading.log.lines) }
    ensures told { IfOk result (λ reading. IfSome (F.outside files.old).disk (λ disk. Stands (file_of_log disk.now) reading.state reading.log.lines)) }
{
    let answer = files.read(path, LOG_LIMIT)?;
    Ok(reading_of(alloc, answer)?)
}

/// Reads the log's file once, and changes nothing. It takes time in proportion to the size of the file, times its logarithm.
pub fn read<F: Files>(alloc: Global, files: &mut F) -> Result<LogReading, IoFault>
    ensures host { ReadsLog (F.outside files.old) (F.outside files.new) result }
    ensures good { IfOk result (λ reading. AllByRecursion IsGood reading.log.lines) }
    ensures told { IfOk result (λ reading. IfSome (F.outside files.old).disk (λ disk. Stands (file_of_log disk.now) reading.state reading.log.lines)) }
{
    let path = log_file(alloc)?;
    read_at(alloc, files, &path)
}
