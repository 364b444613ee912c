//! A log: its lines, and the last one about each subject.
ghost use Rattle.std.specs.Prelude.{◌≡◌, ◌+◌, ◌^◌, ◌<◌, ◌≤◌, false, not, List, ◌∷◌, ◌++◌, [], length, reverse, IfOk, OnOk, OnErr, IfSome, MatchOption};
ghost use Rattle.std.specs.List.{AllByRecursion, slice_index_or};
ghost use Rattle.std.specs.Option.{option_copied};
ghost use Rattle.b2_log.specs.declared.line.LogLine.{LogLine};
ghost use Rattle.b2_log.specs.declared.line.LogLine.TheVariants as lines;
ghost use Rattle.b2_log.specs.Lines.{log_bytes};
ghost use Rattle.b2_log.specs.Good.{IsProper, IsGood};
ghost use Rattle.b2_log.specs.Readings.{IsReading};
ghost use Rattle.b2_log.specs.Places.{place_of, place_in, option_is, kept_at, one_if, TakesBack};
ghost use Rattle.b2_log.specs.Finding.{subject_of, is_drop, record_in, scan_in, find_record, find_scan, kept};

use crate::latest::Latest;
use crate::line::{LogLine, Record, ScanLine};
use crate::read::next_line;
use crate::subject::{Subject, paths_of, subject_of};
use crate::write::push_line;
use b2_base::fault::OutOfMemory;
use b2_base::path::Path;
use std::alloc::Global;
use std::marker::Model;

/// What takes the last line of a log back.
#[derive(Drop)]
pub struct Undo {
    subject: Subject,
    before: Option<usize>,
    kept_count: usize,
}

/// The lines of a log in order, each of them proper, seen as these lines and how many bytes of what it was read from are good.
pub struct Log {
    alloc: Global,
    lines: Vec<LogLine>,
    latest: Latest,
    kept_count: usize,
    good: usize,
}

/// By hand, so that dropping one is one call.
impl Drop for Log {
    fn drop(self) {
        let Log {
            alloc: _,
            lines,
            latest,
            kept_count: _,
            good: _,
        } = self;
        drop(lines);
        drop(latest);
    }
}

impl Model for Log {
    ghost use Rattle.b2_log.specs.Contents.{Contents};

    ghost Value = { Contents };

    ghost use Rattle.b2_log.specs.Places.{place_in, IsLog};

    ghost view = { λ l. record { lines = l.lines.items; good = l.good } };

    ghost invariant = { λ l. IsLog l.lines.items (place_in l.latest) l.kept_count };
}

fn is_drop(line: &LogLine) -> bool
    ensures { result ≡ is_drop line.now }
{
    matches!(line, LogLine::Drop(_))
}

fn is_place(found: Option<usize>, place: usize) -> bool
    ensures { result ≡ option_is found place }
{
    match found {
        None => false,
        Some(found) => found == place,
    }
}

/// The place of the last line about the subject of a line.
fn last_place(alloc: Global, latest: &Latest, line: &LogLine) -> Result<Option<usize>, OutOfMemory>
    ensures { IfOk result (λ place. place ≡ place_in latest.now (subject_of line.now)) }
{
    match line {
        LogLine::Record(record) => {
            let outs = paths_of(alloc, record.outs.as_slice())?;
            Ok(latest.of_outputs(outs.as_slice()))
        }
        LogLine::Drop(outs) => Ok(latest.of_outputs(outs.as_slice())),
        LogLine::Scan(scan) => Ok(latest.of_scanned(&scan.path)),
    }
}

/// Whether the last line about the subject of a line stands at this place.
fn is_last(
    alloc: Global,
    latest: &Latest,
    place: usize,
    line: &LogLine,
) -> Result<bool, OutOfMemory>
    ensures { IfOk result (λ last. last ≡ option_is (place_in latest.now (subject_of line.now)) place) }
{
    let last = last_place(alloc, latest, line)?;
    Ok(is_place(last, place))
}

/// Whether a line stands at this place that is no drop.
fn is_told_at(lines: &[LogLine], place: Option<usize>) -> bool
    requires { IfSome place (λ found. found < length lines.now) }
    ensures { MatchOption place (result ≡ false) (λ found. (d : LogLine) → result ≡ not (is_drop (slice_index_or lines.now found d))) }
{
    match place {
        None => false,
        Some(found) => !is_drop(&lines[found]),
    }
}

/// How many lines are kept after one more line, which may be kept itself, and of which an earlier one may be kept no longer.
fn count_after(count: usize, gains: bool, loses: bool) -> usize
    requires room { count + one_if gains < 2 ^ 64 }
    requires one { one_if loses ≤ count + one_if gains }
    ensures { result + one_if loses ≡ count + one_if gains }
{
    match (gains, loses) {
        (true, false) => count + 1,
        (false, true) => count - 1,
        _ => count,
    }
}

/// Appends a line at a place where it is kept: where it is no drop, and no later line is about its subject.
fn push_kept(
    alloc: Global,
    bytes: &mut Vec<u8>,
    latest: &Latest,
    place: usize,
    line: &LogLine,
) -> Result<(), OutOfMemory>
    ensures pushes { OnOk result (bytes.new.items ≡ bytes.old.items ++ log_bytes (kept_at (place_in latest.now) place line.now)) }
    ensures good { OnOk result (IsProper line.now → AllByRecursion IsGood (kept_at (place_in latest.now) place line.now)) }
{
    if is_drop(line) || !is_last(alloc, latest, place, line)? {
        return Ok(());
    }
    push_line(alloc, bytes, line)
}

/// Only records tell of a step that was run; what is dropped and scanned is found otherwise.
fn record_in(line: &LogLine) -> Option<&Record>
    ensures exact { option_copied result ≡ record_in line.now }
    ensures proper { IsProper line.now → IfSome result (λ rec. IsProper (lines.Record rec.now)) }
{
    match line {
        LogLine::Record(record) => Some(record),
        LogLine::Drop(_) | LogLine::Scan(_) => None,
    }
}

/// The scan that a line is, where it was made at this stamp.
fn scan_in(line: &LogLine, stamp: u64) -> Option<&ScanLine>
    ensures { option_copied result ≡ scan_in stamp line.now }
{
    match line {
        LogLine::Scan(scan) if scan.stamp == stamp => Some(scan),
        _ => None,
    }
}

impl Log {
    /// The log without a line.
    pub fn new(alloc: Global) -> Log
        ensures { result ≡ record { lines = []; good = 0 } }
    {
        Log {
            alloc,
            lines: Vec::new(alloc),
            latest: Latest::new(alloc),
            kept_count: 0,
            good: 0,
        }
    }

    /// How many of the bytes that the log was read from are good lines. Lines that were added since are not counted.
    pub fn good(&self) -> usize
        ensures { result ≡ self.now.good }
    {
        self.good
    }

    /// How many lines the log has: those that were read, and those that were added. In constant time.
    pub fn line_count(&self) -> usize
        ensures { result ≡ length self.now.lines }
    {
        self.lines.len()
    }

    /// How many lines are kept: the records and scans whose subject no later line has. In constant time.
    pub fn kept_count(&self) -> usize
        ensures { result ≡ length (kept self.now.lines) }
    {
        self.kept_count
    }

    /// The record of the last line about exactly these outputs in this order. There is none where that line is a drop or
    /// there is no such line. Takes no memory.
    pub fn find(&self, outs: &[Path]) -> Option<&Record>
        ensures exact { option_copied result ≡ find_record outs.now self.now.lines }
        ensures proper { IfSome result (λ rec. IsProper (lines.Record rec.now)) }
    {
        let place = self.latest.of_outputs(outs)?;
        record_in(&self.lines[place])
    }

    /// The last scan of a path, where it was made at this stamp. Takes no memory.
    pub fn scan(&self, path: &Path, stamp: u64) -> Option<&ScanLine>
        ensures { option_copied result ≡ find_scan path.now stamp self.now.lines }
    {
        let place = self.latest.of_scanned(path)?;
        scan_in(&self.lines[place], stamp)
    }

    /// Adds a proper line about this subject after the others, and answers the place that the subject had before.
    fn add_about(&mut self, subject: Subject, line: LogLine) -> Result<Option<usize>, OutOfMemory>
        requires subject { subject ≡ subject_of line }
        requires proper { IsProper line }
        ensures ok { OnOk result (self.new ≡ record { lines = self.old.lines ++ line ∷ []; good = self.old.good }) }
        ensures before { IfOk result (λ before. before ≡ place_of subject (reverse self.old.lines)) }
        ensures err { OnErr result (self.new ≡ self.old) }
    {
        let place = self.lines.len();
        let gains = !is_drop(&line);
        self.lines.push(line)?;
        match self.latest.put(subject, place) {
            Ok(before) => {
                let loses = is_told_at(self.lines.as_slice(), before);
                self.kept_count = count_after(self.kept_count, gains, loses);
                Ok(before)
            }
            Err(_) => {
                self.lines.pop();
                Err(OutOfMemory)
            }
        }
    }

    /// Adds a proper line after the others. After an error the log is as before.
    pub fn add(&mut self, line: LogLine) -> Result<(), OutOfMemory>
        requires { IsProper line }
        ensures ok { OnOk result (self.new ≡ record { lines = self.old.lines ++ line ∷ []; good = self.old.good }) }
        ensures err { OnErr result (self.new ≡ self.old) }
    {
        let subject = subject_of(self.alloc, &line)?;
        self.add_about(subject, line)?;
        Ok(())
    }

    /// The same as `add`. The answer can take the line back, as long as it is the last one.
    pub fn add_with_undo(&mut self, line: LogLine) -> Result<Undo, OutOfMemory>
        requires { IsProper line }
        ensures ok { OnOk result (self.new ≡ record { lines = self.old.lines ++ line ∷ []; good = self.old.good }) }
        ensures undo { IfOk result (λ undo. TakesBack undo self.old.lines self.new.lines) }
        ensures err { OnErr result (self.new ≡ self.old) }
    {
        let subject = subject_of(self.alloc, &line)?;
        let same = subject_of(self.alloc, &line)?;
        let kept_count = self.kept_count();
        let before = self.add_about(same, line)?;
        Ok(Undo {
            subject,
            before,
            kept_count,
        })
    }

    /// Takes the last line back, so that the log is as before it was added. Takes no memory.
    pub fn undo(&mut self, undo: Undo)
        requires { (before : List LogLine) × TakesBack undo before self.old.lines }
        ensures { (before : List LogLine) → TakesBack undo before self.old.lines → self.new ≡ record { lines = before; good = self.old.good } }
    {
        let Undo {
            subject,
            before,
            kept_count,
        } = undo;
        self.latest.restore(subject, before);
        self.kept_count = kept_count;
        self.lines.pop();
    }

    /// The lines of all that can still be found, in order: each record and each scan whose subject no later line has. They
    /// are read back as these lines.
    pub fn kept(&self) -> Result<Vec<u8>, OutOfMemory>
        ensures exact { IfOk result (λ bytes. bytes.items ≡ log_bytes (kept self.now.lines)) }
        ensures read { IfOk result (λ bytes. IsReading bytes.items (kept self.now.lines) (length bytes.items)) }
    {
        let mut bytes = Vec::new(self.alloc);
        for (place, line) in self.lines.iter().enumerate() {
            push_kept(self.alloc, &mut bytes, &self.latest, place, line)?;
        }
        Ok(bytes)
    }
}

/// The longest prefix of the bytes that is made of good lines, as a log. What follows it is left out, also a line without
/// its end or of another form; so its only error is out of memory. Takes time in proportion to the length, times its
/// logarithm for the look-ups.
pub fn read_log(alloc: Global, bytes: &[u8]) -> Result<Log, OutOfMemory>
    ensures { IfOk result (λ log. IsReading bytes.now log.lines log.good) }
{
    let mut log = Log::new(alloc);
    let mut rest = bytes;
    while let Some((line, after)) = next_line(alloc, rest)? {
        log.add(line)?;
        rest = after;
    }
    log.good = bytes.len() - rest.len();
    Ok(log)
}
