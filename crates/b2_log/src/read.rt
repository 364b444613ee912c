//! Reads a line.
ghost use Rattle.std.specs.Prelude.{◌≡◌, ◌≢◌, ℕ, ◌<◌, List, ◌++◌, length, IfOk, IfSome, IsErrOf, MatchOption};
ghost use Rattle.b2_log.specs.Lines.{line_end, fields_of, spelling};
ghost use Rattle.b2_log.specs.Good.{IsGood};
ghost use Rattle.b2_log.specs.Readings.{Begins, BeginsNone, Ends, IsReadAs};

use crate::field::{number_at, path_at, tag_at, text_at};
use crate::line::{Digests, LogLine, Record, ScanLine};
use crate::line_fault::LineFault;
use crate::list::{digested_at, includes_at, paths_at, stamped_at};
use crate::proper::is_proper;
use crate::tag::Tag;
use b2_base::fault::OutOfMemory;
use std::alloc::Global;

/// What follows the end of a line.
fn after_end(bytes: &[u8]) -> Option<&[u8]>
    ensures { MatchOption result ((rest : List ℕ) → bytes.now ≢ line_end ++ rest) (λ after. bytes.now ≡ line_end ++ after.now) }
{
    match bytes {
        [b'.', b'\n', after @ ..] => Some(after),
        _ => None,
    }
}

/// What follows the end of this line, where it is proper and its end stands first.
fn after_line<'a>(line: &LogLine, bytes: &'a [u8]) -> Option<&'a [u8]>
    ensures { MatchOption result ((after : List ℕ) → ¬ Ends line.now bytes.now after) (λ after. Ends line.now bytes.now after.now) }
{
    if !is_proper(line) {
        return None;
    }
    after_end(bytes)
}

/// The record without digests whose fields stand first, and what follows them.
fn record_at(alloc: Global, bytes: &[u8]) -> Result<(LogLine, &[u8]), LineFault>
    ensures found { IfOk result (λ read. Begins fields_of (IsReadAs Tag.Record) bytes.now read.0 read.1.now) }
    ensures refused { IsErrOf result LineFault.NotGood → BeginsNone fields_of (IsReadAs Tag.Record) bytes.now }
{
    let (text, rest) = text_at(alloc, bytes)?;
    let (outs, rest) = stamped_at(alloc, rest)?;
    let (ins, rest) = stamped_at(alloc, rest)?;
    let record = Record {
        text,
        outs,
        ins,
        digests: None,
    };
    Ok((LogLine::Record(record), rest))
}

/// The record with digests whose fields stand first, and what follows them.
fn digested_record_at(alloc: Global, bytes: &[u8]) -> Result<(LogLine, &[u8]), LineFault>
    ensures found { IfOk result (λ read. Begins fields_of (IsReadAs Tag.Digested) bytes.now read.0 read.1.now) }
    ensures refused { IsErrOf result LineFault.NotGood → BeginsNone fields_of (IsReadAs Tag.Digested) bytes.now }
{
    let (text, rest) = text_at(alloc, bytes)?;
    let (outs, rest) = digested_at(alloc, rest)?;
    let (ins, rest) = digested_at(alloc, rest)?;
    let record = Record {
        text,
        outs: outs.files,
        ins: ins.files,
        digests: Some(Digests {
            outs: outs.digests,
            ins: ins.digests,
        }),
    };
    Ok((LogLine::Record(record), rest))
}

/// The drop whose outputs stand first, and what follows them.
fn drop_at(alloc: Global, bytes: &[u8]) -> Result<(LogLine, &[u8]), LineFault>
    ensures found { IfOk result (λ read. Begins fields_of (IsReadAs Tag.Drop) bytes.now read.0 read.1.now) }
    ensures refused { IsErrOf result LineFault.NotGood → BeginsNone fields_of (IsReadAs Tag.Drop) bytes.now }
{
    let (outs, rest) = paths_at(alloc, bytes)?;
    Ok((LogLine::Drop(outs), rest))
}

/// The scan whose fields stand first, and what follows them.
fn scan_at(alloc: Global, bytes: &[u8]) -> Result<(LogLine, &[u8]), LineFault>
    ensures found { IfOk result (λ read. Begins fields_of (IsReadAs Tag.Scan) bytes.now read.0 read.1.now) }
    ensures refused { IsErrOf result LineFault.NotGood → BeginsNone fields_of (IsReadAs Tag.Scan) bytes.now }
{
    let (path, rest) = path_at(alloc, bytes)?;
    let (stamp, rest) = number_at(alloc, rest)?;
    let (includes, rest) = includes_at(alloc, rest)?;
    let scan = ScanLine {
        path,
        stamp,
        includes,
    };
    Ok((LogLine::Scan(scan), rest))
}

/// The line of this kind whose fields stand first, and what follows them.
fn fields_at(alloc: Global, tag: Tag, bytes: &[u8]) -> Result<(LogLine, &[u8]), LineFault>
    ensures found { IfOk result (λ read. Begins fields_of (IsReadAs tag) bytes.now read.0 read.1.now) }
    ensures refused { IsErrOf result LineFault.NotGood → BeginsNone fields_of (IsReadAs tag) bytes.now }
{
    match tag {
        Tag::Record => record_at(alloc, bytes),
        Tag::Digested => digested_record_at(alloc, bytes),
        Tag::Drop => drop_at(alloc, bytes),
        Tag::Scan => scan_at(alloc, bytes),
    }
}

/// The good line that stands first, and what follows it.
fn line_at(alloc: Global, bytes: &[u8]) -> Result<(LogLine, &[u8]), LineFault>
    ensures found { IfOk result (λ read. Begins spelling IsGood bytes.now read.0 read.1.now) }
    ensures refused { IsErrOf result LineFault.NotGood → BeginsNone spelling IsGood bytes.now }
{
    let Some((tag, rest)) = tag_at(bytes) else {
        return Err(LineFault::NotGood);
    };
    let (line, rest) = fields_at(alloc, tag, rest)?;
    let Some(after) = after_line(&line, rest) else {
        return Err(LineFault::NotGood);
    };
    Ok((line, after))
}

/// The next good line and what follows it, or nothing where no good line stands first. Takes time in proportion to the
/// length of that line, or to what stands before the next line feed.
pub fn next_line(alloc: Global, bytes: &[u8]) -> Result<Option<(LogLine, &[u8])>, OutOfMemory>
    ensures exact { IfOk result (λ next. MatchOption next (BeginsNone spelling IsGood bytes.now) (λ read. Begins spelling IsGood bytes.now read.0 read.1.now)) }
    ensures shorter { IfOk result (λ next. IfSome next (λ read. length read.1.now < length bytes.now)) }
{
    match line_at(alloc, bytes) {
        Ok(read) => Ok(Some(read)),
        Err(LineFault::NotGood) => Ok(None),
        Err(LineFault::OutOfMemory) => Err(OutOfMemory),
    }
}
