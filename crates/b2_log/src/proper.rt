//! What is asked of a line that is made.
ghost use Rattle.std.specs.Prelude.{◌+◌, ◌<◌, length, IsTrue, ◌↔◌};
ghost use Rattle.std.specs.List.{AllByRecursion};
ghost use Rattle.b2_log.specs.Good.{IsHex, IsDigest, AreDigests, IsRising, RisesAt, HasDigests, IsProperRecord, IsProper};

use crate::line::{LogLine, Record};
use b2_base::path::Path;
use b2_base::text::Text;

/// Whether the path at a place stands before the next one in byte order.
fn rises_at(files: &[(Path, u64)], place: usize) -> bool
    requires { place + 1 < length files.now }
    ensures { IsTrue result ↔ RisesAt files.now place }
{
    files[place].0.cmp(&files[place + 1].0).is_lt()
}

/// Whether the paths stand in byte order, and none of them twice.
fn is_rising(files: &[(Path, u64)]) -> bool
    ensures { IsTrue result ↔ IsRising files.now }
{
    for place in 1..files.len() {
        if !rises_at(files, place - 1) {
            return false;
        }
    }
    true
}

/// Whether a byte is a hexadecimal digit, of which the letters are lower-case.
fn is_hex(byte: u8) -> bool
    ensures { IsTrue result ↔ IsHex byte }
{
    matches!(byte, b'0'..=b'9' | b'a'..=b'f')
}

/// Whether a text is a digest: 64 lower-case hexadecimal digits.
pub fn is_digest(text: &str) -> bool
    ensures { IsTrue result ↔ IsDigest text.now }
{
    text.len() == 64 && text.as_bytes().iter().all(|byte| is_hex(*byte))
}

fn all_digests(digests: &[Text]) -> bool
    ensures { IsTrue result ↔ AllByRecursion IsDigest digests.now }
{
    for digest in digests {
        if !is_digest(digest.as_str()) {
            return false;
        }
    }
    true
}

/// Whether there is a digest for each path.
fn are_digests(files: &[(Path, u64)], digests: &[Text]) -> bool
    ensures { IsTrue result ↔ AreDigests files.now digests.now }
{
    digests.len() == files.len() && all_digests(digests)
}

/// Whether a record has no digests, or one for each path.
fn has_digests(record: &Record) -> bool
    ensures { IsTrue result ↔ HasDigests record.now record.now.digests }
{
    match &record.digests {
        None => true,
        Some(digests) => {
            are_digests(record.outs.as_slice(), digests.outs.as_slice())
                && are_digests(record.ins.as_slice(), digests.ins.as_slice())
        }
    }
}

/// Whether a record has an output, inputs in byte order without repeats, and digests for all of them or none.
fn is_proper_record(record: &Record) -> bool
    ensures { IsTrue result ↔ IsProperRecord record.now }
{
    !record.outs.as_slice().is_empty() && is_rising(record.ins.as_slice()) && has_digests(record)
}

/// Whether a line may be added to a log, and is read back once it is written. A record needs an output, inputs in byte order
/// of path without repeats, and where it has digests, one for each output and input. A drop needs an output, and a scan
/// nothing. Takes no memory.
pub fn is_proper(line: &LogLine) -> bool
    ensures { IsTrue result ↔ IsProper line.now }
{
    match line {
        LogLine::Record(record) => is_proper_record(record),
        LogLine::Drop(outs) => !outs.as_slice().is_empty(),
        LogLine::Scan(_) => true,
    }
}
