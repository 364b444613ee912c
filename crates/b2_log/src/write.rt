//! Writes lines.
ghost use Rattle.std.specs.Prelude.{◌≡◌, ◌≤◌, ◌++◌, length, IfOk, OnOk};
ghost use Rattle.std.specs.List.{zip};
ghost use Rattle.b2_log.specs.declared.line.LogLine.TheVariants as lines;
ghost use Rattle.b2_log.specs.Lines.{escaped, field, number, stamped, digested, mark, included, counted, file_fields, line_end, tag_text, spelling};
ghost use Rattle.b2_log.specs.Good.{IsText, IsNumber, IsPath, IsStamped, IsIncluded, IsCounted, IsProper, IsGood};

use crate::line::{LogLine, Record, ScanLine};
use crate::tag::{Tag, record_tag, tag_text};
use b2_base::fault::OutOfMemory;
use b2_base::path::Path;
use b2_base::text::Text;
use std::alloc::Global;

/// Appends a byte as it stands within a field.
fn push_escaped(line: &mut Vec<u8>, byte: u8) -> Result<(), OutOfMemory>
    ensures { OnOk result (line.new.items ≡ line.old.items ++ escaped byte) }
{
    match byte {
        b'\\' => line.extend_from_slice(b"\\\\")?,
        b'\t' => line.extend_from_slice(b"\\t")?,
        b'\n' => line.extend_from_slice(b"\\n")?,
        _ => line.push(byte)?,
    }
    Ok(())
}

/// Appends a field and the tab after it.
#[tactic(auto, unfolding(crate::specs::Lines::field))]
fn push_field(line: &mut Vec<u8>, text: &[u8]) -> Result<(), OutOfMemory>
    ensures { OnOk result (line.new.items ≡ line.old.items ++ field text.now) }
{
    for byte in text {
        push_escaped(line, *byte)?;
    }
    line.push(b'\t')?;
    Ok(())
}

/// Appends a number as a field.
fn push_number(alloc: Global, line: &mut Vec<u8>, n: u64) -> Result<(), OutOfMemory>
    ensures pushes { OnOk result (line.new.items ≡ line.old.items ++ number n) }
    ensures held { OnOk result (IsNumber n) }
{
    let digits = format!(in alloc; "{n}")?;
    push_field(line, digits.as_bytes())
}

/// Appends a text as a field.
fn push_text(line: &mut Vec<u8>, text: &Text) -> Result<(), OutOfMemory>
    ensures pushes { OnOk result (line.new.items ≡ line.old.items ++ field text.now) }
    ensures held { OnOk result (IsText text.now) }
{
    push_field(line, text.as_str().as_bytes())
}

/// Appends a path as a field.
fn push_path(line: &mut Vec<u8>, path: &Path) -> Result<(), OutOfMemory>
    ensures pushes { OnOk result (line.new.items ≡ line.old.items ++ field path.now) }
    ensures held { OnOk result (IsPath path.now) }
{
    push_field(line, path.as_str().as_bytes())
}

/// Appends a path and its stamp.
fn push_file(alloc: Global, line: &mut Vec<u8>, file: &(Path, u64)) -> Result<(), OutOfMemory>
    ensures pushes { OnOk result (line.new.items ≡ line.old.items ++ stamped file.now) }
    ensures held { OnOk result (IsStamped file.now) }
{
    push_path(line, &file.0)?;
    push_number(alloc, line, file.1)
}

/// Appends how many paths there are, and each with its stamp.
fn push_stamped(alloc: Global, line: &mut Vec<u8>, files: &[(Path, u64)]) -> Result<(), OutOfMemory>
    ensures pushes { OnOk result (line.new.items ≡ line.old.items ++ counted stamped files.now) }
    ensures held { OnOk result (IsCounted IsStamped files.now) }
{
    push_number(alloc, line, files.len() as u64)?;
    for file in files {
        push_file(alloc, line, file)?;
    }
    Ok(())
}

/// Appends a path, its stamp and its digest.
fn push_digested_file(
    alloc: Global,
    line: &mut Vec<u8>,
    file: &(Path, u64),
    digest: &Text,
) -> Result<(), OutOfMemory>
    ensures pushes { OnOk result (line.new.items ≡ line.old.items ++ digested (file.now, digest.now)) }
    ensures held { OnOk result (IsStamped file.now) }
{
    push_file(alloc, line, file)?;
    push_text(line, digest)
}

/// How many paths there are with a digest beside them.
fn pair_count(files: &[(Path, u64)], digests: &[Text]) -> usize
    ensures count { result ≡ length (zip files.now digests.now) }
    ensures in_files { result ≤ length files.now }
    ensures in_digests { result ≤ length digests.now }
{
    if digests.len() < files.len() {
        digests.len()
    } else {
        files.len()
    }
}

/// Appends how many paths there are, and each with its stamp and its digest. Where there are more of the ones than of the
/// others, those that are too many are left out.
fn push_digested(
    alloc: Global,
    line: &mut Vec<u8>,
    files: &[(Path, u64)],
    digests: &[Text],
) -> Result<(), OutOfMemory>
    ensures pushes { OnOk result (line.new.items ≡ line.old.items ++ counted digested (zip files.now digests.now)) }
    ensures held { OnOk result (length digests.now ≡ length files.now → IsCounted IsStamped files.now) }
{
    let count = pair_count(files, digests);
    push_number(alloc, line, count as u64)?;
    for place in 0..count {
        push_digested_file(alloc, line, &files[place], &digests[place])?;
    }
    Ok(())
}

/// Appends how many paths there are, and each of them.
fn push_paths(alloc: Global, line: &mut Vec<u8>, paths: &[Path]) -> Result<(), OutOfMemory>
    ensures pushes { OnOk result (line.new.items ≡ line.old.items ++ counted field paths.now) }
    ensures held { OnOk result (IsCounted IsPath paths.now) }
{
    push_number(alloc, line, paths.len() as u64)?;
    for path in paths {
        push_path(line, path)?;
    }
    Ok(())
}

/// `q` for an include in quotes, `a` for one in angle brackets.
fn mark(quoted: bool) -> &'static [u8]
    ensures { result.now ≡ mark quoted }
{
    if quoted { b"q" } else { b"a" }
}

/// Appends an include as two fields: its mark and its name.
fn push_include(line: &mut Vec<u8>, include: &(Text, bool)) -> Result<(), OutOfMemory>
    ensures pushes { OnOk result (line.new.items ≡ line.old.items ++ included include.now) }
    ensures held { OnOk result (IsIncluded include.now) }
{
    push_field(line, mark(include.1))?;
    push_text(line, &include.0)
}

/// Appends how many includes there are, and each of them.
fn push_includes(
    alloc: Global,
    line: &mut Vec<u8>,
    includes: &[(Text, bool)],
) -> Result<(), OutOfMemory>
    ensures pushes { OnOk result (line.new.items ≡ line.old.items ++ counted included includes.now) }
    ensures held { OnOk result (IsCounted IsIncluded includes.now) }
{
    push_number(alloc, line, includes.len() as u64)?;
    for include in includes {
        push_include(line, include)?;
    }
    Ok(())
}

/// Appends the outputs and the inputs of a record, each with its digest where it has digests.
fn push_files(alloc: Global, line: &mut Vec<u8>, rec: &Record) -> Result<(), OutOfMemory>
    ensures pushes { OnOk result (line.new.items ≡ line.old.items ++ file_fields rec.now rec.now.digests) }
    ensures outs { OnOk result (IsProper (lines.Record rec.now) → IsCounted IsStamped rec.now.outs) }
    ensures ins { OnOk result (IsProper (lines.Record rec.now) → IsCounted IsStamped rec.now.ins) }
{
    let outs = rec.outs.as_slice();
    let ins = rec.ins.as_slice();
    match &rec.digests {
        None => {
            push_stamped(alloc, line, outs)?;
            push_stamped(alloc, line, ins)
        }
        Some(digests) => {
            push_digested(alloc, line, outs, digests.outs.as_slice())?;
            push_digested(alloc, line, ins, digests.ins.as_slice())
        }
    }
}

/// Appends a tag as the first field of a line.
fn push_tag(line: &mut Vec<u8>, tag: Tag) -> Result<(), OutOfMemory>
    ensures { OnOk result (line.new.items ≡ line.old.items ++ field (tag_text tag)) }
{
    push_field(line, tag_text(tag))
}

/// Appends the field that ends a line, and the line feed after it.
fn push_end(line: &mut Vec<u8>) -> Result<(), OutOfMemory>
    ensures { OnOk result (line.new.items ≡ line.old.items ++ line_end) }
{
    line.extend_from_slice(b".\n")?;
    Ok(())
}

/// Appends a record's line.
fn push_record(alloc: Global, line: &mut Vec<u8>, rec: &Record) -> Result<(), OutOfMemory>
    ensures pushes { OnOk result (line.new.items ≡ line.old.items ++ spelling (lines.Record rec.now)) }
    ensures good { OnOk result (IsProper (lines.Record rec.now) → IsGood (lines.Record rec.now)) }
{
    push_tag(line, record_tag(&rec.digests))?;
    push_text(line, &rec.text)?;
    push_files(alloc, line, rec)?;
    push_end(line)
}

/// Appends a drop's line.
fn push_drop(alloc: Global, line: &mut Vec<u8>, outs: &[Path]) -> Result<(), OutOfMemory>
    ensures pushes { OnOk result (line.new.items ≡ line.old.items ++ spelling (lines.Drop outs.now)) }
    ensures good { OnOk result (IsProper (lines.Drop outs.now) → IsGood (lines.Drop outs.now)) }
{
    push_tag(line, Tag::Drop)?;
    push_paths(alloc, line, outs)?;
    push_end(line)
}

/// Appends the path and the stamp of a scan.
fn push_scanned(alloc: Global, line: &mut Vec<u8>, scan: &ScanLine) -> Result<(), OutOfMemory>
    ensures pushes { OnOk result (line.new.items ≡ line.old.items ++ (field scan.now.path ++ number scan.now.stamp)) }
    ensures path { OnOk result (IsPath scan.now.path) }
    ensures stamp { OnOk result (IsNumber scan.now.stamp) }
{
    push_path(line, &scan.path)?;
    push_number(alloc, line, scan.stamp)
}

/// Appends a scan's line.
fn push_scan(alloc: Global, line: &mut Vec<u8>, scan: &ScanLine) -> Result<(), OutOfMemory>
    ensures pushes { OnOk result (line.new.items ≡ line.old.items ++ spelling (lines.Scan scan.now)) }
    ensures good { OnOk result (IsGood (lines.Scan scan.now)) }
{
    push_tag(line, Tag::Scan)?;
    push_scanned(alloc, line, scan)?;
    push_includes(alloc, line, scan.includes.as_slice())?;
    push_end(line)
}

/// Appends the fields of a line in the order of its kind, and its end.
pub(crate) fn push_line(
    alloc: Global,
    bytes: &mut Vec<u8>,
    line: &LogLine,
) -> Result<(), OutOfMemory>
    ensures pushes { OnOk result (bytes.new.items ≡ bytes.old.items ++ spelling line.now) }
    ensures good { OnOk result (IsProper line.now → IsGood line.now) }
{
    match line {
        LogLine::Record(record) => push_record(alloc, bytes, record),
        LogLine::Drop(outs) => push_drop(alloc, bytes, outs.as_slice()),
        LogLine::Scan(scan) => push_scan(alloc, bytes, scan),
    }
}

/// The line of a record: its tag, its text, the number of outputs, path and stamp of each, the number of inputs, path and
/// stamp of each, and `.`, with a tab between two fields and a line feed at the end. The tag is `+1`; where the record has
/// digests, it is `+2`, and the digest of each file follows its stamp. In a field a backslash, a tab and a line feed are
/// written `\\`, `\t` and `\n`. Numbers are decimal, without leading zeros.
pub fn record_line(alloc: Global, rec: &Record) -> Result<Vec<u8>, OutOfMemory>
    ensures exact { IfOk result (λ line. line.items ≡ spelling (lines.Record rec.now)) }
    ensures good { OnOk result (IsProper (lines.Record rec.now) → IsGood (lines.Record rec.now)) }
{
    let mut line = Vec::new(alloc);
    push_record(alloc, &mut line, rec)?;
    Ok(line)
}

/// The line of a drop: the fields `-1`, the number of outputs, their paths, and `.`, written as those of a record.
pub fn drop_line(alloc: Global, outs: &[Path]) -> Result<Vec<u8>, OutOfMemory>
    ensures exact { IfOk result (λ line. line.items ≡ spelling (lines.Drop outs.now)) }
    ensures good { OnOk result (IsProper (lines.Drop outs.now) → IsGood (lines.Drop outs.now)) }
{
    let mut line = Vec::new(alloc);
    push_drop(alloc, &mut line, outs)?;
    Ok(line)
}

/// The line of a scan: the fields `s1`, the path, its stamp, the number of includes, for each of them `q` where it was written
/// in quotes and `a` where it was not, and its name, and `.`, written as those of a record.
pub fn scan_line(alloc: Global, scan: &ScanLine) -> Result<Vec<u8>, OutOfMemory>
    ensures exact { IfOk result (λ line. line.items ≡ spelling (lines.Scan scan.now)) }
    ensures good { OnOk result (IsGood (lines.Scan scan.now)) }
{
    let mut line = Vec::new(alloc);
    push_scan(alloc, &mut line, scan)?;
    Ok(line)
}

/// A line of any kind, as `record_line`, `drop_line` and `scan_line` write theirs.
pub fn line_bytes(alloc: Global, line: &LogLine) -> Result<Vec<u8>, OutOfMemory>
    ensures exact { IfOk result (λ bytes. bytes.items ≡ spelling line.now) }
    ensures good { OnOk result (IsProper line.now → IsGood line.now) }
{
    let mut bytes = Vec::new(alloc);
    push_line(alloc, &mut bytes, line)?;
    Ok(bytes)
}
