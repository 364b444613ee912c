//! Reads lists of fields.
ghost use Rattle.std.specs.Prelude.{◌≡◌, ◌∷◌, ◌++◌, [], length, IfOk, IsErrOf, OnOk};
ghost use Rattle.std.specs.List.{zip};
ghost use Rattle.b2_log.specs.Lines.{field, stamped, digested, included, counted};
ghost use Rattle.b2_log.specs.Good.{IsPath, IsStamped, IsDigested, IsIncluded, IsCounted};
ghost use Rattle.b2_log.specs.Readings.{Begins, BeginsNone};

use crate::field::{digest_at, mark_at, number_at, path_at, text_at};
use crate::line::{IncludeList, StampedPaths};
use crate::line_fault::LineFault;
use b2_base::fault::OutOfMemory;
use b2_base::path::Path;
use b2_base::path_list::PathList;
use b2_base::text::Text;
use b2_base::text_list::TextList;
use std::alloc::Global;

/// The path and the stamp that stand first, and what follows them.
fn file_at(alloc: Global, bytes: &[u8]) -> Result<((Path, u64), &[u8]), LineFault>
    ensures found { IfOk result (λ read. Begins stamped IsStamped bytes.now read.0 read.1.now) }
    ensures refused { IsErrOf result LineFault.NotGood → BeginsNone stamped IsStamped bytes.now }
{
    let (path, rest) = path_at(alloc, bytes)?;
    let (stamp, rest) = number_at(alloc, rest)?;
    Ok(((path, stamp), rest))
}

/// The list of paths with stamps that stands first, and what follows it. Nothing is reserved for the number that is read: a
/// list that is shorter than it says is refused where it ends.
pub fn stamped_at(alloc: Global, bytes: &[u8]) -> Result<(StampedPaths, &[u8]), LineFault>
    ensures found { IfOk result (λ read. Begins (counted stamped) (IsCounted IsStamped) bytes.now read.0 read.1.now) }
    ensures refused { IsErrOf result LineFault.NotGood → BeginsNone (counted stamped) (IsCounted IsStamped) bytes.now }
{
    let (count, start) = number_at(alloc, bytes)?;
    let mut files = StampedPaths::new(alloc);
    let mut rest = start;
    for _ in 0..count {
        let (file, after) = file_at(alloc, rest)?;
        files.push(file)?;
        rest = after;
    }
    Ok((files, rest))
}

/// A path with its stamp and its digest.
#[derive(Drop)]
struct DigestedFile {
    path: Path,
    stamp: u64,
    digest: Text,
}

/// The path, the stamp and the digest that stand first, and what follows them.
fn digested_file_at(alloc: Global, bytes: &[u8]) -> Result<(DigestedFile, &[u8]), LineFault>
    ensures found { IfOk result (λ read. Begins digested IsDigested bytes.now ((read.0.path, read.0.stamp), read.0.digest) read.1.now) }
    ensures refused { IsErrOf result LineFault.NotGood → BeginsNone digested IsDigested bytes.now }
{
    let ((path, stamp), rest) = file_at(alloc, bytes)?;
    let (digest, rest) = digest_at(alloc, rest)?;
    Ok((
        DigestedFile {
            path,
            stamp,
            digest,
        },
        rest,
    ))
}

/// Paths with their stamps, and as many digests.
#[derive(Drop)]
pub struct DigestedFiles {
    /// The paths with their stamps.
    pub files: StampedPaths,
    /// The digest of each.
    pub digests: TextList,
}

/// Adds a path with its stamp and its digest at the end.
fn push_digested(list: &mut DigestedFiles, file: DigestedFile) -> Result<(), OutOfMemory>
    ensures files { OnOk result (list.new.files ≡ list.old.files ++ (file.path, file.stamp) ∷ []) }
    ensures digests { OnOk result (list.new.digests ≡ list.old.digests ++ file.digest ∷ []) }
{
    list.files.push((file.path, file.stamp))?;
    list.digests.push(file.digest)
}

/// The list of paths with stamps and digests that stands first, and what follows it.
pub fn digested_at(alloc: Global, bytes: &[u8]) -> Result<(DigestedFiles, &[u8]), LineFault>
    ensures found { IfOk result (λ read. Begins (counted digested) (IsCounted IsDigested) bytes.now (zip read.0.files read.0.digests) read.1.now) }
    ensures same { IfOk result (λ read. length read.0.digests ≡ length read.0.files) }
    ensures refused { IsErrOf result LineFault.NotGood → BeginsNone (counted digested) (IsCounted IsDigested) bytes.now }
{
    let (count, start) = number_at(alloc, bytes)?;
    let mut list = DigestedFiles {
        files: StampedPaths::new(alloc),
        digests: TextList::new(alloc),
    };
    let mut rest = start;
    for _ in 0..count {
        let (file, after) = digested_file_at(alloc, rest)?;
        push_digested(&mut list, file)?;
        rest = after;
    }
    Ok((list, rest))
}

/// The list of paths that stands first, and what follows it.
pub fn paths_at(alloc: Global, bytes: &[u8]) -> Result<(PathList, &[u8]), LineFault>
    ensures found { IfOk result (λ read. Begins (counted field) (IsCounted IsPath) bytes.now read.0 read.1.now) }
    ensures refused { IsErrOf result LineFault.NotGood → BeginsNone (counted field) (IsCounted IsPath) bytes.now }
{
    let (count, start) = number_at(alloc, bytes)?;
    let mut paths = PathList::new(alloc);
    let mut rest = start;
    for _ in 0..count {
        let (path, after) = path_at(alloc, rest)?;
        paths.push(path)?;
        rest = after;
    }
    Ok((paths, rest))
}

/// The include that stands first, and what follows it.
fn include_at(alloc: Global, bytes: &[u8]) -> Result<((Text, bool), &[u8]), LineFault>
    ensures found { IfOk result (λ read. Begins included IsIncluded bytes.now read.0 read.1.now) }
    ensures refused { IsErrOf result LineFault.NotGood → BeginsNone included IsIncluded bytes.now }
{
    let Some((quoted, rest)) = mark_at(bytes) else {
        return Err(LineFault::NotGood);
    };
    let (name, rest) = text_at(alloc, rest)?;
    Ok(((name, quoted), rest))
}

/// The list of includes that stands first, and what follows it.
pub fn includes_at(alloc: Global, bytes: &[u8]) -> Result<(IncludeList, &[u8]), LineFault>
    ensures found { IfOk result (λ read. Begins (counted included) (IsCounted IsIncluded) bytes.now read.0 read.1.now) }
    ensures refused { IsErrOf result LineFault.NotGood → BeginsNone (counted included) (IsCounted IsIncluded) bytes.now }
{
    let (count, start) = number_at(alloc, bytes)?;
    let mut includes = IncludeList::new(alloc);
    let mut rest = start;
    for _ in 0..count {
        let (include, after) = include_at(alloc, rest)?;
        includes.push(include)?;
        rest = after;
    }
    Ok((includes, rest))
}
