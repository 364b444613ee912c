//! The includes of a file.
ghost use Rattle.std.specs.Prelude.{◌≡◌, ◌++◌, IfOk, OnOk, map, option_to_list};
ghost use Rattle.jam_scan.specs.IncludeLines.{include_of, includes_of};
ghost use Rattle.jam_scan.specs.Scans.{has_suffix, has_one, is_scanned};

use crate::include::IncludeList;
use crate::line::include_of;
use b2_base::fault::OutOfMemory;
use b2_base::path::Path;
use memchr::memchr;
use std::alloc::Global;

/// Adds the include of a line at the end, where it has one.
fn add_line(alloc: Global, found: &mut IncludeList, line: &[u8]) -> Result<(), OutOfMemory>
    ensures { OnOk result (found.new ≡ found.old ++ option_to_list (include_of line.now)) }
{
    if let Some(include) = include_of(alloc, line)? {
        found.push(include)?;
    }
    Ok(())
}

/// The includes of a file's bytes, in order. Takes time in proportion to the bytes, and memory for what is found alone.
pub fn includes(alloc: Global, bytes: &[u8]) -> Result<IncludeList, OutOfMemory>
    ensures { IfOk result (λ found. found ≡ includes_of bytes.now) }
{
    let mut found = IncludeList::new(alloc);
    let mut rest = bytes;
    while let Some(end) = memchr(b'\n', rest) {
        let (line, after) = rest.split_at(end);
        add_line(alloc, &mut found, line)?;
        rest = &after[1..];
    }
    add_line(alloc, &mut found, rest)?;
    Ok(found)
}

static SUFFIXES: [&str; 8] = [".c", ".cc", ".cpp", ".cxx", ".h", ".hh", ".hpp", ".hxx"];

fn has_suffix(text: &str, suffix: &str) -> bool
    ensures { result ≡ has_suffix text.now suffix.now }
{
    text.ends_with(suffix)
}

#[tactic(auto, unfolding(crate::specs::Scans::has_one))]
fn has_one(text: &str, suffixes: &[&str]) -> bool
    ensures { result ≡ has_one text.now (map (λ suffix. suffix.now) suffixes.now) }
{
    match suffixes {
        [] => false,
        [suffix, more @ ..] => has_suffix(text, suffix) || has_one(text, more),
    }
}

/// Whether a file at this path is scanned for includes: it has a suffix of C or C++, which are `.c`, `.cc`, `.cpp`, `.cxx`,
/// `.h`, `.hh`, `.hpp` and `.hxx`. Takes no memory.
#[tactic(auto, unfolding(crate::specs::Scans::is_scanned))]
pub fn is_scanned(path: &Path) -> bool
    ensures { result ≡ is_scanned path.now }
{
    has_one(path.as_str(), SUFFIXES.as_slice())
}
