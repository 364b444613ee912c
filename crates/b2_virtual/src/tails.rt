//! The tails of sources and of converted files.
ghost use Rattle.std.specs.Prelude.{◌≡◌, ◌++◌, map, string_bytes, IfOk, IfSome};
ghost use Rattle.std.specs.List.{join_with_byte, list_all};
ghost use Rattle.std.specs.Option.{option_copied};
ghost use Rattle.b2_base.specs.Bytes.{HasNoZero};
ghost use Rattle.b2_base.specs.Segments.{segments, texts, without_suffix};
ghost use Rattle.b2_virtual.specs.Paths.{up_shown, source_tail, dotted, converted_tail, is_down};

use b2_base::fault::OutOfMemory;
use b2_base::path::{Path, path_of};
use b2_base::rooted::is_rooted;
use b2_base::segments::cut;
use std::alloc::Global;

fn up_shown(segment: &str) -> &str
    ensures { result.now ≡ up_shown segment.now }
{
    if segment == ".." { "up" } else { segment }
}

fn ups_shown<'a>(alloc: Global, cuts: &[&'a str]) -> Result<Vec<&'a str>, OutOfMemory>
    ensures { IfOk result (λ shown. texts shown.items ≡ map up_shown (texts cuts.now)) }
{
    let mut shown = Vec::new(alloc);
    for cut in cuts {
        shown.push(up_shown(cut))?;
    }
    Ok(shown)
}

/// A text where each segment `..` is `up`.
fn with_ups_shown(alloc: Global, text: &str) -> Result<String, OutOfMemory>
    ensures { IfOk result (λ made. string_bytes made ≡ join_with_byte 47 (map up_shown (segments text.now))) }
{
    let cuts = cut(alloc, text)?;
    let shown = ups_shown(alloc, cuts.as_slice())?;
    Ok(shown.join(alloc, "/")?)
}

/// The tail of a path that is shown otherwise than it is.
fn shown_tail(alloc: Global, path: &Path) -> Result<Path, OutOfMemory>
    ensures { IfOk result (λ tail. tail ≡ source_tail path.now) }
{
    let text = path.as_str();
    let root = if is_rooted(text) { "root" } else { "" };
    let rest = with_ups_shown(alloc, text)?;
    let text = format!(in alloc; "{root}{rest}")?;
    path_of(alloc, text.as_str())
}

fn is_down(segment: &str) -> bool
    ensures { result ≡ is_down segment.now }
{
    segment != ".."
}

/// Whether no segment of a text is `..`; takes no memory.
fn are_down(text: &str) -> bool
    ensures { result ≡ list_all is_down (segments text.now) }
{
    text.split('/').all(|segment| is_down(segment))
}

/// The tail of a source's path: the path itself, where each `..` becomes `up`, and `root` stands before a leading slash.
pub fn source_tail(alloc: Global, path: &Path) -> Result<Path, OutOfMemory>
    ensures { IfOk result (λ tail. tail ≡ source_tail path.now) }
{
    // Most paths are their own tails, and their segments are not cut.
    if is_rooted(path.as_str()) {
        return shown_tail(alloc, path);
    }
    if are_down(path.as_str()) {
        return path.copy();
    }
    shown_tail(alloc, path)
}

/// A file's name without its suffix, which begins at the last dot.
fn without_suffix(name: &str) -> &str
    ensures { result.now ≡ without_suffix name.now }
{
    match name.rsplit_once('.') {
        None => name,
        Some((stem, _suffix)) => stem,
    }
}

/// A file's name with another suffix, or none.
fn with_suffix(alloc: Global, name: &str, suffix: Option<&str>) -> Result<String, OutOfMemory>
    ensures { IfOk result (λ made. string_bytes made ≡ without_suffix name.now ++ dotted (option_copied suffix.entry)) }
{
    let stem = without_suffix(name);
    match suffix {
        None => Ok(String::from_str(alloc, stem)?),
        Some(suffix) => Ok(format!(in alloc; "{stem}.{suffix}")?),
    }
}

/// The tail of a converted file: that of its input with another suffix, which is written without its dot, or with none.
pub fn converted_tail(alloc: Global, tail: &Path, suffix: Option<&str>) -> Result<Path, OutOfMemory>
    requires { IfSome (option_copied suffix) HasNoZero }
    ensures { IfOk result (λ made. made ≡ converted_tail tail.now (option_copied suffix.entry)) }
{
    let text = tail.as_str();
    match text.rsplit_once('/') {
        None => {
            let name = with_suffix(alloc, text, suffix)?;
            path_of(alloc, name.as_str())
        }
        Some((folder, name)) => {
            let name = with_suffix(alloc, name, suffix)?;
            let text = format!(in alloc; "{folder}/{name}")?;
            path_of(alloc, text.as_str())
        }
    }
}
