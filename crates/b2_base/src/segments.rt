//! A path's segments: cut at slashes, brought into normal form, and joined again.
ghost use Rattle.std.specs.Prelude.{◌≡◌, ◌↔◌, ℕ, List, ◌∷◌, ◌++◌, codes, IfOk, IsTrue, OnOk, string_bytes};
ghost use Rattle.std.specs.List.{list_all};
ghost use Rattle.b2_base.specs.Normal.{IsNormal, IsUnder, first_part};
ghost use Rattle.b2_base.specs.Segments.{segments, file_name, is_dropped, is_up, is_name, after_ups, step, kept, written, texts, stack};

use crate::fault::OutOfMemory;
use crate::rooted::is_rooted;
use std::alloc::Global;

fn is_dropped_segment(segment: &str) -> bool
    ensures { result ≡ is_dropped segment.now }
{
    segment == "" || segment == "."
}

fn is_up_segment(segment: &str) -> bool
    ensures { result ≡ is_up segment.now }
{
    segment == ".."
}

/// The segments of a text, which is cut at each slash, in order; the empty text has one, which is empty.
pub fn cut(alloc: Global, text: &str) -> Result<Vec<&str>, OutOfMemory>
    ensures { IfOk result (λ cuts. texts cuts.items ≡ segments text.now) }
{
    let cuts = text.split('/').collect(alloc)?;
    Ok(cuts)
}

fn take_in<'a>(rooted: bool, kept: &mut Vec<&'a str>, segment: &'a str) -> Result<(), OutOfMemory>
    ensures { OnOk result (stack kept.new.items ≡ step rooted (stack kept.old.items) segment.now) }
{
    if is_dropped_segment(segment) {
        return Ok(());
    }
    if is_up_segment(segment) {
        match kept.last() {
            None => {
                if rooted {
                    return Ok(());
                }
            }
            Some(top) => {
                if !is_up_segment(top) {
                    let _top = kept.pop();
                    return Ok(());
                }
            }
        }
    }
    kept.push(segment)?;
    Ok(())
}

/// The segments of the normal form.
pub(crate) fn keep<'a>(
    alloc: Global,
    rooted: bool,
    cuts: &[&'a str],
) -> Result<Vec<&'a str>, OutOfMemory>
    ensures { IfOk result (λ found. texts found.items ≡ kept rooted (texts cuts.now)) }
{
    let mut found = Vec::new(alloc);
    for cut in cuts {
        take_in(rooted, &mut found, cut)?;
    }
    Ok(found)
}

/// The segments as one text.
#[tactic(auto, using(crate::proofs::BothJoinsMakeOneText::joined))]
pub(crate) fn join(alloc: Global, rooted: bool, found: &[&str]) -> Result<String, OutOfMemory>
    ensures { IfOk result (λ text. string_bytes text ≡ written rooted (texts found.now)) }
{
    let names = found.join(alloc, "/")?;
    if rooted {
        return Ok(format!(in alloc; "/{names}")?);
    }
    if found.is_empty() {
        return Ok(String::from_str(alloc, ".")?);
    }
    Ok(names)
}

fn is_name(segment: &str) -> bool
    ensures { result ≡ is_name segment.now }
{
    !is_dropped_segment(segment) && !is_up_segment(segment)
}

/// Whether each segment of a text is a name.
fn are_names(text: &str) -> bool
    ensures { result ≡ list_all is_name (segments text.now) }
{
    text.split('/').all(|segment| is_name(segment))
}

/// Whether each segment of a text is a name, but for some `..` that stand before all names.
fn are_ups_and_names(text: &str) -> bool
    ensures { result ≡ list_all is_name (after_ups (segments text.now)) }
{
    text.split('/')
        .skip_while(|segment| is_up_segment(segment))
        .all(|segment| is_name(segment))
}

/// Whether a text is in normal form. Reads it once, and takes no memory.
pub fn is_normal(text: &str) -> bool
    ensures { IsTrue result ↔ IsNormal text.now }
{
    match text.strip_prefix('/') {
        Some(names) => names.is_empty() || are_names(names),
        None => text == "." || are_ups_and_names(text),
    }
}

/// The file's name in a path: what stands after the last slash. Takes no memory.
pub(crate) fn file_name(path: &str) -> &str
    ensures { result.now ≡ file_name path.now }
{
    match path.rsplit_once('/') {
        None => path,
        Some((_folder, name)) => name,
    }
}

/// Whether a text in normal form begins with the segment `..`. Takes no memory.
pub fn begins_above(path: &str) -> bool
    requires { IsNormal path.now }
    ensures { result ≡ is_up (first_part path.now) }
{
    path == ".." || path.starts_with("../")
}

/// Whether a text in normal form lies below `.`.
fn is_below_here(path: &str) -> bool
    requires { IsNormal path.now }
    ensures { IsTrue result ↔ IsUnder path.now (codes ".") }
{
    path != "." && !is_rooted(path) && !begins_above(path)
}

/// Whether a text in normal form lies below the root.
fn is_below_root(path: &str) -> bool
    requires { IsNormal path.now }
    ensures { IsTrue result ↔ IsUnder path.now (codes "/") }
{
    path != "/" && is_rooted(path)
}

/// Whether a text is another one with a slash after it, and maybe more.
fn goes_on(path: &str, dir: &str) -> bool
    ensures { IsTrue result ↔ ((rest : List ℕ) × (path.now ≡ dir.now ++ 47 ∷ rest)) }
{
    match path.strip_prefix(dir) {
        None => false,
        Some(rest) => rest.starts_with('/'),
    }
}

/// Whether the first text lies below the second, both in normal form.
pub(crate) fn is_below(path: &str, dir: &str) -> bool
    requires path { IsNormal path.now }
    requires dir { IsNormal dir.now }
    ensures { IsTrue result ↔ IsUnder path.now dir.now }
{
    match dir {
        "." => is_below_here(path),
        "/" => is_below_root(path),
        _ => goes_on(path, dir),
    }
}
