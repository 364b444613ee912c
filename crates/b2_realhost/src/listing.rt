//! The names of the files in a directory.
ghost use Rattle.std.specs.Prelude.{IfOk};
ghost use Rattle.std.specs.List.Sorted.{IsStrictlySortedBy};
ghost use Rattle.std.specs.Ordering.{nat_cmp};
ghost use Rattle.std.specs.Cmp.Lexicographic.{slice_cmp};

use crate::system_files::{is_missing, metadata_at};
use b2_base::text::{Text, has_no_zero};
use b2_base::text_list::TextList;
use std::fs::{DirEntry, ReadDir};
use std::io::ErrorKind;
use std::rt::Files as Disk;
use std::{fs, io};

/// A directory with more names of files than this cannot be listed.
const MOST_NAMES: usize = 1_000_000;

/// The name of an entry, where a file stands there. A name that is no UTF-8 is passed over.
fn file_name<R: Disk + AllocGlobal + Clone + Drop>(
    rt: &R,
    entry: io::Result<DirEntry<R>>,
) -> io::Result<Option<Text>> {
    let entry = match entry {
        Ok(entry) => entry,
        Err(error) => {
            return match error.kind() {
                ErrorKind::InvalidFilename => Ok(None),
                _ => Err(error),
            };
        }
    };
    if metadata_at(rt, entry.path())?.is_none() {
        return Ok(None);
    }
    let name = entry.file_name();
    if !has_no_zero(name) {
        return Ok(None);
    }
    match Text::new(rt.alloc(), name) {
        Ok(name) => Ok(Some(name)),
        Err(_error) => Err(io::Error::from(ErrorKind::OutOfMemory)),
    }
}

/// The names of the files among the entries, in the order of the entries.
fn file_names<R: Disk + AllocGlobal + Clone + Drop>(
    rt: &R,
    entries: ReadDir<R>,
) -> io::Result<Vec<Text>> {
    let mut names = Vec::new(rt.alloc());
    for entry in entries {
        if let Some(name) = file_name(rt, entry)? {
            if names.len() == MOST_NAMES {
                return Err(io::Error::from(ErrorKind::FileTooLarge));
            }
            names.push(name)?;
        }
    }
    Ok(names)
}

/// The names in byte order, each once.
fn in_order(mut names: Vec<Text>) -> io::Result<TextList>
    ensures { IfOk result (λ made. IsStrictlySortedBy (slice_cmp nat_cmp) made) }
{
    names.sort()?;
    names.dedup();
    Ok(TextList::from_vec(names))
}

/// The names of the files directly in a directory, each once, in byte order. A missing directory has none.
pub fn list_at<R: Disk + AllocGlobal + Clone + Drop>(rt: &R, dir: &str) -> io::Result<TextList>
    ensures { IfOk result (λ names. IsStrictlySortedBy (slice_cmp nat_cmp) names) }
{
    let names = match fs::read_dir(rt, dir) {
        Ok(entries) => file_names(rt, entries)?,
        Err(error) => {
            if !is_missing(&error) {
                return Err(error);
            }
            Vec::new(rt.alloc())
        }
    };
    in_order(names)
}
