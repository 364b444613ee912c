//! The calls on the files of the system, as the host means them.
ghost use Rattle.std.specs.Prelude.{◌≡◌, IfOk, string_bytes};
ghost use Rattle.b2_realhost.specs.Unfinished.{unfinished_path};

use b2_base::fault::OutOfMemory;
use b2_host::files::ReadAnswer;
use std::alloc::Global;
use std::fs::{File, Metadata, OpenOptions};
use std::io::{ErrorKind, Read};
use std::path::AsPath;
use std::rt::Files as Disk;
use std::time::UNIX_EPOCH;
use std::{fs, io};

/// Whether the error says that no file stands at the path: it is missing, lies below a file, is a loop of links, or has a name
/// that is too long for any file.
pub fn is_missing(error: &io::Error) -> bool {
    match error.kind() {
        ErrorKind::NotFound
        | ErrorKind::NotADirectory
        | ErrorKind::FilesystemLoop
        | ErrorKind::InvalidFilename => true,
        _ => false,
    }
}

/// What the system says of the file at a path, or `None` where none stands. A directory is no file.
pub fn metadata_at<P: AsPath>(rt: &impl Disk, path: P) -> io::Result<Option<Metadata>> {
    match fs::metadata(rt, path) {
        Ok(metadata) => {
            if metadata.is_dir() {
                Ok(None)
            } else {
                Ok(Some(metadata))
            }
        }
        Err(error) => {
            if is_missing(&error) {
                Ok(None)
            } else {
                Err(error)
            }
        }
    }
}

/// The time of the last change in nanoseconds since 1970, where 64 bits hold it.
pub fn stamp_of(metadata: &Metadata) -> Option<u64> {
    let modified = metadata.modified().ok()?;
    let since = modified.duration_since(UNIX_EPOCH).ok()?;
    u64::try_from(since.as_nanos()).ok()
}

/// The bytes of a file that had `size` of them when it was asked, and no more than `most`. It is read no further than one
/// byte beyond `most`, so that a file which grows or never ends is too big. The room for `size` bytes is taken at once,
/// and for one more, so that the end is seen without a larger room.
fn bytes_at<R: Disk + AllocGlobal>(
    rt: &R,
    path: &str,
    size: u64,
    most: u64,
) -> io::Result<ReadAnswer> {
    let file = File::open(rt, path)?;
    let mut bytes = Vec::with_capacity(rt.alloc(), (size as usize).saturating_add(1))?;
    file.take(most.saturating_add(1)).read_to_end(&mut bytes)?;
    let size = bytes.len() as u64;
    if size > most {
        Ok(ReadAnswer::TooBig { size })
    } else {
        Ok(ReadAnswer::Bytes(bytes))
    }
}

/// The bytes at a path, where there are no more than `most`.
pub fn read_at<R: Disk + AllocGlobal>(rt: &R, path: &str, most: u64) -> io::Result<ReadAnswer> {
    match metadata_at(rt, path)? {
        None => Ok(ReadAnswer::Missing),
        Some(metadata) => {
            let size = metadata.len();
            if size > most {
                Ok(ReadAnswer::TooBig { size })
            } else {
                bytes_at(rt, path, size, most)
            }
        }
    }
}

fn is_dir(rt: &impl Disk, path: &str) -> bool {
    match fs::metadata(rt, path) {
        Ok(metadata) => metadata.is_dir(),
        Err(_error) => false,
    }
}

/// Makes the directory in which a file is to stand, and those above it.
pub fn make_parent(rt: &impl Disk, path: &str) -> io::Result<()> {
    match path.rsplit_once('/') {
        None => Ok(()),
        Some((parent, _name)) => {
            if parent.is_empty() || is_dir(rt, parent) {
                Ok(())
            } else {
                fs::create_dir_all(rt, parent)
            }
        }
    }
}

/// Opens a file that is to be written. Its directory is made where it is missing.
pub fn open_to_write<R: Disk>(rt: &R, path: &str, options: &OpenOptions) -> io::Result<R::File> {
    match options.open(rt, path) {
        Ok(file) => Ok(file),
        Err(error) => {
            if error.kind() != ErrorKind::NotFound {
                return Err(error);
            }
            make_parent(rt, path)?;
            options.open(rt, path)
        }
    }
}

/// What the name of a file ends with that takes the place of another one once it is whole.
const UNFINISHED: &str = ".b2-unfinished";

/// The path of the unfinished file beside a file.
pub fn unfinished_path(alloc: Global, path: &str) -> Result<String, OutOfMemory>
    ensures { IfOk result (λ made. string_bytes made ≡ unfinished_path path.now) }
{
    let mut unfinished = String::from_str(alloc, path)?;
    unfinished.push_str(UNFINISHED)?;
    Ok(unfinished)
}

/// Opens a file that is empty from then on. Its directory is made where it is missing.
pub fn open_empty<R: Disk>(rt: &R, path: &str) -> io::Result<R::File> {
    let mut how = OpenOptions::new();
    open_to_write(rt, path, how.write(true).create(true).truncate(true))
}

/// Once the unfinished file was written, it takes the path's name, and what stood there is gone. After an error it is
/// removed, and what stands at the path is as before.
pub fn finish(
    rt: &impl Disk,
    written: io::Result<()>,
    unfinished: &str,
    path: &str,
) -> io::Result<()> {
    let finished = match written {
        Ok(()) => fs::rename(rt, unfinished, path),
        Err(error) => Err(error),
    };
    if finished.is_err() {
        let _removed = fs::remove_file(rt, unfinished);
    }
    finished
}

/// Leaves no file at a path; a directory there is left.
pub fn remove_at(rt: &impl Disk, path: &str) -> io::Result<()> {
    match fs::remove_file(rt, path) {
        Ok(()) => Ok(()),
        Err(error) => {
            if is_missing(&error) || matches!(metadata_at(rt, path), Ok(None)) {
                Ok(())
            } else {
                Err(error)
            }
        }
    }
}
