//! The project file of a directory.
ghost use Rattle.std.specs.Prelude.{◌≡◌, IfOk};
ghost use Rattle.std.specs.Option.{IfSome};
ghost use Rattle.b2_base.specs.Bytes.{HasNoZero};
ghost use Rattle.b2_base.specs.Segments.{path_from};
ghost use Rattle.jam_meaning.specs.Settings.{IsReading};
ghost use Rattle.jam_values.specs.FileReadings.{reading_of};
ghost use Rattle.b2_project_walk.specs.Finding.{misses, of_io, IsSeen, IsFileAt, IsFileOf, LooksFor};

use crate::directories::file_names;
use crate::fault::LoadFault;
use b2_base::path::{Path, path_from};
use b2_host::fault::IoFault;
use b2_host::files::Files;
use jam_scope::world::World;
use jam_values::files::{FileReading, read_file};
use jam_values::paths::is_below_any;
use std::alloc::Global;

/// A project file, and how it reads.
#[derive(Drop)]
pub(crate) struct ProjectFile {
    pub(crate) path: Path,
    pub(crate) reading: FileReading,
}

/// Whether a file is missing. Takes no memory.
fn is_missing(reading: &FileReading) -> bool
    ensures { result ≡ misses (reading_of reading.now) }
{
    matches!(reading, FileReading::Missing)
}

/// The fault of a load whose host had a fault. Takes no memory.
fn io_fault(fault: IoFault) -> LoadFault
    ensures { result ≡ of_io fault }
{
    match fault {
        IoFault::Failed => LoadFault::Host,
        IoFault::OutOfMemory => LoadFault::OutOfMemory,
    }
}

/// How the file at a path reads.
fn read<F: Files>(alloc: Global, files: &mut F, path: &Path) -> Result<FileReading, LoadFault>
    ensures told { IfOk result (λ read. IfSome (F.outside files.old).disk (λ disk. IsReading disk.now path.now (reading_of read))) }
    ensures effect { LooksFor result (F.outside files.old) (F.outside files.new) }
{
    match read_file(alloc, files, path) {
        Ok(reading) => Ok(reading),
        Err(fault) => Err(io_fault(fault)),
    }
}

/// How the file at a path reads; one below an output root counts as missing.
fn read_seen<F: Files>(
    alloc: Global,
    world: &World,
    files: &mut F,
    path: &Path,
) -> Result<FileReading, LoadFault>
    ensures told { IfOk result (λ read. IsSeen (F.outside files.old).disk world.now.now path.now (reading_of read)) }
    ensures effect { LooksFor result (F.outside files.old) (F.outside files.new) }
{
    if is_below_any(path, world.roots()) {
        return Ok(FileReading::Missing);
    }
    read(alloc, files, path)
}

/// The file of a name in a directory, unless it is missing.
fn file_named<F: Files>(
    alloc: Global,
    world: &World,
    files: &mut F,
    dir: &Path,
    name: &str,
) -> Result<Option<ProjectFile>, LoadFault>
    requires { HasNoZero name.now }
    ensures told { IfOk result (λ found. IsFileAt (F.outside files.old).disk world.now.now (path_from dir.now name.now) found) }
    ensures effect { LooksFor result (F.outside files.old) (F.outside files.new) }
{
    let path = path_from(alloc, dir, name)?;
    let reading = read_seen(alloc, world, files, &path)?;
    if is_missing(&reading) {
        return Ok(None);
    }
    Ok(Some(ProjectFile { path, reading }))
}

/// The project file of a directory, if there is one.
pub(crate) fn find_file<F: Files>(
    alloc: Global,
    world: &World,
    files: &mut F,
    dir: &Path,
) -> Result<Option<ProjectFile>, LoadFault>
    ensures told { IfOk result (λ found. IsFileOf (F.outside files.old).disk world.now.now dir.now found) }
    ensures effect { LooksFor result (F.outside files.old) (F.outside files.new) }
{
    let (first, second) = file_names(dir);
    if let Some(found) = file_named(alloc, world, files, dir, first)? {
        return Ok(Some(found));
    }
    file_named(alloc, world, files, dir, second)
}
