//! What a line is about.
ghost use Rattle.std.specs.Prelude.{◌≡◌, map, IfOk};
ghost use Rattle.b2_log.specs.Finding.{path_of, subject_of};

use crate::line::LogLine;
use b2_base::fault::OutOfMemory;
use b2_base::path::Path;
use b2_base::path_list::{PathList, copy_paths};
use std::alloc::Global;

/// What a line is about.
#[derive(Drop)]
pub enum Subject {
    /// The outputs of a step, in its order.
    Outputs(PathList),
    /// A file that was scanned.
    Scanned(Path),
}

/// The paths of files with stamps. Takes memory once.
pub fn paths_of(alloc: Global, files: &[(Path, u64)]) -> Result<PathList, OutOfMemory>
    ensures { IfOk result (λ paths. paths ≡ map path_of files.now) }
{
    let mut paths = Vec::new(alloc);
    paths.reserve_exact(files.len())?;
    for file in files {
        paths.push(file.0.copy()?)?;
    }
    Ok(PathList::from_vec(paths))
}

/// What a line is about: the outputs of a record or a drop, the path of a scan.
pub fn subject_of(alloc: Global, line: &LogLine) -> Result<Subject, OutOfMemory>
    ensures { IfOk result (λ subject. subject ≡ subject_of line.now) }
{
    match line {
        LogLine::Record(record) => {
            let outs = paths_of(alloc, record.outs.as_slice())?;
            Ok(Subject::Outputs(outs))
        }
        LogLine::Drop(outs) => {
            let outs = copy_paths(alloc, outs.as_slice())?;
            Ok(Subject::Outputs(outs))
        }
        LogLine::Scan(scan) => {
            let path = scan.path.copy()?;
            Ok(Subject::Scanned(path))
        }
    }
}
