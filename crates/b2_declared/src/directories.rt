//! Directories from the folder.
ghost use Rattle.std.specs.Prelude.{◌≡◌, IfOk};
ghost use Rattle.b2_base.specs.Segments.{path_from};

use b2_base::fault::OutOfMemory;
use b2_base::path::{Path, path_from};
use std::alloc::Global;

/// A directory that a project names, from the folder: an absolute one stays, every other one is relative to the project's.
pub(crate) fn directory_in(alloc: Global, dir: &Path, named: &Path) -> Result<Path, OutOfMemory>
    ensures { IfOk result (λ path. path ≡ path_from dir.now named.now) }
{
    path_from(alloc, dir, named.as_str())
}
