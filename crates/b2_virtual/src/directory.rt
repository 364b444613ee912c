//! The directory of a path.
ghost use Rattle.std.specs.Prelude.{◌≡◌, IfOk};
ghost use Rattle.b2_virtual.specs.Supplies.{directory_of};

use b2_base::fault::OutOfMemory;
use b2_base::path::{Path, path_of};
use std::alloc::Global;

/// The directory of a path: what stands before the file's name, in normal form. That of a name alone is `.`.
pub fn directory_of(alloc: Global, path: &Path) -> Result<Path, OutOfMemory>
    ensures { IfOk result (λ dir. dir ≡ directory_of path.now) }
{
    let text = path.as_str();
    match text.rsplit_once('/') {
        None => path_of(alloc, ""),
        Some((folder, _name)) => {
            let folder = format!(in alloc; "{folder}/")?;
            path_of(alloc, folder.as_str())
        }
    }
}
