//! Where the log of a build stands.
ghost use Rattle.std.specs.Prelude.{◌≡◌, IfOk};
ghost use Rattle.b2_host.specs.FileCalls.{log_path};

use b2_base::fault::OutOfMemory;
use b2_base::path::Path;
use std::alloc::Global;

/// The path of the log's file, which is the same for every host.
pub fn log_file(alloc: Global) -> Result<Path, OutOfMemory>
    ensures { IfOk result (λ path. path ≡ log_path) }
{
    match Path::normal(alloc, "bin/b2.log") {
        Ok(path) => Ok(path),
        Err(_fault) => Err(OutOfMemory),
    }
}
