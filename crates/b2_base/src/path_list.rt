//! A list of paths.
ghost use Rattle.std.specs.Prelude.{◌≡◌, ◌++◌, IfOk, OnOk};

use crate::fault::OutOfMemory;
use crate::list::List;
use crate::path::Path;
use std::alloc::Global;

/// Paths in order, seen as the list of their texts.
pub type PathList = List<Path>;

/// The same paths, in order.
pub fn copy_paths(alloc: Global, paths: &[Path]) -> Result<PathList, OutOfMemory>
    ensures { IfOk result (λ made. made ≡ paths.now) }
{
    let mut made = Vec::new(alloc);
    made.reserve_exact(paths.len())?;
    for path in paths {
        made.push(path.copy()?)?;
    }
    Ok(PathList::from_vec(made))
}

/// Adds copies of paths at the end.
pub fn push_paths(made: &mut PathList, paths: &[Path]) -> Result<(), OutOfMemory>
    ensures { OnOk result (made.new ≡ made.old ++ paths.now) }
{
    for path in paths {
        made.push(path.copy()?)?;
    }
    Ok(())
}
