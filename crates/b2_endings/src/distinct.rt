//! Distinct paths in byte order.
ghost use Rattle.std.specs.Prelude.{IfOk, ◌↔◌, ℕ, List};
ghost use Rattle.std.specs.List.{AllPairs, Contains};
ghost use Rattle.b2_base.specs.Bytes.{Before};

use b2_base::fault::OutOfMemory;
use b2_base::path::Path;
use b2_base::path_list::{PathList, copy_paths};
use std::alloc::Global;

/// The same paths, each once, in byte order.
pub fn distinct(alloc: Global, paths: &[Path]) -> Result<PathList, OutOfMemory>
    ensures rising { IfOk result (AllPairs Before) }
    ensures same { IfOk result (λ made. (path : List ℕ) → Contains made path ↔ Contains paths.now path) }
{
    let mut found = copy_paths(alloc, paths)?.into_vec();
    found.sort()?;
    found.dedup();
    Ok(PathList::from_vec(found))
}
