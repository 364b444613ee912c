//! The directories of references, relative to the folder.
ghost use Rattle.std.specs.Prelude.{◌≡◌, IfOk};
ghost use Rattle.b2_base.specs.Bytes.{HasNoZero};
ghost use Rattle.b2_declaring_calls.specs.Directories.{directory_before, directory_of};

use b2_base::fault::OutOfMemory;
use b2_base::path::{Path, folder, path_from};
use b2_base::rooted::is_rooted;
use b2_property_texts::cuts::cut_at;
use std::alloc::Global;

/// The directory that stands before `//` in a reference.
fn directory_before(alloc: Global, owner: &Path, before: &str) -> Result<Option<Path>, OutOfMemory>
    requires { HasNoZero before.now }
    ensures { IfOk result (λ dir. dir ≡ directory_before owner.now before.now) }
{
    if before.is_empty() {
        return Ok(Some(folder(alloc)?));
    }
    if is_rooted(before) {
        return Ok(None);
    }
    Ok(Some(path_from(alloc, owner, before)?))
}

/// The directory of a text, where it is a reference by directory.
pub(crate) fn directory_of(
    alloc: Global,
    owner: &Path,
    text: &str,
) -> Result<Option<Path>, OutOfMemory>
    requires { HasNoZero text.now }
    ensures { IfOk result (λ dir. dir ≡ directory_of owner.now text.now) }
{
    match cut_at(text, "//") {
        None => Ok(None),
        Some((before, _name)) => directory_before(alloc, owner, before),
    }
}
