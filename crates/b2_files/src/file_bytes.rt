//! A file that a child is given, or is to write.
ghost use Rattle.std.specs.Prelude.{◌≡◌, IfOk};

use b2_base::fault::OutOfMemory;
use b2_base::path::Path;
use std::alloc::Global;
use std::rc::Rc;

/// A path with bytes, which never change, so that all who hold them share them.
#[derive(Drop)]
pub struct FileBytes {
    pub path: Path,
    pub bytes: Rc<Vec<u8>>,
}

impl FileBytes {
    /// The bytes, with a copy of the path.
    pub fn new(alloc: Global, path: &Path, bytes: Vec<u8>) -> Result<FileBytes, OutOfMemory>
        ensures path { IfOk result (λ entry. entry.path ≡ path.now) }
        ensures bytes { IfOk result (λ entry. entry.bytes.value.items ≡ bytes.items) }
    {
        let path = path.copy()?;
        let bytes = Rc::new(alloc, bytes)?;
        Ok(FileBytes { path, bytes })
    }
}
