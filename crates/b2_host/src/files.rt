//! Files by their paths.
ghost use Rattle.std.specs.Prelude.{IfOk};
ghost use Rattle.std.specs.Option.{IfSome};
ghost use Rattle.b2_host.specs.Disks.{StatTold, ReadTold};
ghost use Rattle.b2_host.specs.Outside.{Outside, Looks, IoLooks};
ghost use Rattle.b2_host.specs.FileCalls.{Reads, Removes, Appends, Replaces};
ghost use Rattle.b2_host.specs.Listings.{IsListed};

use crate::fault::{Failed, IoFault};
use b2_base::path::Path;
use b2_base::text_list::TextList;

/// The bytes of a file, that there is none, or that it has more bytes than were asked for.
#[derive(Drop)]
pub enum ReadAnswer {
    /// The file's bytes.
    Bytes(Vec<u8>),
    /// No file stands there.
    Missing,
    /// The file has this many bytes, which is more than was asked for.
    TooBig { size: u64 },
}

/// Files by their paths. A directory is no file.
pub trait Files {
    ghost use Rattle.b2_host.specs.Disks.{IsConsistent};

    /// All that the host is to its callers.
    ghost outside: { Self → Outside };

    /// The stamp of the file at a path, or None where no file stands.
    fn stat(&mut self, path: &Path) -> Result<Option<u64>, Failed>
        ensures effect { Looks (outside self.old) (outside self.new) result }
        ensures answer { IfOk result (λ stamp. IfSome (outside self.old).disk (λ disk. StatTold path.now stamp disk.now)) };

    /// The bytes of the file at a path, where it has no more than `most`. A read that is answered is noted.
    fn read(&mut self, path: &Path, most: u64) -> Result<ReadAnswer, IoFault>
        ensures effect { Reads path.now (outside self.old) (outside self.new) result }
        ensures answer { IfOk result (λ answer. IfSome (outside self.old).disk (λ disk. ReadTold path.now most answer disk.now)) };

    /// The names of the files directly in a directory, each once, in byte order. A missing directory has none.
    fn list(&mut self, dir: &Path) -> Result<TextList, IoFault>
        ensures effect { IoLooks (outside self.old) (outside self.new) result }
        ensures answer { IfOk result (λ names. IfSome (outside self.old).disk (λ disk. IsListed disk.now dir.now names)) };

    /// Adds a piece to a file, which is made where it is missing. After a failure a prefix of the piece may have been added.
    fn append(&mut self, path: &Path, piece: &[u8]) -> Result<(), IoFault>
        ensures { Appends path.now piece.now (outside self.old) (outside self.new) result };

    /// Puts a piece in place of a file, or makes it. After a failure the old content stands, or a prefix of the piece.
    fn replace(&mut self, path: &Path, piece: &[u8]) -> Result<(), IoFault>
        ensures { Replaces path.now piece.now (outside self.old) (outside self.new) result };

    /// Leaves no file at a path. Where none stands, it is Ok. After a failure the file stands or does not.
    fn remove(&mut self, path: &Path) -> Result<(), Failed>
        ensures { Removes path.now (outside self.old) (outside self.new) result };

    /// What stands is among what stood, and a path and a stamp have one content.
    ghost consistent: { (files : Self) → IfSome (outside files).disk IsConsistent };

    ghost use Rattle.std.specs.Prelude.{◌≡◌, is_some};

    /// Reads are visible where the files are.
    ghost reads_alike: { (files : Self) → is_some (outside files).disk ≡ is_some (outside files).reads };
}
