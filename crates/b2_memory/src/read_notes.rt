//! The reads that were answered.
ghost use Rattle.std.specs.Prelude.{◌≡◌, [], ◌∷◌, ◌++◌, length, map, OnOk, OnErr};
ghost use Rattle.b2_memory.specs.ReadNotes.{note};

use b2_base::fault::OutOfMemory;
use b2_base::path::Path;
use std::alloc::Global;

/// The reads in order: their paths, and the stamps that the file there and the log had then.
pub struct ReadNotes {
    pub paths: Vec<Path>,
    pub stamps: Vec<(Option<u64>, Option<u64>)>,
    ghost as_many: { length stamps.items ≡ length paths.items },
}

/// By hand, so that dropping one is one call.
impl Drop for ReadNotes {
    fn drop(self) {
        let ReadNotes { paths, stamps } = self;
        drop(paths);
        drop(stamps);
    }
}

impl ReadNotes {
    ghost use Rattle.b2_memory.specs.NotedReads.{noted_reads};

    /// Nothing was read.
    pub fn new(alloc: Global) -> ReadNotes
        ensures { noted_reads result ≡ [] }
    {
        ReadNotes {
            paths: Vec::new(alloc),
            stamps: Vec::new(alloc),
        }
    }

    /// One more read. After an error the reads are as before.
    #[tactic(auto, using(crate::proofs::ReadsKeepTheirPaths::reads_more))]
    pub fn add(
        &mut self,
        path: &Path,
        stamps: (Option<u64>, Option<u64>),
    ) -> Result<(), OutOfMemory>
        ensures ok { OnOk result (noted_reads self.new ≡ noted_reads self.old ++ note path.now stamps ∷ []) }
        ensures err { OnErr result (noted_reads self.new ≡ noted_reads self.old) }
    {
        let path = path.copy()?;
        self.paths.reserve(1)?;
        self.stamps.reserve(1)?;
        self.paths.push_reserved(path);
        self.stamps.push_reserved(stamps);
        Ok(())
    }

    /// In the order of the reads; a path that was read twice stands twice.
    #[tactic(auto, using(crate::proofs::ReadsKeepTheirPaths::paths_are))]
    pub fn paths(&self) -> &[Path]
        ensures { map (λ read. read.path) (noted_reads self.now) ≡ result.now }
    {
        self.paths.as_slice()
    }
}
