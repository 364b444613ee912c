//! The files of the system, with the count of their faults.
ghost use Rattle.std.specs.Prelude.{◌≡◌};
ghost use Rattle.b2_host.specs.Faults.{FaultTold, IoFaultTold};

use crate::fault_count::FaultCount;
use crate::listing::list_at;
use crate::system_files::{
    finish, metadata_at, open_empty, open_to_write, read_at, remove_at, stamp_of, unfinished_path,
};
use b2_base::path::Path;
use b2_base::text_list::TextList;
use b2_host::fault::{Failed, IoFault};
use b2_host::files::ReadAnswer;
use std::fs::OpenOptions;
use std::io;
use std::io::Write;
use std::rt::Files as Disk;

/// The files of the runtime. A call of them that fails is counted.
#[derive(Drop)]
pub struct RealFiles<R: Disk + AllocGlobal + Clone + Drop> {
    pub rt: R,
    pub faults: FaultCount,
}

impl<R: Disk + AllocGlobal + Clone + Drop> RealFiles<R> {
    pub fn new(rt: R) -> RealFiles<R>
        ensures { result.faults.count ≡ 0 }
    {
        RealFiles {
            rt,
            faults: FaultCount::new(),
        }
    }

    /// The answer, or the counted fault of a call that has changed nothing.
    fn counted<T>(&mut self, answer: io::Result<T>) -> Result<T, IoFault>
        ensures { IoFaultTold self.old.faults.count self.new.faults.count result }
    {
        match answer {
            Ok(value) => Ok(value),
            Err(error) => Err(self.faults.fault(&error)),
        }
    }

    pub fn stat(&mut self, path: &Path) -> Result<Option<u64>, Failed>
        ensures { FaultTold self.old.faults.count self.new.faults.count result }
    {
        match metadata_at(&self.rt, path.as_str()) {
            Ok(None) => Ok(None),
            Ok(Some(metadata)) => match stamp_of(&metadata) {
                Some(stamp) => Ok(Some(stamp)),
                None => Err(self.faults.fail()),
            },
            Err(_error) => Err(self.faults.fail()),
        }
    }

    pub fn read(&mut self, path: &Path, most: u64) -> Result<ReadAnswer, IoFault>
        ensures { IoFaultTold self.old.faults.count self.new.faults.count result }
    {
        let answer = read_at(&self.rt, path.as_str(), most);
        self.counted(answer)
    }

    pub fn list(&mut self, dir: &Path) -> Result<TextList, IoFault>
        ensures { IoFaultTold self.old.faults.count self.new.faults.count result }
    {
        let names = list_at(&self.rt, dir.as_str());
        self.counted(names)
    }

    /// The answer, or the counted fault of a call that may have changed something, also where it says that memory is
    /// short.
    fn counted_within(&mut self, answer: io::Result<()>) -> Result<(), IoFault>
        ensures { IoFaultTold self.old.faults.count self.new.faults.count result }
    {
        match answer {
            Ok(()) => Ok(()),
            Err(_error) => Err(self.faults.fail_within()),
        }
    }

    pub fn append(&mut self, path: &Path, piece: &[u8]) -> Result<(), IoFault>
        ensures { IoFaultTold self.old.faults.count self.new.faults.count result }
    {
        let mut how = OpenOptions::new();
        match open_to_write(&self.rt, path.as_str(), how.append(true).create(true)) {
            Ok(mut file) => {
                let written = file.write_all(piece);
                self.counted_within(written)
            }
            Err(error) => Err(self.faults.fault(&error)),
        }
    }

    /// Writes the piece to an unfinished file next to it, which is then renamed to the path. After an error the old content stands.
    pub fn replace(&mut self, path: &Path, piece: &[u8]) -> Result<(), IoFault>
        ensures { IoFaultTold self.old.faults.count self.new.faults.count result }
    {
        let path = path.as_str();
        let unfinished = unfinished_path(self.rt.alloc(), path)?;
        let unfinished = unfinished.as_str();
        match open_empty(&self.rt, unfinished) {
            Ok(mut file) => {
                let written = file.write_all(piece);
                let finished = finish(&self.rt, written, unfinished, path);
                self.counted_within(finished)
            }
            Err(error) => Err(self.faults.fault(&error)),
        }
    }

    pub fn remove(&mut self, path: &Path) -> Result<(), Failed>
        ensures { FaultTold self.old.faults.count self.new.faults.count result }
    {
        match remove_at(&self.rt, path.as_str()) {
            Ok(()) => Ok(()),
            Err(_error) => Err(self.faults.fail()),
        }
    }
}
