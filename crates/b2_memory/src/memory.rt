//! A host in memory, whose files and reads are visible, and whose calls fail where they are told to.
ghost use Rattle.std.specs.Prelude.{◌≡◌, ◌≢◌, ◌+◌, ◌≤◌, ◌<◌, [], true, false, Some, IsTrue, IfOk, OnOk, OnErr, map, option_copied, vec_len, vec_capacity};
ghost use Rattle.std.specs.Option.{IfSome};
ghost use Rattle.b2_host.specs.Disks.{StatTold};
ghost use Rattle.b2_host.specs.FileCalls.{log_path};
ghost use Rattle.b2_files.specs.Buffers.{buffers_of, bytes_in, is_within};
ghost use Rattle.b2_files.specs.Stores.{all_known, stood};
ghost use Rattle.b2_memory.specs.GoodEnds.{all_end_well};
ghost use Rattle.b2_memory.specs.Scripts.{with_picks, left_of};
ghost use Rattle.b2_memory.specs.PendingWrites.{promised};

use crate::child_table::ChildTable;
use crate::memory_job::MemoryJob;
use crate::read_notes::ReadNotes;
use crate::running_child::RunningChild;
pub use crate::script::CallKind;
use crate::script::{Script, raise};
use b2_base::fault::OutOfMemory;
use b2_base::path::Path;
use b2_base::text_list::TextList;
use b2_files::contents::Content;
use b2_files::file_bytes::FileBytes;
use b2_files::store::Store;
use b2_files::version::Version;
use b2_host::children::{ChildEvent, Children};
use b2_host::fault::{Failed, IoFault};
use b2_host::files::{Files, ReadAnswer};
use b2_host::log_file::log_file;
use std::alloc::Global;
use std::rc::Rc;

/// Files and children in memory.
///
/// Stamps count from 1. Each write takes the next one, for an edit, an append, a replacement or an output of a child, and
/// so does a write that fails, after which the file has what was left of the piece, for an append after its old bytes. A
/// deletion takes none. What a child writes is decided when it starts, by the bytes that its inputs have then, and stands
/// when it ends. `stat`, `remove`, `wait_one` and `reopen` take no memory.
pub struct MemoryHost {
    alloc: Global,
    script: Script,
    store: Store,
    child_table: ChildTable,
    read_notes: ReadNotes,
    log: Path,
    failed_waits: u64,
    ghost room: { vec_len store.past + child_table.pending ≤ vec_capacity store.past },
    ghost known: { IsTrue (all_known store.places (promised child_table.running.items)) },
    ghost log_is: { log ≡ log_path },
    ghost end_well: { script.may_end_badly ≡ false → IsTrue (all_end_well child_table.running.items) },
}

/// By hand, so that dropping one is one call.
impl Drop for MemoryHost {
    fn drop(self) {
        let MemoryHost {
            alloc: _,
            script,
            store,
            child_table,
            read_notes,
            log,
            failed_waits: _,
        } = self;
        drop(script);
        drop(store);
        drop(child_table);
        drop(read_notes);
        drop(log);
    }
}

impl MemoryHost {
    ghost use Rattle.b2_files.specs.StoreDisks.{knows};
    ghost use Rattle.b2_memory.specs.Jobs.{IsLeft, given_of};
    ghost use Rattle.b2_memory.specs.Memories.{new_memory, with_listed, told_calls, told_starts, told_fuse, renewed, with_tear, with_edit, with_child, with_entry, Writes, Ended, Reopens};
    ghost use Rattle.b2_memory.specs.Hosts.{memory_of, running_children, ends_well_of, write_told};

    /// No files, no children, no reads and no faults; nothing is listed, and nothing may go wrong.
    pub fn new(alloc: Global) -> Result<MemoryHost, OutOfMemory>
        ensures { IfOk result (λ host. memory_of host ≡ new_memory) }
    {
        Ok(MemoryHost {
            alloc,
            log: log_file(alloc)?,
            script: Script::new(alloc),
            store: Store::new(alloc),
            child_table: ChildTable::new(alloc),
            read_notes: ReadNotes::new(alloc),
            failed_waits: 0,
        })
    }

    /// Writes bytes to a path, with the next stamp, or deletes the file there. No child may run.
    pub fn edit(&mut self, path: &Path, bytes: Option<&[u8]>) -> Result<(), OutOfMemory>
        requires { (memory_of self.old).outside.children.running ≡ [] }
        ensures ok { OnOk result (memory_of self.new ≡ with_edit path.now (option_copied bytes.entry) (memory_of self.old)) }
        ensures err { OnErr result (memory_of self.new ≡ memory_of self.old) }
    {
        match bytes {
            None => {
                self.store.remove(path);
                Ok(())
            }
            Some(bytes) => {
                let content = Content::whole(self.alloc, bytes)?;
                let version = self.make_ready(path, content)?;
                self.put(version);
                Ok(())
            }
        }
    }

    /// Lists calls that are to fail: of each kind, the n-th from now on, counted from 1. From now on such calls may fail,
    /// also once the entry is spent.
    pub fn fail_calls(&mut self, calls: &[(CallKind, u32)]) -> Result<(), OutOfMemory>
        ensures ok { OnOk result (memory_of self.new ≡ told_calls calls.now (memory_of self.old)) }
        ensures err { OnErr result (memory_of self.new ≡ memory_of self.old) }
    {
        self.script.list_calls(calls)
    }

    /// Lists starts whose children are to end badly: the n-th child that starts from now on, counted from 1. Such a
    /// child writes `torn` and a line feed to its first output, and no more.
    pub fn child_fails(&mut self, starts: &[u32]) -> Result<(), OutOfMemory>
        ensures ok { OnOk result (memory_of self.new ≡ told_starts starts.now (memory_of self.old)) }
        ensures err { OnErr result (memory_of self.new ≡ memory_of self.old) }
    {
        self.script.list_starts(starts)
    }

    /// Lists numbers, the next of which each wait takes: k gives the k-th child that runs, in order of start; 0 the first;
    /// and where fewer run, the last. Where no number is left, the first is given. A wait that fails takes none.
    pub fn order(&mut self, picks: &[u32]) -> Result<(), OutOfMemory>
        ensures ok { OnOk result (memory_of self.new ≡ with_listed (with_picks picks.now) (memory_of self.old)) }
        ensures err { OnErr result (memory_of self.new ≡ memory_of self.old) }
    {
        self.script.list_picks(picks)
    }

    /// How many bytes of its piece a failing append or replacement leaves, at most the whole piece.
    pub fn tear(&mut self, bytes: u32)
        ensures { memory_of self.new ≡ with_listed (with_tear bytes) (memory_of self.old) }
    {
        self.script.tear = bytes;
    }

    /// After so many more calls every call fails, until the host is opened again.
    pub fn fuse(&mut self, calls: u32)
        ensures { memory_of self.new ≡ told_fuse calls (memory_of self.old) }
    {
        self.script.set_fuse(calls);
    }

    /// What may go wrong is worked out anew, of what is still listed: an entry that is spent counts no more. No child may
    /// run.
    pub fn renew_risks(&mut self)
        requires { (memory_of self.old).outside.children.running ≡ [] }
        ensures { memory_of self.new ≡ renewed (memory_of self.old) }
    {
        self.script.renew_risks();
    }

    /// The children that run end, in order of start, each as it was to end. Nothing is listed any more, and nothing may
    /// go wrong. The counts of faults stay.
    pub fn reopen(&mut self)
        ensures { Reopens (memory_of self.old) (memory_of self.new) }
    {
        for _child in 0..self.child_table.running.len() {
            self.end(0);
        }
        self.script.clear();
    }

    /// What happened to the children, in order.
    pub fn events(&self) -> &[ChildEvent]
        ensures { result.now ≡ (memory_of self.now).outside.children.events }
    {
        self.child_table.events.as_slice()
    }

    /// The children that run, in order of start, each with how it is to end.
    pub fn running(&self) -> &[RunningChild]
        ensures children { running_children result.now ≡ (memory_of self.now).outside.children.running }
        ensures ends_well { ends_well_of result.now ≡ (memory_of self.now).ends_well }
    {
        self.child_table.running.as_slice()
    }

    /// What each start gave its child, in order.
    pub fn given(&self) -> &[Rc<MemoryJob>]
        ensures { (memory_of self.now).outside.children.given ≡ Some (map (λ job. given_of job.value) result.now) }
    {
        self.child_table.given.as_slice()
    }

    /// The paths of the reads that were answered, in order.
    pub fn reads(&self) -> &[Path]
        ensures { IfSome (memory_of self.now).outside.reads (λ reads. map (λ read. read.path) reads ≡ result.now) }
    {
        self.read_notes.paths()
    }

    /// Each file that stood or stands, in order of stamps: the first has the stamp 1.
    pub fn past(&self) -> &[Version]
        ensures { IfSome (memory_of self.now).outside.disk (λ disk. disk.past ≡ stood 0 (map (write_told self.now) result.now)) }
    {
        self.store.past.as_slice()
    }

    /// The bytes of a file that stood.
    pub fn bytes_of<'a>(&'a self, version: &'a Version) -> &'a [u8]
        ensures { (write_told self.now version.now).1 ≡ result.now }
    {
        self.store.contents.bytes(&version.content)
    }

    /// The stamp of the file at a path, which is no call that can fail or that is counted.
    pub fn stamp_of(&self, path: &Path) -> Option<u64>
        ensures { IfSome (memory_of self.now).outside.disk (λ disk. StatTold path.now result disk.now) }
    {
        self.store.stamp(path)
    }

    /// How often a call failed.
    pub fn fault_count(&self) -> u64
        ensures { result ≡ (memory_of self.now).outside.faults }
    {
        self.script.faults
    }

    /// How often a wait failed.
    pub fn failed_wait_count(&self) -> u64
        ensures { result ≡ (memory_of self.now).outside.failed_waits }
    {
        self.failed_waits
    }

    /// A version of a file, once its path is known and room is taken for it beside what the children will write.
    fn make_ready(&mut self, path: &Path, content: Content) -> Result<Version, OutOfMemory>
        ensures memory { memory_of self.new ≡ memory_of self.old }
        ensures contents { self.new.store.contents ≡ self.old.store.contents }
        ensures version { IfOk result (λ version. version ≡ record { path = path.now; content = content }) }
        ensures known { OnOk result (IsTrue (knows self.new.store path.now)) }
        ensures room { OnOk result (vec_len self.new.store.past + self.new.child_table.pending < vec_capacity self.new.store.past) }
    {
        let more = self.child_table.pending_with(1)?;
        self.store.prepare_one(path, more)?;
        let path = path.copy()?;
        Ok(Version { path, content })
    }

    /// Puts a version, whose path is known, into room that was taken.
    fn put(&mut self, version: Version)
        requires known { IsTrue (knows self.old.store version.path) }
        requires within { IsTrue (is_within (buffers_of self.old.store.contents) version.content) }
        requires room { vec_len self.old.store.past + self.old.child_table.pending < vec_capacity self.old.store.past }
        ensures { memory_of self.new ≡ with_entry version.path (bytes_in (buffers_of self.old.store.contents) version.content) (memory_of self.old) }
    {
        self.store.put(version);
    }

    /// Writes a content to a path by a call of a kind. It holds what such a call leaves of its piece.
    fn write(&mut self, kind: CallKind, path: &Path, content: Content) -> Result<(), IoFault>
        requires { IsTrue (is_within (buffers_of self.old.store.contents) content) }
        ensures { Writes kind path.now (λ disk. bytes_in (buffers_of self.old.store.contents) content) (memory_of self.old) (memory_of self.new) result }
    {
        let version = self.make_ready(path, content)?;
        self.put(version);
        if self.script.fails(kind) {
            return Err(IoFault::Failed);
        }
        Ok(())
    }

    /// Lets a child run, whose writes are known, once the room for its end is taken.
    fn admit(
        &mut self,
        job: MemoryJob,
        well: bool,
        entries: Vec<FileBytes>,
    ) -> Result<(), OutOfMemory>
        requires left { IsLeft job well entries.items }
        requires well { self.old.script.may_end_badly ≡ false → well ≡ true }
        ensures ok { OnOk result (memory_of self.new ≡ with_child (given_of job) well (memory_of self.old)) }
        ensures err { OnErr result (memory_of self.new ≡ memory_of self.old) }
    {
        let pending = self.child_table.pending_with(entries.len())?;
        let job = Rc::new(self.alloc, job)?;
        let kept = job.clone()?;
        self.child_table.reserve()?;
        self.store.prepare(entries.as_slice(), pending)?;
        self.child_table
            .add(RunningChild { job, well, entries }, kept);
        self.script.count_start();
        Ok(())
    }

    /// The child at a place ends as it was to end.
    fn end(&mut self, place: usize) -> (u32, bool)
        requires { place < vec_len self.old.child_table.running }
        ensures ended { Ended place (memory_of self.old) result.0 result.1 (memory_of self.new) }
        ensures len { vec_len self.new.child_table.running + 1 ≡ vec_len self.old.child_table.running }
    {
        let RunningChild { job, well, entries } = self.child_table.take(place);
        self.store.put_all(entries);
        (job.as_ref().step, well)
    }
}

impl Files for MemoryHost {
    ghost use Rattle.b2_host.specs.Disks.{ReadTold};
    ghost use Rattle.b2_host.specs.Outside.{Looks, IoLooks};
    ghost use Rattle.b2_host.specs.FileCalls as calls;
    ghost use Rattle.b2_host.specs.Listings.{IsListed};
    ghost use Rattle.b2_files.specs.Consistency.{kept_disk};
    ghost use Rattle.b2_files.specs.StoreDisks.{writes_told};
    ghost use Rattle.b2_memory.specs.Memories.{Calls, IoCalls, looked, noted, with_removed, Appends, Replaces};
    ghost use Rattle.b2_memory.specs.Hosts.{told_outside, memory_of};

    ghost outside = { told_outside };

    fn stat(&mut self, path: &Path) -> Result<Option<u64>, Failed>
        ensures effect { Looks (told_outside self.old) (told_outside self.new) result }
        ensures answer { IfOk result (λ stamp. IfSome (told_outside self.old).disk (λ disk. StatTold path.now stamp disk.now)) }
        ensures exact { Calls CallKind.Stat looked (memory_of self.old) (memory_of self.new) result }
    {
        if self.script.fails(CallKind::Stat) {
            return Err(Failed);
        }
        Ok(self.store.stamp(path))
    }

    fn read(&mut self, path: &Path, most: u64) -> Result<ReadAnswer, IoFault>
        ensures effect { calls.Reads path.now (told_outside self.old) (told_outside self.new) result }
        ensures answer { IfOk result (λ answer. IfSome (told_outside self.old).disk (λ disk. ReadTold path.now most answer disk.now)) }
        ensures exact { IoCalls CallKind.Read (noted path.now) (memory_of self.old) (memory_of self.new) result }
    {
        if self.script.fails(CallKind::Read) {
            return Err(IoFault::Failed);
        }
        let answer = self.store.read(self.alloc, path, most)?;
        let stamps = (self.store.stamp(path), self.store.stamp(&self.log));
        self.read_notes.add(path, stamps)?;
        Ok(answer)
    }

    fn list(&mut self, dir: &Path) -> Result<TextList, IoFault>
        ensures effect { IoLooks (told_outside self.old) (told_outside self.new) result }
        ensures answer { IfOk result (λ names. IfSome (told_outside self.old).disk (λ disk. IsListed disk.now dir.now names)) }
        ensures exact { IoCalls CallKind.List looked (memory_of self.old) (memory_of self.new) result }
    {
        if self.script.fails(CallKind::List) {
            return Err(IoFault::Failed);
        }
        let names = self.store.list(self.alloc, dir)?;
        Ok(names)
    }

    fn append(&mut self, path: &Path, piece: &[u8]) -> Result<(), IoFault>
        ensures effect { calls.Appends path.now piece.now (told_outside self.old) (told_outside self.new) result }
        ensures exact { Appends path.now piece.now (memory_of self.old) (memory_of self.new) result }
    {
        let left = self.script.left_of(CallKind::Append, piece);
        let content = self.store.add(self.alloc, path, left)?;
        self.write(CallKind::Append, path, content)
    }

    fn replace(&mut self, path: &Path, piece: &[u8]) -> Result<(), IoFault>
        ensures effect { calls.Replaces path.now piece.now (told_outside self.old) (told_outside self.new) result }
        ensures exact { Replaces path.now piece.now (memory_of self.old) (memory_of self.new) result }
    {
        let left = self.script.left_of(CallKind::Replace, piece);
        let content = Content::whole(self.alloc, left)?;
        self.write(CallKind::Replace, path, content)
    }

    fn remove(&mut self, path: &Path) -> Result<(), Failed>
        ensures effect { calls.Removes path.now (told_outside self.old) (told_outside self.new) result }
        ensures exact { Calls CallKind.Remove (with_removed path.now) (memory_of self.old) (memory_of self.new) result }
    {
        if self.script.fails(CallKind::Remove) {
            return Err(Failed);
        }
        self.store.remove(path);
        Ok(())
    }

    ghost consistent = { λ host. kept_disk (writes_told host.store) host.store.places host.store.placed };

    ghost use Rattle.std.specs.Prelude.{refl};

    ghost reads_alike = { λ host. refl };
}

impl Children for MemoryHost {
    ghost use Rattle.std.specs.Prelude.{refl};
    ghost use Rattle.b2_host.specs.ChildProcesses.{MayStart};
    ghost use Rattle.b2_host.specs.ChildCalls as calls;
    ghost use Rattle.b2_memory.specs.Results.{made_of};
    ghost use Rattle.b2_memory.specs.Memories.{IoCalls, with_started, Waits};
    ghost use Rattle.b2_memory.specs.Hosts.{told_outside, memory_of};

    ghost made = { made_of };

    fn start(&mut self, step: u32, text: &str, ins: &[Path], outs: &[Path]) -> Result<(), IoFault>
        requires { MayStart (told_outside self.old).children.running ins.now outs.now }
        ensures effect { calls.Starts step text.now ins.now outs.now (told_outside self.old) (told_outside self.new) result }
        ensures exact { IoCalls CallKind.Start (with_started step text.now ins.now outs.now) (memory_of self.old) (memory_of self.new) result }
    {
        if self.script.fails(CallKind::Start) {
            return Err(IoFault::Failed);
        }
        let job = MemoryJob::new(self.alloc, step, text, ins, outs, &self.store)?;
        let well = !self.script.is_bad();
        let entries = job.writes(self.alloc, well)?;
        self.admit(job, well, entries)?;
        Ok(())
    }

    fn wait_one(&mut self) -> Result<(u32, bool), Failed>
        requires { (told_outside self.old).children.running ≢ [] }
        ensures effect { calls.Waits made_of (told_outside self.old) (told_outside self.new) result }
        ensures exact { Waits (memory_of self.old) (memory_of self.new) result }
    {
        if self.script.fails(CallKind::Wait) {
            self.failed_waits = raise(self.failed_waits);
            return Err(Failed);
        }
        let place = self.script.pick(self.child_table.running.len());
        Ok(self.end(place))
    }

    ghost told_alike = { λ host. refl };
}
