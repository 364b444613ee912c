//! The host of the cases: the host in memory, whose calls are counted and whose child processes may leave nothing.
ghost use Rattle.std.specs.Prelude.{◌≡◌, [], None, IsTrue};
ghost use Rattle.b2_cases.specs.Untold.{hidden};

use b2_base::fault::OutOfMemory;
use b2_base::path::Path;
use b2_base::path_list::{PathList, push_paths};
use b2_base::text_list::TextList;
use b2_host::children::Children;
use b2_host::fault::{Failed, IoFault};
use b2_host::files::{Files, ReadAnswer};
use b2_memory::memory::{CallKind, MemoryHost};
use std::alloc::Global;

/// How often each call was made, failed ones too.
#[derive(Clone, Copy)]
pub struct Calls {
    pub stat: u64,
    pub read: u64,
    pub list: u64,
    pub append: u64,
    pub replace: u64,
    pub remove: u64,
    pub start: u64,
    pub wait: u64,
}

/// The host in memory, with a count of its calls. Its files are not visible, so that a child process that leaves no
/// output breaks no law.
#[derive(Drop)]
pub struct CaseHost {
    memory: MemoryHost,
    calls: Calls,
    leaves_nothing: bool,
    /// Where child processes leave nothing: the paths that were named, and the outputs of what was started since they leave
    /// nothing at all.
    left_out: PathList,
}

/// Leaves no file at the paths. No child process may run.
fn delete_all(memory: &mut MemoryHost, paths: &[Path])
    requires { (⟦<MemoryHost as Files>⟧.outside memory.old).children.running ≡ [] }
    ensures { hidden (⟦<MemoryHost as Files>⟧.outside memory.new) ≡ hidden (⟦<MemoryHost as Files>⟧.outside memory.old) }
{
    for path in paths {
        let _deleted = memory.edit(path, None);
    }
}

/// Whether no child process runs.
pub fn is_idle(memory: &MemoryHost) -> bool
    ensures { IsTrue result → (⟦<MemoryHost as Files>⟧.outside memory.now).children.running ≡ [] }
{
    memory.running().is_empty()
}

impl CaseHost {
    /// No files, no child processes, no faults, and no call listed to fail.
    pub fn new(alloc: Global) -> Result<CaseHost, OutOfMemory> {
        let calls = Calls {
            stat: 0,
            read: 0,
            list: 0,
            append: 0,
            replace: 0,
            remove: 0,
            start: 0,
            wait: 0,
        };
        Ok(CaseHost {
            memory: MemoryHost::new(alloc)?,
            calls,
            leaves_nothing: false,
            left_out: PathList::new(alloc),
        })
    }

    /// Deletes what child processes have left that leave nothing, once none runs.
    fn clear(&mut self)
        ensures { ⟦<CaseHost as Files>⟧.outside self.new ≡ ⟦<CaseHost as Files>⟧.outside self.old }
    {
        if is_idle(&self.memory) {
            delete_all(&mut self.memory, self.left_out.as_slice());
        }
    }

    /// Takes note of the outputs of a start, where child processes leave nothing.
    fn note(&mut self, outs: &[Path]) -> Result<(), OutOfMemory>
        ensures { ⟦<CaseHost as Files>⟧.outside self.new ≡ ⟦<CaseHost as Files>⟧.outside self.old }
    {
        if self.leaves_nothing {
            push_paths(&mut self.left_out, outs)?;
        }
        Ok(())
    }

    /// Whether no child process runs.
    pub fn is_idle(&self) -> bool
        ensures { IsTrue result → (⟦<CaseHost as Files>⟧.outside self.now).children.running ≡ [] }
    {
        is_idle(&self.memory)
    }

    /// Writes bytes to a path, or deletes the file there. No child process may run.
    pub fn edit(&mut self, path: &Path, bytes: Option<&[u8]>) -> Result<(), OutOfMemory>
        requires { (⟦<CaseHost as Files>⟧.outside self.old).children.running ≡ [] }
    {
        self.memory.edit(path, bytes)
    }

    /// Lets the n-th call of a kind from now on fail, counted from 1.
    pub fn fail_call(&mut self, kind: CallKind, number: u32) -> Result<(), OutOfMemory> {
        self.memory.fail_calls(&[(kind, number)])
    }

    /// Lets the n-th child process that starts from now on end badly, counted from 1.
    pub fn child_fails(&mut self, number: u32) -> Result<(), OutOfMemory> {
        self.memory.child_fails(&[number])
    }

    /// Lets the next wait give the child process at a place among those that run, counted from 1 in order of start.
    pub fn pick(&mut self, place: u32) -> Result<(), OutOfMemory> {
        self.memory.order(&[place])
    }

    /// Lets a write that fails leave so many bytes of its piece.
    pub fn tear(&mut self, bytes: u32) {
        self.memory.tear(bytes);
    }

    /// Lets every call fail after so many more, until the host is opened again.
    pub fn fuse(&mut self, calls: u32) {
        self.memory.fuse(calls);
    }

    /// Ends the child processes that run, and lets calls succeed again.
    pub fn reopen(&mut self) {
        self.memory.reopen();
    }

    /// From now on child processes leave nothing at their outputs.
    pub fn leave_nothing(&mut self) {
        self.leaves_nothing = true;
    }

    /// From now on child processes leave nothing at a path.
    pub fn leave_out(&mut self, path: Path) -> Result<(), OutOfMemory> {
        self.left_out.push(path)
    }

    /// The host that answers the calls.
    pub fn memory(&self) -> &MemoryHost {
        &self.memory
    }

    /// How often each call was made.
    pub fn calls(&self) -> Calls {
        self.calls
    }
}

impl Files for CaseHost {
    ghost outside = { λ host. hidden (⟦<MemoryHost as Files>⟧.outside host.memory) };

    ghost consistent = { λ host. tt };

    ghost use Rattle.std.specs.Prelude.{refl};

    ghost reads_alike = { λ host. refl };

    #[tactic(auto, using(crate::proofs::CallsHoldWithFilesHidden::looks_hidden))]
    fn stat(&mut self, path: &Path) -> Result<Option<u64>, Failed> {
        self.calls.stat = self.calls.stat.saturating_add(1);
        self.memory.stat(path)
    }

    #[tactic(auto, using(crate::proofs::CallsHoldWithFilesHidden::reads_hidden))]
    fn read(&mut self, path: &Path, most: u64) -> Result<ReadAnswer, IoFault> {
        self.calls.read = self.calls.read.saturating_add(1);
        self.memory.read(path, most)
    }

    #[tactic(auto, using(crate::proofs::CallsHoldWithFilesHidden::io_looks_hidden))]
    fn list(&mut self, dir: &Path) -> Result<TextList, IoFault> {
        self.calls.list = self.calls.list.saturating_add(1);
        self.memory.list(dir)
    }

    #[tactic(auto, using(crate::proofs::CallsHoldWithFilesHidden::writes_hidden))]
    fn append(&mut self, path: &Path, piece: &[u8]) -> Result<(), IoFault> {
        self.calls.append = self.calls.append.saturating_add(1);
        self.memory.append(path, piece)
    }

    #[tactic(auto, using(crate::proofs::CallsHoldWithFilesHidden::writes_hidden))]
    fn replace(&mut self, path: &Path, piece: &[u8]) -> Result<(), IoFault> {
        self.calls.replace = self.calls.replace.saturating_add(1);
        self.memory.replace(path, piece)
    }

    #[tactic(auto, using(crate::proofs::CallsHoldWithFilesHidden::removes_hidden))]
    fn remove(&mut self, path: &Path) -> Result<(), Failed> {
        self.calls.remove = self.calls.remove.saturating_add(1);
        self.memory.remove(path)
    }
}

impl Children for CaseHost {
    ghost use Rattle.std.specs.Prelude.{refl};

    ghost made = { λ text held out. [] };

    ghost told_alike = { λ host. refl };

    fn start(&mut self, step: u32, text: &str, ins: &[Path], outs: &[Path]) -> Result<(), IoFault> {
        self.calls.start = self.calls.start.saturating_add(1);
        self.note(outs)?;
        self.memory.start(step, text, ins, outs)
    }

    fn wait_one(&mut self) -> Result<(u32, bool), Failed> {
        self.calls.wait = self.calls.wait.saturating_add(1);
        let (step, well) = self.memory.wait_one()?;
        self.clear();
        Ok((step, well))
    }
}
