//! The children of a host in memory.
ghost use Rattle.std.specs.Prelude.{◌≡◌, ◌+◌, ◌≤◌, ◌<◌, ◌^◌, [], ◌∷◌, ◌++◌, length, remove, slice_get, Some, IfOk, OnOk, vec_len, vec_capacity};
ghost use Rattle.b2_memory.specs.PendingWrites.{promised};

use crate::memory_job::MemoryJob;
use crate::running_child::RunningChild;
use b2_base::fault::OutOfMemory;
use b2_host::children::ChildEvent;
use std::alloc::Global;
use std::rc::Rc;

/// What each start gave, the children that run, and what happened to them. `pending` counts what the children are yet
/// to write.
pub struct ChildTable {
    pub given: Vec<Rc<MemoryJob>>,
    pub running: Vec<RunningChild>,
    pub events: Vec<ChildEvent>,
    pub pending: usize,
    ghost owed: { pending ≡ length (promised running.items) },
    ghost event_room: { vec_len events + vec_len running ≤ vec_capacity events },
}

/// By hand, so that dropping one is one call.
impl Drop for ChildTable {
    fn drop(self) {
        let ChildTable {
            given,
            running,
            events,
            pending: _,
        } = self;
        drop(given);
        drop(running);
        drop(events);
    }
}

impl ChildTable {
    /// No child was started.
    pub fn new(alloc: Global) -> ChildTable
        ensures given { result.given.items ≡ [] }
        ensures running { result.running.items ≡ [] }
        ensures events { result.events.items ≡ [] }
    {
        ChildTable {
            given: Vec::new(alloc),
            running: Vec::new(alloc),
            events: Vec::new(alloc),
            pending: 0,
        }
    }

    /// How many writes are pending with so many more.
    pub fn pending_with(&self, more: usize) -> Result<usize, OutOfMemory>
        ensures { IfOk result (λ sum. sum ≡ self.now.pending + more) }
    {
        match self.pending.checked_add(more) {
            None => Err(OutOfMemory),
            Some(sum) => Ok(sum),
        }
    }

    /// Takes the room that one more child needs until its end.
    pub fn reserve(&mut self) -> Result<(), OutOfMemory>
        ensures given_room { OnOk result (vec_len self.new.given < vec_capacity self.new.given) }
        ensures running_room { OnOk result (vec_len self.new.running < vec_capacity self.new.running) }
        ensures event_room { OnOk result (vec_len self.new.events + vec_len self.new.running + 2 ≤ vec_capacity self.new.events) }
        ensures given { self.new.given.items ≡ self.old.given.items }
        ensures running { self.new.running.items ≡ self.old.running.items }
        ensures events { self.new.events.items ≡ self.old.events.items }
        ensures pending { self.new.pending ≡ self.old.pending }
    {
        self.given.reserve(1)?;
        let children = self.running.len();
        self.events.reserve(children + 2)?;
        self.running.reserve(1)?;
        Ok(())
    }

    /// One more child runs. The room for it was taken.
    pub fn add(&mut self, child: RunningChild, job: Rc<MemoryJob>)
        requires given_room { vec_len self.old.given < vec_capacity self.old.given }
        requires running_room { vec_len self.old.running < vec_capacity self.old.running }
        requires event_room { vec_len self.old.events + vec_len self.old.running + 2 ≤ vec_capacity self.old.events }
        requires fits { self.old.pending + vec_len child.entries < 2 ^ 64 }
        ensures given { self.new.given.items ≡ self.old.given.items ++ job ∷ [] }
        ensures running { self.new.running.items ≡ self.old.running.items ++ child ∷ [] }
        ensures events { self.new.events.items ≡ self.old.events.items ++ ChildEvent.Start child.job.value.step ∷ [] }
        ensures pending { self.new.pending ≡ self.old.pending + vec_len child.entries }
    {
        self.events
            .push_reserved(ChildEvent::Start(child.job.as_ref().step));
        self.given.push_reserved(job);
        self.pending += child.entries.len();
        self.running.push_reserved(child);
    }

    /// The child at a place runs no more.
    pub fn take(&mut self, place: usize) -> RunningChild
        requires { place < vec_len self.old.running }
        ensures child { slice_get self.old.running.items place ≡ Some result }
        ensures running { self.new.running.items ≡ remove self.old.running.items place }
        ensures given { self.new.given.items ≡ self.old.given.items }
        ensures events { self.new.events.items ≡ self.old.events.items ++ ChildEvent.Done result.job.value.step result.well ∷ [] }
        ensures pending { self.old.pending ≡ self.new.pending + vec_len result.entries }
        ensures len { vec_len self.new.running + 1 ≡ vec_len self.old.running }
    {
        let child = self.running.remove(place);
        let step = child.job.as_ref().step;
        self.events
            .push_reserved(ChildEvent::Done(step, child.well));
        self.pending -= child.entries.len();
        child
    }
}
