//! The scheduler.

mod ends;

use crate::needs::{no_dependents, wake, want_all};
use crate::number_set::NumberSet;
use crate::state::State;
use b2_base::fault::OutOfMemory;
use b2_base::list::List;
use b2_plan::plan::Plan;
use std::alloc::Global;
use std::marker::Model;

/// Which steps of a plan are needed, can be looked at, and can start. Steps are handed in by their numbers, from 1.
///
/// A step that is needed is looked at, and looked at again when a need of it settles. While it is looked at, the caller adds
/// the needs that it finds and says what is lacking; when all needs are settled and nothing is lacking, it judges the step.
/// A fresh step settles at once, a stale one is started when there is room, and settles or fails when it ends.
pub struct Sched {
    alloc: Global,
    jobs: u32,
    states: Vec<State>,
    dependents: Vec<List<u32>>,
    lacking: Vec<bool>,
    looks: NumberSet,
    starts: NumberSet,
    running: u32,
    any_failed: bool,
}

/// By hand, so that dropping one is one call.
impl Drop for Sched {
    fn drop(self) {
        let Sched {
            alloc: _,
            jobs: _,
            states,
            dependents,
            lacking,
            looks,
            starts,
            running: _,
            any_failed: _,
        } = self;
        drop(states);
        drop(dependents);
        drop(lacking);
        drop(looks);
        drop(starts);
    }
}

impl Model for Sched {
    ghost use Rattle.b2_sched.specs.Schedules.{Schedule, shown};
    ghost use Rattle.b2_sched.specs.Keeping.{IsKept, TellsFailure};

    ghost Value = { Schedule };

    ghost view = { λ s. shown s.jobs s.states.items s.dependents.items s.lacking.items s.looks };

    ghost invariant = { λ s. IsKept (shown s.jobs s.states.items s.dependents.items s.lacking.items s.looks) s.starts s.running × TellsFailure s.states.items s.any_failed };
}

impl Sched {
    ghost use Rattle.std.specs.Prelude.{◌≡◌, ◌↔◌, ◌+◌, ◌≤◌, ◌<◌, ℕ, true, false, length, IsTrue, IfOk, OnOk, OnErr, MatchOption};
    ghost use Rattle.b2_sched.specs.Schedules.{Schedule, IsStep, IsNeeded, IsUnjudged, IsRunning, IsSettled, CanLook};
    ghost use Rattle.b2_sched.specs.SchedulerCalls.{IsNew, looked_at, with_need, with_lack, with_stale, with_start, with_failure, Settles, StartsNext, StartsNone};
    ghost use Rattle.b2_sched.specs.Keeping.{LooksNext};
    ghost use Rattle.b2_sched.specs.Sound.{IsSound};

    /// A scheduler that was told nothing yet: the makers of wanted files are needed. At most `jobs` steps run at a time;
    /// with 0 none starts.
    pub fn new(alloc: Global, plan: &Plan, jobs: u32) -> Result<Sched, OutOfMemory>
        requires { length plan.now.steps ≤ 65536 }
        ensures { IfOk result (IsNew plan.now.steps plan.now.wanted jobs) }
    {
        let size = plan.steps.as_slice().len() + 1;
        let mut states = vec![in alloc; State::Unjudged; size]?;
        states[0] = State::Settled;
        let lacking = vec![in alloc; false; size]?;
        let starts = NumberSet::new(alloc, size)?;
        let mut looks = NumberSet::new(alloc, size)?;
        let mut dependents = no_dependents(alloc, size)?;
        want_all(plan, &mut dependents, &mut looks)?;
        Ok(Sched {
            alloc,
            jobs,
            states,
            dependents,
            lacking,
            looks,
            starts,
            running: 0,
            any_failed: false,
        })
    }

    /// A law of each scheduler: needed numbers are those of steps, steps that can be looked at are needed and not judged, and
    /// judged steps are needed. Does nothing.
    pub fn sound(&self)
        ensures { IsSound self.now }
    {
        let _law = &self.jobs;
    }

    /// The lowest step that can be looked at, which from now on counts as looked at. Takes no memory.
    pub fn take_look(&mut self) -> Option<u32>
        ensures lowest { MatchOption result ((i : ℕ) → CanLook self.old i → ⊥) (LooksNext self.old) }
        ensures after { MatchOption result (self.new ≡ self.old) (λ step. self.new ≡ looked_at self.old step) }
    {
        let step = self.looks.lowest()?;
        self.looks.remove(step);
        Some(step as u32)
    }

    /// Tells that a step needs another one, which is then needed too.
    pub fn add_need(&mut self, step: u32, on: u32) -> Result<(), OutOfMemory>
        requires step { IsNeeded self.old step }
        requires on { IsStep self.old on }
        requires not_settled { IsSettled self.old on → ⊥ }
        ensures ok { OnOk result (self.new ≡ with_need self.old step on) }
        ensures err { OnErr result (self.new ≡ self.old) }
    {
        let place = on as usize;
        let list = &mut self.dependents[place];
        let is_first = list.as_slice().is_empty();
        list.push(step)?;
        if is_first {
            self.looks.insert(place);
        }
        Ok(())
    }

    /// Tells that a source of a step is missing. Takes no memory.
    pub fn lack(&mut self, step: u32)
        requires { IsStep self.old step }
        ensures { self.new ≡ with_lack self.old step }
    {
        self.lacking[step as usize] = true;
    }

    /// Tells whether a step is stale; a fresh one settles. Takes no memory.
    pub fn judge(&mut self, step: u32, stale: bool)
        requires needed { IsNeeded self.old step }
        requires unjudged { IsUnjudged self.old step }
        ensures stale { stale ≡ true → self.new ≡ with_stale self.old step }
        ensures fresh { stale ≡ false → Settles self.old step self.new }
    {
        let place = step as usize;
        self.looks.remove(place);
        if stale {
            self.states[place] = State::Stale;
            self.starts.insert(place);
        } else {
            self.states[place] = State::Settled;
            wake(
                &mut self.looks,
                &self.states,
                self.dependents[place].as_slice(),
            );
        }
    }

    /// Whether a step is settled: it was judged fresh, or ended well.
    pub fn settled(&self, step: u32) -> bool
        requires { IsStep self.now step }
        ensures { IsTrue result ↔ IsSettled self.now step }
    {
        matches!(self.states[step as usize], State::Settled)
    }

    /// Whether a step is needed: it makes a wanted file, or a needed step was said to need it.
    pub fn needed(&self, step: u32) -> bool
        requires { IsStep self.now step }
        ensures { IsTrue result ↔ IsNeeded self.now step }
    {
        !self.dependents[step as usize].as_slice().is_empty()
    }

    /// The lowest step that was judged stale and not started, which from now on runs; None where there is none, or as many
    /// steps run as may. Takes no memory.
    pub fn take_start(&mut self) -> Option<u32>
        ensures lowest { MatchOption result (StartsNone self.old) (StartsNext self.old) }
        ensures after { MatchOption result (self.new ≡ self.old) (λ step. self.new ≡ with_start self.old step) }
    {
        if self.running >= self.jobs {
            return None;
        }
        let step = self.starts.lowest()?;
        self.starts.remove(step);
        self.states[step] = State::Running;
        self.running += 1;
        Some(step as u32)
    }

    /// Tells that a step that runs has ended, and whether it ended well and so settled. Takes no memory.
    pub fn finish(&mut self, step: u32, ok: bool)
        requires { IsRunning self.old step }
        ensures ok { ok ≡ true → Settles self.old step self.new }
        ensures failed { ok ≡ false → self.new ≡ with_failure self.old step }
    {
        let place = step as usize;
        self.running -= 1;
        if ok {
            self.states[place] = State::Settled;
            wake(
                &mut self.looks,
                &self.states,
                self.dependents[place].as_slice(),
            );
        } else {
            self.states[place] = State::Failed;
            self.any_failed = true;
        }
    }
}
