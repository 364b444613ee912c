//! What an update knows of its steps.
ghost use Rattle.std.specs.Prelude.{◌≡◌, ◌↔◌, ◌≤◌, ◌<◌, ◌⊎◌, ◌+◌, ℕ, true, false, Some, None, IfOk, OnOk, MatchOption, length, slice_index_or};
ghost use Rattle.b2_plan.specs.Plans.{step_at};
ghost use Rattle.b2_plan.specs.declared.plan.Plan.{Plan};
ghost use Rattle.b2_plan.specs.declared.step.Step.{Step};
ghost use Rattle.b2_sched.specs.Schedules.{IsStep, IsNeeded, IsUnjudged, IsRunning, IsSettled, CanLook};
ghost use Rattle.b2_sched.specs.SchedulerCalls.{looked_at, with_stale, with_start, with_failure, Settles, StartsNext, StartsNone};
ghost use Rattle.b2_sched.specs.Keeping.{LooksNext};
ghost use Rattle.b2_facts.specs.Facts.{Knowledge, IsAbout};
ghost use Rattle.b2_facts.specs.Growth.{Learns, OfNone};
ghost use Rattle.b2_facts.specs.Truth.{StaysTrue};
ghost use Rattle.b2_host.specs.Disks.{Folder};
ghost use Rattle.b2_reach.specs.Reaches.{IsReachOf};
ghost use Rattle.b2_reach.specs.Sightings.{LearnsMore};
ghost use Rattle.b2_board.specs.declared.work.Work.{Work};
ghost use Rattle.b2_board.specs.Needs.{looks_left};
ghost use Rattle.b2_board.specs.Boards.{IsBoard, IsOver, IsLookOf, NeedsMore, work_at, members_of};

use crate::steps::step_of;
use crate::work::Work;
use b2_base::fault::OutOfMemory;
use b2_facts::stop::FilesStop;
use b2_host::files::Files;
use b2_plan::plan::Plan;
use b2_reach::reach::Reach;
use b2_reach::sights::Sights;
use b2_sched::sched::Sched;
use std::alloc::Global;

/// A schedule, and the work on each step that was looked at, by its number.
pub struct Board {
    pub sched: Sched,
    pub works: Vec<Option<Work>>,
}

/// By hand, so that dropping one is one call.
impl Drop for Board {
    fn drop(self) {
        let Board { sched, works } = self;
        drop(sched);
        drop(works);
    }
}

/// No work, so many times.
fn no_works(alloc: Global, size: usize) -> Result<Vec<Option<Work>>, OutOfMemory>
    ensures { IfOk result (λ works. (length works.items ≡ size) × ((k : ℕ) → work_at works.items k ≡ None)) }
{
    let mut works = Vec::new(alloc);
    for _number in 0..size {
        works.push(None)?;
    }
    Ok(works)
}

impl Board {
    /// The board of a plan of which nothing is known yet. At most `jobs` steps run at a time.
    pub fn new(alloc: Global, plan: &Plan, jobs: u32) -> Result<Board, OutOfMemory>
        requires { length plan.now.steps ≤ 65536 }
        ensures board { (f : Knowledge) → IfOk result (IsBoard plan.now 0 f) }
        ensures jobs { IfOk result (λ made. made.sched.jobs ≡ jobs) }
        ensures unjudged { IfOk result (λ made. (i : ℕ) → IsStep made.sched i → IsUnjudged made.sched i) }
    {
        let size = plan.steps.as_slice().len() + 1;
        let works = no_works(alloc, size)?;
        let sched = Sched::new(alloc, plan, jobs)?;
        sched.sound();
        Ok(Board { sched, works })
    }

    /// The lowest step that can be looked at, which is looked at from now on. Takes no memory.
    pub fn take_look(&mut self) -> Option<u32>
        ensures none { MatchOption result ((i : ℕ) → CanLook self.old.sched i → ⊥)
            (λ number. IsNeeded self.new.sched number × IsUnjudged self.new.sched number × IsStep self.new.sched number) }
        ensures lowest { MatchOption result ((i : ℕ) → CanLook self.old.sched i → ⊥) (LooksNext self.old.sched) }
        ensures after { MatchOption result (self.new ≡ self.old)
            (λ number. (self.new.works ≡ self.old.works) × (self.new.sched ≡ looked_at self.old.sched number)) }
        ensures board { MatchOption result (self.new ≡ self.old)
            (λ number. (plan : Plan) (f : Knowledge) → IsBoard plan 0 f self.old → IsBoard plan number f self.new) }
        ensures left { MatchOption result (self.new ≡ self.old)
            (λ number. looks_left self.new.sched + 1 ≤ looks_left self.old.sched) }
    {
        self.sched.sound();
        self.sched.take_look()
    }

    /// Begins the work on a step, unless it was begun.
    fn begin(
        &mut self,
        alloc: Global,
        plan: &Plan,
        sights: &mut Sights,
        number: u32,
    ) -> Result<(), OutOfMemory>
        requires about { IsAbout plan.now.steps plan.now.roots sights.old.facts }
        requires board { IsBoard plan.now number sights.old.facts self.old }
        requires step { IsStep self.old.sched number }
        ensures begun { OnOk result ((work : Work) × (work_at self.new.works.items number ≡ Some work)) }
        ensures board { IsBoard plan.now number sights.new.facts self.new }
        ensures sched { self.new.sched ≡ self.old.sched }
        ensures others { (i : ℕ) → (i ≡ number → ⊥) → work_at self.new.works.items i ≡ work_at self.old.works.items i }
        ensures sights { sights.new ≡ record sights.old { facts = sights.new.facts; marks = sights.new.marks } }
        ensures learns { Learns plan.now.steps plan.now.roots OfNone sights.old.facts sights.new.facts }
        ensures told { (now : Folder) → StaysTrue plan.now.steps plan.now.roots now sights.old.facts sights.new.facts }
    {
        let place = number as usize;
        if self.works[place].is_some() {
            return Ok(());
        }
        let step = step_of(plan.steps.as_slice(), number);
        let reach = Reach::open(alloc, plan, sights, step)?;
        self.works[place] = Some(Work::new(alloc, reach));
        Ok(())
    }

    /// Goes on with the work on a step, which was begun.
    fn go_on<F: Files>(
        &mut self,
        alloc: Global,
        plan: &Plan,
        sights: &mut Sights,
        files: &mut F,
        number: u32,
        notes: bool,
    ) -> Result<bool, FilesStop>
        requires about { IsAbout plan.now.steps plan.now.roots sights.old.facts }
        requires board { IsBoard plan.now number sights.old.facts self.old }
        requires step { IsStep self.old.sched number }
        requires needed { IsNeeded self.old.sched number }
        requires unjudged { IsUnjudged self.old.sched number }
        requires begun { (work : Work) × (work_at self.old.works.items number ≡ Some work) }
        ensures reach { (work : Work) (step : Step) → work_at self.new.works.items number ≡ Some work
            → step_at plan.now.steps number ≡ Some step
            → IsReachOf plan.now.steps (IsSettled self.old.sched) step sights.new.facts work.reach }
        ensures grows { LearnsMore notes plan.now.steps plan.now.roots (IsSettled self.old.sched) (members_of self.new number)
            sights.old (F.outside files.old) sights.new (F.outside files.new) result }
        ensures others { (i : ℕ) → (i ≡ number → ⊥) → work_at self.new.works.items i ≡ work_at self.old.works.items i }
        ensures board { OnOk result (IsBoard plan.now number sights.new.facts self.new) }
        ensures more { OnOk result (NeedsMore self.old.sched self.new.sched) }
        ensures left { OnOk result (looks_left self.new.sched ≤ looks_left self.old.sched) }
        ensures looked { IfOk result (λ closed. IsLookOf closed sights.new.facts self.new number) }
    {
        match &mut self.works[number as usize] {
            Some(work) => work.look(alloc, plan, &mut self.sched, sights, files, number, notes),
            None => unreachable!(),
        }
    }

    /// Looks at a step: goes on with the work on it as far as files are settled, and tells the schedule what it finds. Where
    /// `notes` is true, the line of each file that is read is noted. Answers whether all that the step reads is settled; it is then
    /// to be judged. After an error the work on it is still in order.
    pub fn look<F: Files>(
        &mut self,
        alloc: Global,
        plan: &Plan,
        sights: &mut Sights,
        files: &mut F,
        number: u32,
        notes: bool,
    ) -> Result<bool, FilesStop>
        requires about { IsAbout plan.now.steps plan.now.roots sights.old.facts }
        requires board { IsBoard plan.now number sights.old.facts self.old }
        requires step { IsStep self.old.sched number }
        requires needed { IsNeeded self.old.sched number }
        requires unjudged { IsUnjudged self.old.sched number }
        ensures reach { (work : Work) (step : Step) → work_at self.new.works.items number ≡ Some work
            → step_at plan.now.steps number ≡ Some step
            → IsReachOf plan.now.steps (IsSettled self.old.sched) step sights.new.facts work.reach }
        ensures grows { LearnsMore notes plan.now.steps plan.now.roots (IsSettled self.old.sched) (members_of self.new number)
            sights.old (F.outside files.old) sights.new (F.outside files.new) result }
        ensures others { (i : ℕ) → (i ≡ number → ⊥) → work_at self.new.works.items i ≡ work_at self.old.works.items i }
        ensures board { OnOk result (IsBoard plan.now number sights.new.facts self.new) }
        ensures more { OnOk result (NeedsMore self.old.sched self.new.sched) }
        ensures left { OnOk result (looks_left self.new.sched ≤ looks_left self.old.sched) }
        ensures looked { IfOk result (λ closed. IsLookOf closed sights.new.facts self.new number) }
    {
        self.begin(alloc, plan, sights, number)?;
        self.go_on(alloc, plan, sights, files, number, notes)
    }

    /// Tells whether a step is stale of which all that it reads is settled. A fresh one settles. Takes no memory.
    pub fn judge(&mut self, number: u32, stale: bool)
        requires needed { IsNeeded self.old.sched number }
        requires unjudged { IsUnjudged self.old.sched number }
        ensures works { self.new.works ≡ self.old.works }
        ensures stale { stale ≡ true → self.new.sched ≡ with_stale self.old.sched number }
        ensures fresh { stale ≡ false → Settles self.old.sched number self.new.sched }
        ensures board { (plan : Plan) (f : Knowledge) → IsOver self.old.sched f self.old.works.items number
            → IsBoard plan number f self.old → IsBoard plan 0 f self.new }
    {
        self.sched.sound();
        self.sched.judge(number, stale);
    }

    /// The lowest step that was judged stale and not started, which from now on runs; None where there is none, or as many steps
    /// run as may. Takes no memory.
    pub fn take_start(&mut self) -> Option<u32>
        ensures works { self.new.works ≡ self.old.works }
        ensures lowest { MatchOption result (StartsNone self.old.sched) (StartsNext self.old.sched) }
        ensures after { MatchOption result (self.new ≡ self.old)
            (λ number. self.new.sched ≡ with_start self.old.sched number) }
        ensures board { (plan : Plan) (f : Knowledge) → IsBoard plan 0 f self.old → IsBoard plan 0 f self.new }
    {
        self.sched.sound();
        self.sched.take_start()
    }

    /// Tells that a step that runs has ended, and whether it ended well and so settled. Takes no memory.
    pub fn finish(&mut self, number: u32, ok: bool)
        requires { IsRunning self.old.sched number }
        ensures works { self.new.works ≡ self.old.works }
        ensures ok { ok ≡ true → Settles self.old.sched number self.new.sched }
        ensures failed { ok ≡ false → self.new.sched ≡ with_failure self.old.sched number }
        ensures board { (plan : Plan) (f : Knowledge) → IsBoard plan 0 f self.old → IsBoard plan 0 f self.new }
    {
        self.sched.sound();
        self.sched.finish(number, ok);
    }
}
