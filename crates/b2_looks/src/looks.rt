//! How steps are looked at and judged.
ghost use Rattle.std.specs.Prelude.{◌≡◌, ◌≤◌, ◌<◌, [], ℕ, List as Items, false, Some, length, IfOk, OnOk};
ghost use Rattle.b2_host.specs.LogChanges.{ChangesOnlyLog};
ghost use Rattle.b2_host.specs.declared.children.ChildEvent.{ChildEvent};
ghost use Rattle.b2_plan.specs.declared.plan.Plan.{Plan};
ghost use Rattle.b2_plan.specs.declared.step.Step.{Step};
ghost use Rattle.b2_plan.specs.Plans.{Apart};
ghost use Rattle.b2_sched.specs.Schedules.{IsStep, IsNeeded, IsUnjudged, CanLook};
ghost use Rattle.b2_facts.specs.Facts.{Knowledge, IsAbout, no_facts};
ghost use Rattle.b2_facts.specs.Growth.{Learns, IncludesStay};
ghost use Rattle.b2_facts.specs.Stops.{StopTold};
ghost use Rattle.b2_board.specs.Boards.{IsBoard, IsOver, members_of};
ghost use Rattle.b2_verdicts.specs.Sights.{AreNumbers, AllAsked};
ghost use Rattle.b2_verdicts.specs.Made.{AreRising};
ghost use Rattle.b2_verdicts.specs.Digested.{AreFound};
ghost use Rattle.b2_verdicts.specs.VerdictCalls.{IsOfStep};
ghost use Rattle.b2_looks.specs.Looks.{AreLooks, LooksOn, Follows, IsOfUnstarted, IsJudged, LooksAtFiles, looks_ahead};
ghost use Rattle.b2_looks.specs.UnderWay.{LookTold};
ghost use Rattle.b2_looks.specs.Judging.{JudgeTold, MigrateTold};

use crate::step_files::step_numbers;
use b2_base::fault::OutOfMemory;
use b2_board::board::Board;
use b2_board::steps::step_of;
use b2_facts::stop::FilesStop;
use b2_host::files::Files;
use b2_log::line::LogLine;
use b2_plan::plan::Plan;
use b2_plan::step::Step;
use b2_reach::sights::Sights;
use b2_verdicts::judging_mode::JudgingMode;
use b2_verdicts::record::{find_inputs, needs_migration, record_of};
use b2_verdicts::step_numbers::StepNumbers;
use b2_verdicts::verdict::verdict;
use std::alloc::Global;

/// What an update knows of its steps: the board, the files of those that were judged stale, and which are done.
pub struct Looks {
    /// How steps are judged.
    pub way: JudgingMode,
    /// The schedule, and the work on each step.
    pub board: Board,
    /// Of each step that was judged stale, by its number, its files.
    pub ready: Vec<Option<StepNumbers>>,
    /// Of each step, by its number, whether it is done in this update.
    pub ran: Vec<bool>,
}

/// By hand, so that dropping one is one call.
impl Drop for Looks {
    fn drop(self) {
        let Looks {
            way: _,
            board,
            ready,
            ran,
        } = self;
        drop(board);
        drop(ready);
        drop(ran);
    }
}

/// Gives a fresh step its record with digests, where judging is by digests and the log has none with the stamps of its
/// files.
fn migrate<F: Files>(
    alloc: Global,
    step: &Step,
    numbers: &StepNumbers,
    sights: &mut Sights,
    files: &mut F,
) -> Result<(), FilesStop>
    requires outs { AreNumbers sights.old.facts numbers.now.outs }
    requires ins { AreNumbers sights.old.facts numbers.now.ins }
    requires some_out { 0 < length numbers.now.outs }
    requires rising { AreRising sights.old.facts numbers.now.ins }
    requires about { (steps : Items Step) × (roots : Items (Items ℕ)) × IsAbout steps roots sights.old.facts }
    requires asked_outs { AllAsked sights.old.facts numbers.now.outs }
    requires asked_ins { AllAsked sights.old.facts numbers.now.ins }
    ensures looks { (steps : Items Step) (roots : Items (Items ℕ))
        → LooksAtFiles steps roots (IsOfStep numbers.now) sights.old (F.outside files.old) sights.new
        (F.outside files.new) result }
    ensures includes { IncludesStay sights.old.facts sights.new.facts }
    ensures told { MigrateTold step.now numbers.now (F.outside files.old) sights.old
        (F.outside files.new) sights.new result }
{
    let last = sights.journal.record(step.outs.as_slice());
    if !needs_migration(last, numbers, &sights.facts) {
        return Ok(());
    }
    let Some(made) = record_of(alloc, true, step, numbers, &mut sights.facts, files)? else {
        return Ok(());
    };
    sights.journal.note(files, LogLine::Record(made))?;
    Ok(())
}

/// Whether a step is fresh of which all that it reads is settled. A fresh one is given its record with digests, where
/// judging is by digests. What the record of a stale one will have of its members is found, before it starts and they may change.
fn is_fresh<F: Files>(
    alloc: Global,
    way: JudgingMode,
    step: &Step,
    numbers: &StepNumbers,
    sights: &mut Sights,
    files: &mut F,
) -> Result<bool, FilesStop>
    requires outs { AreNumbers sights.old.facts numbers.now.outs }
    requires ins { AreNumbers sights.old.facts numbers.now.ins }
    requires some_out { 0 < length numbers.now.outs }
    requires rising { AreRising sights.old.facts numbers.now.ins }
    requires about { (steps : Items Step) × (roots : Items (Items ℕ)) × IsAbout steps roots sights.old.facts }
    ensures looks { (steps : Items Step) (roots : Items (Items ℕ))
        → LooksAtFiles steps roots (IsOfStep numbers.now) sights.old (F.outside files.old) sights.new
        (F.outside files.new) result }
    ensures includes { IncludesStay sights.old.facts sights.new.facts }
    ensures found { IfOk result (λ fresh. fresh ≡ false → step.now.notfile ≡ false
        → AreFound way.by_digest (F.outside files.old).disk sights.new.facts numbers.now.ins) }
    ensures told { JudgeTold way step.now numbers.now (F.outside files.old) sights.old
        (F.outside files.new) sights.new result }
{
    let last = sights.journal.record(step.outs.as_slice());
    let point = verdict(alloc, way, step, numbers, last, &mut sights.facts, files)?;
    if point.is_some() {
        find_inputs(
            alloc,
            way.by_digest,
            step,
            numbers,
            &mut sights.facts,
            files,
        )?;
        return Ok(false);
    }
    if !way.by_digest {
        return Ok(true);
    }
    migrate(alloc, step, numbers, sights, files)?;
    Ok(true)
}

/// The members of what a step is known to read, none where the work on it was not begun.
fn members_of(board: &Board, number: u32) -> &[u32]
    requires { number < length board.now.works.items }
    ensures { result.now ≡ members_of board.now number }
{
    match &board.works[number as usize] {
        None => &[],
        Some(work) => work.reach.members.as_slice(),
    }
}

/// No files of steps, so many times.
fn none_ready(alloc: Global, size: usize) -> Result<Vec<Option<StepNumbers>>, OutOfMemory>
    ensures { IfOk result (λ ready. length ready.items ≡ size) }
{
    let mut ready = Vec::new(alloc);
    for _number in 0..size {
        ready.push(None)?;
    }
    Ok(ready)
}

impl Looks {
    /// What is known of the steps of a plan before anything is done: none is judged. At most `jobs` steps run at a
    /// time.
    pub fn new(
        alloc: Global,
        plan: &Plan,
        way: JudgingMode,
        jobs: u32,
    ) -> Result<Looks, OutOfMemory>
        requires few { length plan.now.steps ≤ 65536 }
        ensures looks { IfOk result (AreLooks plan.now 0 no_facts) }
        ensures follows { IfOk result (Follows []) }
        ensures way { IfOk result (λ made. made.way ≡ way) }
        ensures jobs { IfOk result (λ made. made.board.sched.jobs ≡ jobs) }
        ensures unjudged { IfOk result (λ made. (i : ℕ) → IsStep made.board.sched i → IsUnjudged made.board.sched i) }
    {
        let size = plan.steps.as_slice().len() + 1;
        let ready = none_ready(alloc, size)?;
        let ran = vec![in alloc; false; size]?;
        let board = Board::new(alloc, plan, jobs)?;
        Ok(Looks {
            way,
            board,
            ready,
            ran,
        })
    }

    /// Enters what a judgement has found: whether the step is fresh, and its files where it is stale. Takes no memory.
    fn enter(&mut self, number: u32, fresh: bool, numbers: StepNumbers)
        requires within { number < length self.old.ready.items }
        requires needed { IsNeeded self.old.board.sched number }
        requires unjudged { IsUnjudged self.old.board.sched number }
        ensures judged { IsJudged fresh number numbers self.old self.new }
        ensures board { (plan : Plan) (f : Knowledge) → IsOver self.old.board.sched f self.old.board.works.items number
            → IsBoard plan number f self.old.board → IsBoard plan 0 f self.new.board }
    {
        if fresh {
            self.board.judge(number, false);
        } else {
            self.ready[number as usize] = Some(numbers);
            self.board.judge(number, true);
        }
    }

    /// Judges a step of which all that it reads is settled.
    fn judge<F: Files>(
        &mut self,
        alloc: Global,
        plan: &Plan,
        sights: &mut Sights,
        files: &mut F,
        number: u32,
    ) -> Result<(), FilesStop>
        requires apart { Apart plan.now.steps plan.now.roots }
        requires about { IsAbout plan.now.steps plan.now.roots sights.old.facts }
        requires looks { AreLooks plan.now number sights.old.facts self.old }
        requires way { sights.old.by_digest ≡ self.old.way.by_digest }
        requires step { IsStep self.old.board.sched number }
        requires needed { IsNeeded self.old.board.sched number }
        requires unjudged { IsUnjudged self.old.board.sched number }
        requires over { IsOver self.old.board.sched sights.old.facts self.old.board.works.items number }
        ensures looks { LooksAtFiles plan.now.steps plan.now.roots
            (IsOfUnstarted self.old.board.sched sights.new.facts) sights.old (F.outside files.old) sights.new
            (F.outside files.new) result }
        ensures way { self.new.way ≡ self.old.way }
        ensures after { OnOk result (AreLooks plan.now 0 sights.new.facts self.new) }
        ensures on { OnOk result (LooksOn self.old self.new) }
        ensures fewer { OnOk result (looks_ahead self.new.board.sched ≤ looks_ahead self.old.board.sched) }
        ensures told { LookTold plan.now (F.outside files.old) self.old sights.old
            (F.outside files.new) self.new sights.new result }
    {
        let step = step_of(plan.steps.as_slice(), number);
        let members = members_of(&self.board, number);
        let numbers = step_numbers(alloc, plan, &self.ran, &mut sights.facts, step, members)?;
        let fresh = is_fresh(alloc, self.way, step, &numbers, sights, files)?;
        self.enter(number, fresh, numbers);
        Ok(())
    }

    /// Looks at a step, and judges it where all that it reads is settled.
    fn look<F: Files>(
        &mut self,
        alloc: Global,
        plan: &Plan,
        sights: &mut Sights,
        files: &mut F,
        number: u32,
    ) -> Result<(), FilesStop>
        requires apart { Apart plan.now.steps plan.now.roots }
        requires about { IsAbout plan.now.steps plan.now.roots sights.old.facts }
        requires looks { AreLooks plan.now number sights.old.facts self.old }
        requires way { sights.old.by_digest ≡ self.old.way.by_digest }
        requires step { IsStep self.old.board.sched number }
        requires needed { IsNeeded self.old.board.sched number }
        requires unjudged { IsUnjudged self.old.board.sched number }
        ensures looks { LooksAtFiles plan.now.steps plan.now.roots
            (IsOfUnstarted self.old.board.sched sights.new.facts) sights.old (F.outside files.old) sights.new
            (F.outside files.new) result }
        ensures way { self.new.way ≡ self.old.way }
        ensures after { OnOk result (AreLooks plan.now 0 sights.new.facts self.new) }
        ensures on { OnOk result (LooksOn self.old self.new) }
        ensures fewer { OnOk result (looks_ahead self.new.board.sched ≤ looks_ahead self.old.board.sched) }
        ensures told { LookTold plan.now (F.outside files.old) self.old sights.old
            (F.outside files.new) self.new sights.new result }
    {
        if self.board.look(alloc, plan, sights, files, number, true)? {
            self.judge(alloc, plan, sights, files, number)?;
        }
        Ok(())
    }

    /// Looks at steps until none can be looked at.
    fn look_each<F: Files>(
        &mut self,
        alloc: Global,
        plan: &Plan,
        sights: &mut Sights,
        files: &mut F,
    ) -> Result<(), FilesStop>
        requires apart { Apart plan.now.steps plan.now.roots }
        requires about { IsAbout plan.now.steps plan.now.roots sights.old.facts }
        requires looks { AreLooks plan.now 0 sights.old.facts self.old }
        requires way { sights.old.by_digest ≡ self.old.way.by_digest }
        ensures looks { LooksAtFiles plan.now.steps plan.now.roots
            (IsOfUnstarted self.old.board.sched sights.new.facts) sights.old (F.outside files.old) sights.new
            (F.outside files.new) result }
        ensures way { self.new.way ≡ self.old.way }
        ensures after { OnOk result (AreLooks plan.now 0 sights.new.facts self.new) }
        ensures on { OnOk result (LooksOn self.old self.new) }
        ensures all { OnOk result ((i : ℕ) → CanLook self.new.board.sched i → ⊥) }
        ensures told { LookTold plan.now (F.outside files.old) self.old sights.old
            (F.outside files.new) self.new sights.new result }
    {
        while let Some(number) = self.board.take_look() {
            self.look(alloc, plan, sights, files, number)?;
        }
        Ok(())
    }

    /// Looks at steps until none can be looked at. A step is judged once all that it reads is settled.
    pub fn look_all<F: Files>(
        &mut self,
        alloc: Global,
        plan: &Plan,
        sights: &mut Sights,
        files: &mut F,
    ) -> Result<(), FilesStop>
        requires apart { Apart plan.now.steps plan.now.roots }
        requires about { IsAbout plan.now.steps plan.now.roots sights.old.facts }
        requires looks { AreLooks plan.now 0 sights.old.facts self.old }
        requires way { sights.old.by_digest ≡ self.old.way.by_digest }
        ensures only_log { ChangesOnlyLog (F.outside files.old) (F.outside files.new) }
        ensures faults { StopTold (F.outside files.old) (F.outside files.new) result }
        ensures about { IsAbout plan.now.steps plan.now.roots sights.new.facts }
        ensures learns { Learns plan.now.steps plan.now.roots
            (IsOfUnstarted self.old.board.sched sights.new.facts) sights.old.facts sights.new.facts }
        ensures way { (self.new.way ≡ self.old.way) × (sights.new.by_digest ≡ sights.old.by_digest) }
        ensures looks { OnOk result (AreLooks plan.now 0 sights.new.facts self.new) }
        ensures on { OnOk result (LooksOn self.old self.new) }
        ensures follows { OnOk result ((events : Items ChildEvent) → Follows events self.old
            → Follows events self.new) }
        ensures all { OnOk result ((i : ℕ) → CanLook self.new.board.sched i → ⊥) }
        ensures told { LookTold plan.now (F.outside files.old) self.old sights.old
            (F.outside files.new) self.new sights.new result }
    {
        self.look_each(alloc, plan, sights, files)
    }
}
