//! What is found of the steps of a plan where nothing has happened yet.
ghost use Rattle.std.specs.Prelude.{◌≡◌, ◌≤◌, ◌<◌, ℕ, Bool, true, false, None, Some, is_some, length, slice_index_or, IfOk, OnOk};
ghost use Rattle.std.specs.List.{AllByRecursion};
ghost use Rattle.b2_host.specs.Outside.{Looks};
ghost use Rattle.b2_plan.specs.declared.plan.Plan.{Plan};
ghost use Rattle.b2_plan.specs.Plans.{Apart};
ghost use Rattle.b2_log.specs.Good.{IsGood};
ghost use Rattle.b2_log.specs.Finding.{kept, find_record};
ghost use Rattle.b2_sched.specs.Schedules.{IsStep, IsNeeded, IsUnjudged, CanLook};
ghost use Rattle.b2_facts.specs.Facts.{Knowledge, IsAbout, no_facts};
ghost use Rattle.b2_facts.specs.Stops.{StopTold};
ghost use Rattle.b2_sched.specs.SchedulerCalls.{with_stale, Settles};
ghost use Rattle.b2_verdicts.specs.Sights.{AreNumbers};
ghost use Rattle.b2_verdicts.specs.Points.{IsByStamps};
ghost use Rattle.b2_verdicts.specs.VerdictCalls.{IsOfStep, KnowsMore, Always};
ghost use Rattle.b2_board.specs.Boards.{IsBoard, IsOver, members_of};
ghost use Rattle.b2_looks.specs.Looks.{looks_ahead};
ghost use Rattle.b2_explain.specs.Surveys.{AreSurveyed, IsStill, SurveyTold, judged_at};

use b2_base::fault::OutOfMemory;
use b2_board::board::Board;
use b2_board::steps::step_of;
use b2_facts::facts::Facts;
use b2_facts::stop::FilesStop;
use b2_host::fault::Failed;
use b2_host::files::Files;
use b2_journal::journal::Journal;
use b2_log::log::{Log, read_log};
use b2_looks::step_files::step_numbers;
use b2_paths::marks::Marks;
use b2_plan::plan::Plan;
use b2_plan::step::Step;
use b2_reach::sights::Sights;
use b2_verdicts::point::Point;
use b2_verdicts::step_numbers::StepNumbers;
use b2_verdicts::verdict::by_stamps;
use std::alloc::Global;

/// What was found of a step of which all that it reads is settled.
pub struct Judged {
    /// The first point of staleness by stamps; none where the step is fresh.
    pub point: Option<Point>,
    /// The step's files.
    pub numbers: StepNumbers,
}

/// By hand, so that dropping one is one call.
impl Drop for Judged {
    fn drop(self) {
        let Judged { point: _, numbers } = self;
        drop(numbers);
    }
}

/// What is found of the steps of a plan, none of which was started: which are needed, what each of these is known to read, and which
/// are stale.
pub struct Survey {
    /// The schedule, and the work on each step.
    pub board: Board,
    /// What is known of files, and the lines of the log, of which none is noted.
    pub sights: Sights,
    /// Of each step, by its number, what was found of it, where it was judged.
    pub judged: Vec<Option<Judged>>,
    /// Of each step, by its number, that it is not done.
    pub ran: Vec<bool>,
}

/// By hand, so that dropping one is one call.
impl Drop for Survey {
    fn drop(self) {
        let Survey {
            board,
            sights,
            judged,
            ran,
        } = self;
        drop(board);
        drop(sights);
        drop(judged);
        drop(ran);
    }
}

/// The lines that a log tells, to be looked up.
fn journal_of(alloc: Global, log: &Log) -> Result<Journal, OutOfMemory>
    ensures lines { IfOk result (λ journal. journal ≡ kept log.now.lines) }
    ensures good { IfOk result (AllByRecursion IsGood) }
{
    let bytes = log.kept()?;
    let kept = read_log(alloc, bytes.as_slice())?;
    Journal::of_log(alloc, kept)
}

/// Nothing found, so many times.
fn none_judged(alloc: Global, size: usize) -> Result<Vec<Option<Judged>>, OutOfMemory>
    ensures { IfOk result (λ judged. (length judged.items ≡ size) × ((i : ℕ) → slice_index_or judged.items i None ≡ None)) }
{
    let mut judged = Vec::new(alloc);
    for _number in 0..size {
        judged.push(None)?;
    }
    Ok(judged)
}

/// The members of what a step is known to read, none where the work on it was not begun.
pub fn members_of(board: &Board, number: u32) -> &[u32]
    requires { number < length board.now.works.items }
    ensures { result.now ≡ members_of board.now number }
{
    match &board.works[number as usize] {
        None => &[],
        Some(work) => work.reach.members.as_slice(),
    }
}

/// The first point of staleness of a step by stamps, with the record that the log has for its outputs.
fn point_of<F: Files>(
    all: bool,
    step: &Step,
    numbers: &StepNumbers,
    sights: &mut Sights,
    files: &mut F,
) -> Result<Option<Point>, Failed>
    requires outs { AreNumbers sights.old.facts numbers.now.outs }
    requires ins { AreNumbers sights.old.facts numbers.now.ins }
    ensures effect { Looks (F.outside files.old) (F.outside files.new) result }
    ensures sights { sights.new ≡ record sights.old { facts = sights.new.facts } }
    ensures exact { IfOk result
        (IsByStamps all step.now numbers.now (find_record step.now.outs sights.old.journal) sights.new.facts) }
    ensures learns { KnowsMore (IsOfStep numbers.now) (F.outside files.old).disk Always sights.old.facts sights.new.facts }
{
    let last = sights.journal.record(step.outs.as_slice());
    by_stamps(all, step, numbers, last, &mut sights.facts, files)
}

impl Survey {
    /// What is found before anything is looked at. The log is handed in; its file is not looked at.
    pub fn new(alloc: Global, plan: &Plan, log: &Log) -> Result<Survey, OutOfMemory>
        requires few { length plan.now.steps ≤ 65536 }
        ensures surveyed { (all : Bool) → IfOk result (AreSurveyed plan.now all 0) }
        ensures facts { IfOk result (λ survey. survey.sights.facts ≡ no_facts) }
        ensures journal { IfOk result (λ survey. survey.sights.journal ≡ kept log.now.lines) }
        ensures unjudged { IfOk result (λ survey. (i : ℕ) → IsStep survey.board.sched i → IsUnjudged survey.board.sched i) }
    {
        let size = plan.steps.as_slice().len() + 1;
        let judged = none_judged(alloc, size)?;
        let ran = vec![in alloc; false; size]?;
        let board = Board::new(alloc, plan, 64)?;
        let journal = journal_of(alloc, log)?;
        let facts = Facts::new(alloc);
        let marks = Marks::new(alloc);
        Ok(Survey {
            board,
            sights: Sights {
                facts,
                journal,
                marks,
                by_digest: false,
            },
            judged,
            ran,
        })
    }

    /// Enters what a judgement has found. Takes no memory.
    fn enter(&mut self, number: u32, point: Option<Point>, numbers: StepNumbers)
        requires within { number < length self.old.judged.items }
        requires needed { IsNeeded self.old.board.sched number }
        requires unjudged { IsUnjudged self.old.board.sched number }
        ensures sights { self.new.sights ≡ self.old.sights }
        ensures ran { self.new.ran ≡ self.old.ran }
        ensures judged { (i : ℕ) → (i ≡ number → ⊥) → judged_at self.new i ≡ judged_at self.old i }
        ensures entered { judged_at self.new number ≡ Some (record { point = point; numbers = numbers }) }
        ensures works { self.new.board.works ≡ self.old.board.works }
        ensures stale { is_some point ≡ true → self.new.board.sched ≡ with_stale self.old.board.sched number }
        ensures fresh { is_some point ≡ false → Settles self.old.board.sched number self.new.board.sched }
        ensures size { length self.new.judged.items ≡ length self.old.judged.items }
        ensures board { (plan : Plan) (f : Knowledge) → IsOver self.old.board.sched f self.old.board.works.items number
            → IsBoard plan number f self.old.board → IsBoard plan 0 f self.new.board }
    {
        self.judged[number as usize] = Some(Judged { point, numbers });
        self.board.judge(number, point.is_some());
    }

    /// Judges a step of which all that it reads is settled.
    fn judge<F: Files>(
        &mut self,
        alloc: Global,
        plan: &Plan,
        all: bool,
        files: &mut F,
        number: u32,
    ) -> Result<(), FilesStop>
        requires apart { Apart plan.now.steps plan.now.roots }
        requires surveyed { AreSurveyed plan.now all number self.old }
        requires about { IsAbout plan.now.steps plan.now.roots self.old.sights.facts }
        requires step { IsStep self.old.board.sched number }
        requires needed { IsNeeded self.old.board.sched number }
        requires unjudged { IsUnjudged self.old.board.sched number }
        requires over { IsOver self.old.board.sched self.old.sights.facts self.old.board.works.items number }
        ensures still { IsStill (F.outside files.old) (F.outside files.new) }
        ensures faults { StopTold (F.outside files.old) (F.outside files.new) result }
        ensures about { IsAbout plan.now.steps plan.now.roots self.new.sights.facts }
        ensures surveyed { OnOk result (AreSurveyed plan.now all 0 self.new) }
        ensures fewer { OnOk result (looks_ahead self.new.board.sched ≤ looks_ahead self.old.board.sched) }
        ensures told { SurveyTold plan.now all (F.outside files.old) self.old (F.outside files.new) self.new result }
    {
        let step = step_of(plan.steps.as_slice(), number);
        let members = members_of(&self.board, number);
        let facts = &mut self.sights.facts;
        let numbers = step_numbers(alloc, plan, &self.ran, facts, step, members)?;
        let point = point_of(all, step, &numbers, &mut self.sights, files)?;
        self.enter(number, point, numbers);
        Ok(())
    }

    /// Looks at a step, and judges it where all that it reads is settled.
    fn look<F: Files>(
        &mut self,
        alloc: Global,
        plan: &Plan,
        all: bool,
        files: &mut F,
        number: u32,
    ) -> Result<(), FilesStop>
        requires apart { Apart plan.now.steps plan.now.roots }
        requires surveyed { AreSurveyed plan.now all number self.old }
        requires about { IsAbout plan.now.steps plan.now.roots self.old.sights.facts }
        requires step { IsStep self.old.board.sched number }
        requires needed { IsNeeded self.old.board.sched number }
        requires unjudged { IsUnjudged self.old.board.sched number }
        ensures still { IsStill (F.outside files.old) (F.outside files.new) }
        ensures faults { StopTold (F.outside files.old) (F.outside files.new) result }
        ensures about { IsAbout plan.now.steps plan.now.roots self.new.sights.facts }
        ensures surveyed { OnOk result (AreSurveyed plan.now all 0 self.new) }
        ensures fewer { OnOk result (looks_ahead self.new.board.sched ≤ looks_ahead self.old.board.sched) }
        ensures told { SurveyTold plan.now all (F.outside files.old) self.old (F.outside files.new) self.new result }
    {
        let sights = &mut self.sights;
        if self.board.look(alloc, plan, sights, files, number, false)? {
            self.judge(alloc, plan, all, files, number)?;
        }
        Ok(())
    }

    /// Looks at steps until none can be looked at. Each is judged by stamps once all that it reads is settled. Nothing is written, and
    /// none is started.
    pub fn look_all<F: Files>(
        &mut self,
        alloc: Global,
        plan: &Plan,
        all: bool,
        files: &mut F,
    ) -> Result<(), FilesStop>
        requires apart { Apart plan.now.steps plan.now.roots }
        requires surveyed { AreSurveyed plan.now all 0 self.old }
        requires about { IsAbout plan.now.steps plan.now.roots self.old.sights.facts }
        ensures still { IsStill (F.outside files.old) (F.outside files.new) }
        ensures faults { StopTold (F.outside files.old) (F.outside files.new) result }
        ensures about { IsAbout plan.now.steps plan.now.roots self.new.sights.facts }
        ensures surveyed { OnOk result (AreSurveyed plan.now all 0 self.new) }
        ensures all { OnOk result ((i : ℕ) → CanLook self.new.board.sched i → ⊥) }
        ensures told { SurveyTold plan.now all (F.outside files.old) self.old (F.outside files.new) self.new result }
    {
        while let Some(number) = self.board.take_look() {
            self.look(alloc, plan, all, files, number)?;
        }
        Ok(())
    }
}
