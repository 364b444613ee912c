//! What is done after the end of a step.
ghost use Rattle.std.specs.Prelude.{◌≡◌, ◌<◌, ◌↔◌, [], ◌∷◌, ◌++◌, ℕ, List as Items, true, false, Some, None, IfOk, IsTrue, OnOk, ⊤, length};
ghost use Rattle.std.specs.Option.{IfSome};
ghost use Rattle.b2_host.specs.ChildProcesses.{BothTold};
ghost use Rattle.b2_host.specs.Outside.{Looks as LooksAtHost};
ghost use Rattle.b2_host.specs.LogChanges.{ChangesOnlyLog};
ghost use Rattle.b2_host.specs.declared.children.ChildEvent.{ChildEvent};
ghost use Rattle.b2_host.specs.declared.children.ChildEvent.TheVariants.{Done};
ghost use Rattle.b2_plan.specs.declared.plan.Plan.{Plan};
ghost use Rattle.b2_plan.specs.declared.step.Step.{Step};
ghost use Rattle.b2_plan.specs.Plans.{step_at, Apart};
ghost use Rattle.b2_sched.specs.Schedules.{IsRunning};
ghost use Rattle.b2_facts.specs.Facts.{Knowledge, IsAbout};
ghost use Rattle.b2_facts.specs.Growth.{IncludesStay};
ghost use Rattle.b2_facts.specs.Stops.{StopTold};
ghost use Rattle.b2_verdicts.specs.Sights.{AreNumbers};
ghost use Rattle.b2_verdicts.specs.Made.{AreRising};
ghost use Rattle.b2_verdicts.specs.VerdictCalls.{IsOfStep};
ghost use Rattle.b2_looks.specs.Looks.{AreLooks, Follows, LooksAtFiles};
ghost use Rattle.b2_turns.specs.Clearing.{AreGone, RemovesFiles, NotesDrop};
ghost use Rattle.b2_turns.specs.Ends.{Finishes, Clears, StandsNoMore, AllStand, OutputsStand, MadeTold, ClearTold};
ghost use Rattle.b2_turns.specs.Recording.{RecordTold};

use b2_base::path::Path;
use b2_base::path_list::copy_paths;
use b2_board::steps::step_of;
use b2_facts::stop::FilesStop;
use b2_host::fault::Failed;
use b2_host::files::Files;
use b2_log::line::LogLine;
use b2_looks::looks::Looks;
use b2_plan::plan::Plan;
use b2_plan::step::Step;
use b2_reach::sights::Sights;
use b2_verdicts::record::record_of;
use b2_verdicts::step_numbers::StepNumbers;
use std::alloc::Global;

/// Whether a file stands at each of the paths.
fn have_left<F: Files>(files: &mut F, outs: &[Path]) -> Result<bool, Failed>
    ensures effect { LooksAtHost (F.outside files.old) (F.outside files.new) result }
    ensures answer { IfOk result (λ left. IfSome (F.outside files.old).disk
        (λ disk. IsTrue left ↔ AllStand outs.now disk)) }
{
    for out in outs {
        if files.stat(out)?.is_none() {
            return Ok(false);
        }
    }
    Ok(true)
}

/// Appends the record of a step that left its outputs, unless a file is gone that it has read.
fn note_record<F: Files>(
    alloc: Global,
    step: &Step,
    numbers: &StepNumbers,
    sights: &mut Sights,
    files: &mut F,
) -> Result<(), FilesStop>
    requires outs { AreNumbers sights.old.facts numbers.now.outs }
    requires ins { AreNumbers sights.old.facts numbers.now.ins }
    requires some_out { 0 < length numbers.now.outs }
    requires rising { AreRising sights.old.facts numbers.now.ins }
    requires about { (steps : Items Step) × (roots : Items (Items ℕ)) × IsAbout steps roots sights.old.facts }
    ensures looks { (steps : Items Step) (roots : Items (Items ℕ))
        → LooksAtFiles steps roots (IsOfStep numbers.now) sights.old (F.outside files.old) sights.new
        (F.outside files.new) result }
    ensures includes { IncludesStay sights.old.facts sights.new.facts }
    ensures told { RecordTold (λ x. ⊤) step.now numbers.now (F.outside files.old) sights.old
        (F.outside files.new) sights.new result }
{
    let by_digest = sights.by_digest;
    let Some(made) = record_of(alloc, by_digest, step, numbers, &mut sights.facts, files)? else {
        return Ok(());
    };
    sights.journal.note(files, LogLine::Record(made))?;
    Ok(())
}

/// Looks at the outputs of a step, and appends its record where it left each of them. Answers whether it did.
fn note_left<F: Files>(
    alloc: Global,
    step: &Step,
    numbers: &StepNumbers,
    sights: &mut Sights,
    files: &mut F,
) -> Result<bool, FilesStop>
    requires outs { AreNumbers sights.old.facts numbers.now.outs }
    requires ins { AreNumbers sights.old.facts numbers.now.ins }
    requires some_out { 0 < length numbers.now.outs }
    requires rising { AreRising sights.old.facts numbers.now.ins }
    requires about { (steps : Items Step) × (roots : Items (Items ℕ)) × IsAbout steps roots sights.old.facts }
    ensures looks { (steps : Items Step) (roots : Items (Items ℕ))
        → LooksAtFiles steps roots (IsOfStep numbers.now) sights.old (F.outside files.old) sights.new
        (F.outside files.new) result }
    ensures includes { IncludesStay sights.old.facts sights.new.facts }
    ensures missed { IfOk result (λ left. left ≡ false → IfSome (F.outside files.old).disk
        (λ disk. AllStand step.now.outs disk → ⊥)) }
    ensures told { RecordTold (λ left. left ≡ true) step.now numbers.now (F.outside files.old) sights.old
        (F.outside files.new) sights.new result }
{
    if !have_left(files, step.outs.as_slice())? {
        return Ok(false);
    }
    note_record(alloc, step, numbers, sights, files)?;
    Ok(true)
}

/// Looks at the outputs of a step that ended with status 0, and appends its record where it left each of them. Answers
/// whether it did; a step that owes no file always has. There is no record where a file is gone that the step has read. After an
/// error more may be known than before. The host failed, no memory was left, or a file that was to be digested is too big.
pub fn note_made<F: Files>(
    alloc: Global,
    plan: &Plan,
    looks: &Looks,
    sights: &mut Sights,
    files: &mut F,
    number: u32,
) -> Result<bool, FilesStop>
    requires apart { Apart plan.now.steps plan.now.roots }
    requires about { IsAbout plan.now.steps plan.now.roots sights.old.facts }
    requires looks { AreLooks plan.now 0 sights.old.facts looks.now }
    requires way { sights.old.by_digest ≡ looks.now.way.by_digest }
    requires running { IsRunning looks.now.board.sched number }
    ensures only_log { ChangesOnlyLog (F.outside files.old) (F.outside files.new) }
    ensures faults { StopTold (F.outside files.old) (F.outside files.new) result }
    ensures about { IsAbout plan.now.steps plan.now.roots sights.new.facts }
    ensures looks { AreLooks plan.now 0 sights.new.facts looks.now }
    ensures way { sights.new.by_digest ≡ sights.old.by_digest }
    ensures short { IfOk result (λ left. left ≡ false → (step : Step) × (step_at plan.now.steps number ≡ Some step)
        × (step.notfile ≡ false)) }
    ensures missed { IfOk result (λ left. left ≡ false → IfSome (F.outside files.old).disk
        (λ disk. OutputsStand plan.now.steps number disk → ⊥)) }
    ensures told { MadeTold plan.now looks.now number (F.outside files.old) sights.old
        (F.outside files.new) sights.new result }
{
    let step = step_of(plan.steps.as_slice(), number);
    let Some(numbers) = &looks.ready[number as usize] else {
        unreachable!()
    };
    if step.notfile {
        return Ok(true);
    }
    note_left(alloc, step, numbers, sights, files)
}

/// Leaves no file at the paths. After an error some of the files may stand.
fn remove_all<F: Files>(files: &mut F, outs: &[Path]) -> Result<(), Failed>
    ensures removes { RemovesFiles outs.now (F.outside files.old) (F.outside files.new) result }
    ensures gone { OnOk result (IfSome (F.outside files.new).disk (AreGone outs.now)) }
{
    for out in outs {
        files.remove(out)?;
    }
    Ok(())
}

/// Appends a drop where the log has a record for a step's outputs.
fn note_drop<F: Files>(
    alloc: Global,
    step: &Step,
    sights: &mut Sights,
    files: &mut F,
) -> Result<(), FilesStop>
    ensures { NotesDrop step.now (F.outside files.old) sights.old (F.outside files.new) sights.new result }
{
    if sights.journal.record(step.outs.as_slice()).is_none() {
        return Ok(());
    }
    let outs = copy_paths(alloc, step.outs.as_slice())?;
    sights.journal.note(files, LogLine::Drop(outs))?;
    Ok(())
}

/// Leaves nothing of a step that failed: removes its outputs, and appends a drop where the log has a record for them. The host
/// failed, or no memory was left.
pub fn clear_failed<F: Files>(
    alloc: Global,
    plan: &Plan,
    _looks: &Looks,
    sights: &mut Sights,
    files: &mut F,
    number: u32,
) -> Result<(), FilesStop>
    requires step { (step : Step) × (step_at plan.now.steps number ≡ Some step) }
    ensures clears { Clears (F.outside files.old) (F.outside files.new) result }
    ensures fewer { BothTold StandsNoMore (F.outside files.old).disk (F.outside files.new).disk }
    ensures facts { sights.new.facts ≡ sights.old.facts }
    ensures way { sights.new.by_digest ≡ sights.old.by_digest }
    ensures told { ClearTold plan.now _looks.now number (F.outside files.old) sights.old
        (F.outside files.new) sights.new result }
{
    let step = step_of(plan.steps.as_slice(), number);
    remove_all(files, step.outs.as_slice())?;
    note_drop(alloc, step, sights, files)
}

/// Tells that a step that runs has ended, and whether it ended well and so settled. Takes no memory.
pub fn finish(looks: &mut Looks, number: u32, well: bool)
    requires running { IsRunning looks.old.board.sched number }
    requires ready { number < length looks.old.ready.items }
    requires ran { number < length looks.old.ran.items }
    ensures finishes { Finishes number well looks.old looks.new }
    ensures looks { (plan : Plan) (f : Knowledge) → AreLooks plan 0 f looks.old → AreLooks plan 0 f looks.new }
    ensures follows { (events : Items ChildEvent) → Follows events looks.old
        → Follows (events ++ Done number well ∷ []) looks.new }
{
    looks.board.finish(number, well);
    looks.ready[number as usize] = None;
    looks.ran[number as usize] = true;
}
