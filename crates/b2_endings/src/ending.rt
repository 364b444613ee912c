//! What an update names whose steps have come to their end.
ghost use Rattle.std.specs.Prelude.{◌≡◌, ◌⊎◌, ◌↔◌, ℕ, IfOk, IsTrue, MatchOption};
ghost use Rattle.b2_plan.specs.Plans.{Apart};
ghost use Rattle.b2_sched.specs.Schedules.{IsRunning, IsStale, CanLook, QuitsNow, AreJudged};
ghost use Rattle.b2_sched.specs.Ends.{IsStepCycle};
ghost use Rattle.b2_facts.specs.Facts.{IsAbout};
ghost use Rattle.b2_looks.specs.Looks.{AreLooks};
ghost use Rattle.b2_endings.specs.Endings.{StopLooks, IsEndingOf, EndingTold};
ghost use Rattle.b2_endings.specs.Missing.{AsksFiles, NoneIsStuck, AreNamed};

use crate::failed_lists::FailedLists;
use crate::missing::missing_files;
use crate::number_list::NumberList;
use b2_base::fault::OutOfMemory;
use b2_facts::stop::FilesStop;
use b2_host::files::Files;
use b2_looks::looks::Looks;
use b2_plan::plan::Plan;
use b2_reach::sights::Sights;
use std::alloc::Global;

/// What an update names whose steps have come to their end.
#[derive(Drop)]
pub enum Ending {
    /// Steps need one another: the cycle, by the numbers of its steps.
    StepCycle(NumberList),
    /// No step is stuck: these failed, were skipped, or are missing.
    Ended(FailedLists),
}

/// Whether all that is left is skipped: the update is to quit, and some step failed.
fn quits(looks: &Looks, quit: bool) -> bool
    ensures { IsTrue result ↔ QuitsNow looks.now.board.sched quit }
{
    quit && looks.board.sched.has_failed()
}

/// The cycle of steps that need one another, where steps are stuck. None are where the update quits.
fn cycle_of(looks: &Looks, quit: bool) -> Result<Option<NumberList>, OutOfMemory>
    requires { AreJudged looks.now.board.sched }
    ensures { IfOk result (λ found. MatchOption found (NoneIsStuck looks.now.board.sched quit)
        (λ list. (QuitsNow looks.now.board.sched quit → ⊥) × IsStepCycle looks.now.board.sched list)) }
{
    if quits(looks, quit) {
        return Ok(None);
    }
    match looks.board.sched.stuck()? {
        None => Ok(None),
        Some(cycle) => Ok(Some(NumberList::from_vec(cycle))),
    }
}

/// Which steps failed and were skipped, and which files are missing. A needed step that lacks a file is skipped, so only
/// what skipped steps read is looked through.
fn name_lists<F: Files>(
    alloc: Global,
    plan: &Plan,
    quit: bool,
    looks: &Looks,
    sights: &mut Sights,
    files: &mut F,
) -> Result<FailedLists, FilesStop>
    requires about { IsAbout plan.now.steps plan.now.roots sights.old.facts }
    requires looks { AreLooks plan.now 0 sights.old.facts looks.now }
    requires none_looks { (i : ℕ) → CanLook looks.now.board.sched i → ⊥ }
    ensures asks { AsksFiles plan.now.steps plan.now.roots sights.old.facts (F.outside files.old) sights.new.facts
        (F.outside files.new) result }
    ensures journal { sights.new.journal ≡ sights.old.journal }
    ensures named { IfOk result (AreNamed plan.now looks.now quit sights.old.facts sights.new.facts) }
{
    let failed = looks.board.sched.failed()?;
    let skipped = looks.board.sched.skipped(quit)?;
    let works = looks.board.works.as_slice();
    let numbers = skipped.as_slice();
    let missing = missing_files(alloc, plan, works, numbers, &mut sights.facts, files)?;
    Ok(FailedLists {
        failed: NumberList::from_vec(failed),
        skipped: NumberList::from_vec(skipped),
        missing,
    })
}

/// What an update names whose steps have come to their end: nothing runs, and nothing can start or be looked at. Where
/// it quits no step is stuck, since all that are left are skipped. Of wanted files that no step makes the stamps are
/// asked for. The host failed, or no memory was left.
pub fn ending_of<F: Files>(
    alloc: Global,
    plan: &Plan,
    quit: bool,
    looks: &Looks,
    sights: &mut Sights,
    files: &mut F,
) -> Result<Ending, FilesStop>
    requires apart { Apart plan.now.steps plan.now.roots }
    requires about { IsAbout plan.now.steps plan.now.roots sights.old.facts }
    requires looks { AreLooks plan.now 0 sights.old.facts looks.now }
    requires none_looks { (i : ℕ) → CanLook looks.now.board.sched i → ⊥ }
    requires none_runs { (i : ℕ) → IsRunning looks.now.board.sched i → ⊥ }
    requires none_starts { QuitsNow looks.now.board.sched quit ⊎ ((i : ℕ) → IsStale looks.now.board.sched i → ⊥) }
    ensures host { StopLooks (F.outside files.old) (F.outside files.new) result }
    ensures journal { sights.new.journal ≡ sights.old.journal }
    ensures ending { IfOk result (IsEndingOf looks.now.board.sched quit) }
    ensures told { EndingTold plan.now looks.now quit (F.outside files.old) sights.old (F.outside files.new) result }
{
    match cycle_of(looks, quit)? {
        Some(cycle) => Ok(Ending::StepCycle(cycle)),
        None => {
            let lists = name_lists(alloc, plan, quit, looks, sights, files)?;
            Ok(Ending::Ended(lists))
        }
    }
}
