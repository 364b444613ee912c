//! The removal of all that the steps of a plan have made.
ghost use Rattle.std.specs.Prelude.{◌≡◌, ◌<◌, ◌+◌, [], ◌∷◌, length, IfOk, IfErr};
ghost use Rattle.std.specs.List.{AllByRecursion};
ghost use Rattle.b2_host.specs.OutsideLaws.{Keeps};
ghost use Rattle.b2_host.specs.OutputLaws.{OutKeeps};
ghost use Rattle.b2_plan.specs.Plans.{Apart};
ghost use Rattle.b2_log.specs.Good.{IsGood};
ghost use Rattle.b2_explain.specs.Faults.{CleanCounts};
ghost use Rattle.b2_explain.specs.Cleaning.{CleanTold, CleanWritten};
ghost use Rattle.b2_explain.specs.Removing.{outs_to_clean, WritesLine, RemovesOne, RemovesSome, DropsRecord, HaveOwnOuts, CleansMore};

use crate::fault::CleanFault;
use crate::lines::removed_line;
use b2_base::path::Path;
use b2_base::path_list::copy_paths;
use b2_host::fault::IoFault;
use b2_host::files::Files;
use b2_host::sink::Sink;
use b2_journal::journal::Journal;
use b2_journal::opening_rule::OpeningRule;
use b2_log::line::LogLine;
use b2_plan::plan::Plan;
use b2_plan::step::Step;
use std::alloc::Global;

/// One more than a count. Where no number tells so many, it is as where no memory is left.
fn one_more(count: usize) -> Result<usize, CleanFault>
    ensures ok { IfOk result (λ more. more ≡ count + 1) }
    ensures err { IfErr result (λ fault. fault ≡ CleanFault.OutOfMemory) }
{
    match count.checked_add(1) {
        Some(more) => Ok(more),
        None => Err(CleanFault::OutOfMemory),
    }
}

/// Writes the line of an output that was removed.
fn write_removed<S: Sink>(alloc: Global, path: &Path, out: &mut S) -> Result<(), CleanFault>
    ensures { WritesLine path.now (S.output out.old) (S.output out.new) result }
{
    let line = removed_line(alloc, path)?;
    match out.write(line.as_bytes()) {
        Ok(()) => Ok(()),
        Err(IoFault::Failed) => Err(CleanFault::Sink),
        Err(IoFault::OutOfMemory) => Err(CleanFault::OutOfMemory),
    }
}

/// Removes an output where a file stands there, and writes its line. Answers whether it did.
fn remove_one<F: Files, S: Sink>(
    alloc: Global,
    path: &Path,
    files: &mut F,
    out: &mut S,
) -> Result<bool, CleanFault>
    ensures { RemovesOne path.now (F.outside files.old) (S.output out.old) (F.outside files.new) (S.output out.new) result }
{
    if files.stat(path)?.is_none() {
        return Ok(false);
    }
    files.remove(path)?;
    write_removed(alloc, path, out)?;
    Ok(true)
}

/// Removes those of the outputs that stand, in order. Answers how many there are now, beside those before.
fn remove_outs<F: Files, S: Sink>(
    alloc: Global,
    outs: &[Path],
    count: usize,
    files: &mut F,
    out: &mut S,
) -> Result<usize, CleanFault>
    ensures { RemovesSome outs.now count (F.outside files.old) (S.output out.old) (F.outside files.new) (S.output out.new) result }
{
    let mut removed = count;
    for path in outs {
        if remove_one(alloc, path, files, out)? {
            removed = one_more(removed)?;
        }
    }
    Ok(removed)
}

/// Removes what a step made, unless it is a notfile step.
fn remove_made<F: Files, S: Sink>(
    alloc: Global,
    step: &Step,
    count: usize,
    files: &mut F,
    out: &mut S,
) -> Result<usize, CleanFault>
    ensures { RemovesSome (outs_to_clean step.now) count (F.outside files.old) (S.output out.old) (F.outside files.new)
        (S.output out.new) result }
{
    if step.notfile {
        return Ok(count);
    }
    remove_outs(alloc, step.outs.as_slice(), count, files, out)
}

/// Appends a drop where the log has a record for a step's outputs.
fn drop_record<F: Files>(
    alloc: Global,
    step: &Step,
    journal: &mut Journal,
    files: &mut F,
) -> Result<(), CleanFault>
    requires some_out { 0 < length step.now.outs }
    ensures { DropsRecord step.now (F.outside files.old) journal.old (F.outside files.new) journal.new result }
{
    let outs = step.outs.as_slice();
    if journal.record(outs).is_none() {
        return Ok(());
    }
    let outs = copy_paths(alloc, outs)?;
    journal.note(files, LogLine::Drop(outs))?;
    Ok(())
}

/// Cleans a step: removes what it made, and drops its record.
fn clean_step<F: Files, S: Sink>(
    alloc: Global,
    step: &Step,
    count: usize,
    journal: &mut Journal,
    files: &mut F,
    out: &mut S,
) -> Result<usize, CleanFault>
    requires own { HaveOwnOuts (step.now ∷ []) }
    requires good { AllByRecursion IsGood journal.old }
    ensures { CleansMore (step.now ∷ []) count (F.outside files.old) (S.output out.old) journal.old (F.outside files.new)
        (S.output out.new) journal.new result }
{
    let removed = remove_made(alloc, step, count, files, out)?;
    drop_record(alloc, step, journal, files)?;
    Ok(removed)
}

/// Cleans steps, one after another.
fn clean_steps<F: Files, S: Sink>(
    alloc: Global,
    steps: &[Step],
    journal: &mut Journal,
    files: &mut F,
    out: &mut S,
) -> Result<usize, CleanFault>
    requires own { HaveOwnOuts steps.now }
    requires good { AllByRecursion IsGood journal.old }
    ensures { CleansMore steps.now 0 (F.outside files.old) (S.output out.old) journal.old (F.outside files.new)
        (S.output out.new) journal.new result }
{
    let mut removed = 0;
    for step in steps {
        removed = clean_step(alloc, step, removed, journal, files, out)?;
    }
    Ok(removed)
}

/// Removes each output of the plan's steps that stands, but none of a notfile step, and drops the records of all steps. After each
/// removal its line is written. Answers how many files were removed.
///
/// First the log is opened: a torn tail is cut off, a log that is too large is replaced by the empty text, and no other one is
/// replaced. Then the steps are gone through in order: the outputs of one are removed, and a drop is appended where the log has a
/// record for them. The host fails, the sink fails, or no memory is left.
pub fn clean_plan<F: Files, S: Sink>(
    alloc: Global,
    plan: &Plan,
    files: &mut F,
    out: &mut S,
) -> Result<usize, CleanFault>
    requires apart { Apart plan.now.steps plan.now.roots }
    // The count of faults of what failed rose, and only that one.
    ensures counts { CleanCounts (F.outside files.old) (S.output out.old) (F.outside files.new) (S.output out.new) result }
    // Where files are visible: a true log stays true, and nothing but the log and outputs has changed, whatever the result. With Ok
    // none of these outputs stands, the log tells no record of any step, and so many files were removed as the result says.
    ensures told { CleanTold plan.now.steps (F.outside files.old) (F.outside files.new) result }
    // What was written are the lines of what was removed, or a beginning of them.
    ensures written { CleanWritten plan.now.steps (F.outside files.old) (S.output out.old) (S.output out.new) result }
    // No child process was started or ended. No count falls, what may go wrong stays, visible files stay visible, and all that stood
    // stays among the past.
    ensures children { (F.outside files.new).children ≡ (F.outside files.old).children }
    ensures keeps { Keeps (F.outside files.old) (F.outside files.new) }
    ensures out_keeps { OutKeeps (S.output out.old) (S.output out.new) }
{
    let mut journal = Journal::open(alloc, files, OpeningRule::Cut)?;
    clean_steps(alloc, plan.steps.as_slice(), &mut journal, files, out)
}
