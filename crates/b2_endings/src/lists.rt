//! The end of a report.
ghost use Rattle.std.specs.Prelude.{◌≡◌, [], false, IsTrue};
ghost use Rattle.std.specs.List.{flat_map};
ghost use Rattle.b2_plan.specs.Plans.{step_at};
ghost use Rattle.b2_runs.specs.Reports.{missing_line, skipped_line, said_of, end_lines};
ghost use Rattle.b2_runs.specs.UpdateAnswers.{SomethingLacks};
ghost use Rattle.b2_endings.specs.Endings.{lists_of};
ghost use Rattle.b2_endings.specs.Writings.{skipped_lines, Says};

use crate::failed_lists::FailedLists;
use crate::lines::{missing_text, skipped_text, summary_text};
use b2_base::path::Path;
use b2_host::fault::IoFault;
use b2_host::sink::Sink;
use b2_plan::step::Step;
use b2_runs::steps::find_step;
use std::alloc::Global;

/// Writes a line, in one piece.
pub fn write_line<S: Sink>(out: &mut S, line: &str) -> Result<(), IoFault>
    ensures { Says line.now (S.output out.old) (S.output out.new) result }
{
    out.write(line.as_bytes())
}

/// Writes a line for each missing file.
fn tell_missing<S: Sink>(alloc: Global, out: &mut S, paths: &[Path]) -> Result<(), IoFault>
    ensures { Says (flat_map missing_line paths.now) (S.output out.old) (S.output out.new) result }
{
    for path in paths {
        let line = missing_text(alloc, path)?;
        write_line(out, line.as_str())?;
    }
    Ok(())
}

/// Writes that the step with a number was skipped.
fn tell_one_skipped<S: Sink>(
    alloc: Global,
    steps: &[Step],
    out: &mut S,
    number: u32,
) -> Result<(), IoFault>
    ensures { Says (said_of skipped_line (step_at steps.now number)) (S.output out.old) (S.output out.new) result }
{
    match find_step(steps, number) {
        None => Ok(()),
        Some(step) => {
            let line = skipped_text(alloc, step)?;
            write_line(out, line.as_str())
        }
    }
}

/// Writes which steps were skipped.
fn tell_skipped<S: Sink>(
    alloc: Global,
    steps: &[Step],
    out: &mut S,
    numbers: &[u32],
) -> Result<(), IoFault>
    ensures { Says (skipped_lines steps.now numbers.now) (S.output out.old) (S.output out.new) result }
{
    for number in numbers {
        tell_one_skipped(alloc, steps, out, *number)?;
    }
    Ok(())
}

/// Writes the end of the report.
pub fn tell_end<S: Sink>(
    alloc: Global,
    steps: &[Step],
    out: &mut S,
    updated: usize,
    lists: &FailedLists,
) -> Result<(), IoFault>
    ensures { Says (end_lines steps.now updated (lists_of lists.now)) (S.output out.old) (S.output out.new) result }
{
    tell_missing(alloc, out, lists.missing.as_slice())?;
    tell_skipped(alloc, steps, out, lists.skipped.as_slice())?;
    let line = summary_text(alloc, updated, lists)?;
    write_line(out, line.as_str())
}

/// Whether nothing failed, was skipped or is missing.
pub fn is_empty(lists: &FailedLists) -> bool
    ensures failed { IsTrue result → lists.now.failed ≡ [] }
    ensures skipped { IsTrue result → lists.now.skipped ≡ [] }
    ensures missing { IsTrue result → lists.now.missing ≡ [] }
    ensures some { result ≡ false → SomethingLacks (lists_of lists.now) }
{
    lists.failed.as_slice().is_empty()
        && lists.skipped.as_slice().is_empty()
        && lists.missing.as_slice().is_empty()
}
