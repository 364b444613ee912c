//! The lines of the report.
ghost use Rattle.std.specs.Prelude.{◌≡◌, IfOk, string_bytes};
ghost use Rattle.b2_runs.specs.Reports.{named, failed_line, missing_line, skipped_line, summary_line};
ghost use Rattle.b2_base.specs.Lists.{first_of};
ghost use Rattle.b2_endings.specs.Endings.{lists_of};

use crate::failed_lists::FailedLists;
use b2_base::fault::OutOfMemory;
use b2_base::path::Path;
use b2_plan::step::Step;
use b2_runs::steps::first_path;
use std::alloc::Global;

/// A step's name and its first output, or the output alone where the name is empty.
fn title(alloc: Global, step: &Step) -> Result<String, OutOfMemory>
    ensures { IfOk result (λ text. string_bytes text ≡ named step.now.name (first_of step.now.outs)) }
{
    let name = step.name.as_str();
    let out = first_path(step);
    if name.is_empty() {
        return Ok(format!(in alloc; "{out}")?);
    }
    Ok(format!(in alloc; "{name} {out}")?)
}

/// What is written when a step has failed.
pub fn failed_text(alloc: Global, step: &Step) -> Result<String, OutOfMemory>
    ensures { IfOk result (λ text. string_bytes text ≡ failed_line step.now) }
{
    let text = title(alloc, step)?;
    Ok(format!(in alloc; "...failed {text}...\n")?)
}

/// What is written of a missing file.
pub fn missing_text(alloc: Global, path: &Path) -> Result<String, OutOfMemory>
    ensures { IfOk result (λ text. string_bytes text ≡ missing_line path.now) }
{
    let name = path.as_str();
    Ok(format!(in alloc; "...missing {name}...\n")?)
}

/// What is written of a step that was skipped.
pub fn skipped_text(alloc: Global, step: &Step) -> Result<String, OutOfMemory>
    ensures { IfOk result (λ text. string_bytes text ≡ skipped_line step.now) }
{
    let out = first_path(step);
    Ok(format!(in alloc; "...skipped {out}...\n")?)
}

/// The last line of a report.
pub fn summary_text(
    alloc: Global,
    updated: usize,
    lists: &FailedLists,
) -> Result<String, OutOfMemory>
    ensures { IfOk result (λ text. string_bytes text ≡ summary_line updated (lists_of lists.now)) }
{
    let failed = lists.failed.as_slice().len();
    let skipped = lists.skipped.as_slice().len();
    let missing = lists.missing.as_slice().len();
    Ok(format!(in alloc;
        "updated {updated}, failed {failed}, skipped {skipped}, missing {missing}\n"
    )?)
}
