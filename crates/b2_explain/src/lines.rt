//! The lines that tell causes and removals.
ghost use Rattle.std.specs.Prelude.{◌≡◌, ◌++◌, true, IfOk, MatchOption, string_bytes};
ghost use Rattle.b2_base.specs.Lists.{first_of};
ghost use Rattle.b2_runs.specs.Reports.{named};
ghost use Rattle.b2_explain.specs.Lines.{stamp_text, cause_text, cause_line, removed_line, removed_count_line, names_file, names_stamps};

use crate::cause::Cause;
use b2_base::fault::OutOfMemory;
use b2_base::path::Path;
use b2_plan::step::Step;
use b2_runs::steps::first_path;
use std::alloc::Global;

/// A step's name and its first output, or the output alone where the name is empty.
fn title(alloc: Global, step: &Step) -> Result<String, OutOfMemory>
    ensures { IfOk result (λ text. string_bytes text ≡ named step.now.name (first_of step.now.outs)) }
{
    let name = step.name.as_str();
    let out = first_path(step);
    if name.is_empty() {
        return Ok(format!(in alloc; "{out}")?);
    }
    Ok(format!(in alloc; "{name} {out}")?)
}

/// A stamp, or that there is none.
fn stamp_text(alloc: Global, stamp: Option<u64>) -> Result<String, OutOfMemory>
    ensures { IfOk result (λ text. string_bytes text ≡ stamp_text stamp) }
{
    match stamp {
        None => Ok(format!(in alloc; "none")?),
        Some(stamp) => Ok(format!(in alloc; "{stamp}")?),
    }
}

/// That the stamp of an input is another one, or that it came or went.
fn input_text(
    alloc: Global,
    path: &Path,
    logged: Option<u64>,
    now: Option<u64>,
) -> Result<String, OutOfMemory>
    ensures { IfOk result (λ text. string_bytes text ≡ cause_text (Cause.OtherInput path.now logged now)) }
{
    let name = path.as_str();
    let logged = stamp_text(alloc, logged)?;
    let now = stamp_text(alloc, now)?;
    Ok(format!(in alloc; "input {name} was {logged}, is {now}")?)
}

/// That an output is older than a file that the step reads.
fn older_text(
    alloc: Global,
    out: &Path,
    out_stamp: u64,
    member: &Path,
    member_stamp: u64,
) -> Result<String, OutOfMemory>
    ensures { IfOk result (λ text. string_bytes text ≡ cause_text (Cause.Older out.now out_stamp member.now member_stamp)) }
{
    let (out, member) = (out.as_str(), member.as_str());
    Ok(format!(in alloc; "{out} of {out_stamp} is older than {member} of {member_stamp}")?)
}

/// That the stamp of an output is another one.
fn output_text(alloc: Global, path: &Path, logged: u64, now: u64) -> Result<String, OutOfMemory>
    ensures { IfOk result (λ text. string_bytes text ≡ cause_text (Cause.OtherOutput path.now logged now)) }
{
    let name = path.as_str();
    Ok(format!(in alloc; "output {name} was {logged}, is {now}")?)
}

/// A cause that names files with their stamps, and else none.
fn stamped_text(alloc: Global, cause: &Cause) -> Result<String, OutOfMemory>
    requires { names_stamps cause.now ≡ true }
    ensures { IfOk result (λ text. string_bytes text ≡ cause_text cause.now) }
{
    match cause {
        Cause::Older {
            out,
            out_stamp,
            member,
            member_stamp,
        } => older_text(alloc, out, *out_stamp, member, *member_stamp),
        Cause::OtherOutput { path, logged, now } => output_text(alloc, path, *logged, *now),
        Cause::OtherInput { path, logged, now } => input_text(alloc, path, *logged, *now),
        _ => unreachable!(),
    }
}

/// A cause that names one file.
fn file_text(alloc: Global, before: &str, path: &Path, after: &str) -> Result<String, OutOfMemory>
    ensures { IfOk result (λ text. string_bytes text ≡ before.now ++ path.now ++ after.now) }
{
    let name = path.as_str();
    Ok(format!(in alloc; "{before}{name}{after}")?)
}

/// A cause that names no file.
fn plain_text(cause: &Cause) -> Option<&'static str>
    ensures { MatchOption result (names_file cause.now ≡ true) (λ text. text.now ≡ cause_text cause.now) }
{
    match cause {
        Cause::All => Some("all are asked for"),
        Cause::Always => Some("always"),
        Cause::NotFile => Some("no file"),
        Cause::NoRecord => Some("no record"),
        Cause::OtherText { logged: _ } => Some("another text"),
        Cause::Fresh => Some("fresh"),
        _ => None,
    }
}

/// The text of a cause.
fn cause_text(alloc: Global, cause: &Cause) -> Result<String, OutOfMemory>
    ensures { IfOk result (λ text. string_bytes text ≡ cause_text cause.now) }
{
    if let Some(text) = plain_text(cause) {
        return Ok(format!(in alloc; "{text}")?);
    }
    match cause {
        Cause::Lacks { path } => file_text(alloc, "lacks ", path, ""),
        Cause::Waits { path } => file_text(alloc, "waits for ", path, ""),
        Cause::NoOutput { path } => file_text(alloc, "output ", path, " missing"),
        _ => stamped_text(alloc, cause),
    }
}

/// The line that tells why a step is to run, or is not: its name and its first output, and the cause.
pub fn cause_line(alloc: Global, step: &Step, cause: &Cause) -> Result<String, OutOfMemory>
    ensures { IfOk result (λ line. string_bytes line ≡ cause_line cause.now step.now) }
{
    let title = title(alloc, step)?;
    let text = cause_text(alloc, cause)?;
    Ok(format!(in alloc; "{title}: {text}\n")?)
}

/// The line of an output that was removed.
pub fn removed_line(alloc: Global, path: &Path) -> Result<String, OutOfMemory>
    ensures { IfOk result (λ line. string_bytes line ≡ removed_line path.now) }
{
    let name = path.as_str();
    Ok(format!(in alloc; "...removed {name}...\n")?)
}

/// The line that tells how many outputs were removed.
pub fn removed_count_line(alloc: Global, count: usize) -> Result<String, OutOfMemory>
    ensures { IfOk result (λ line. string_bytes line ≡ removed_count_line count) }
{
    Ok(format!(in alloc; "removed {count}\n")?)
}
