//! Claims of causes over a host in memory.
//!
//! `check STEP CAUSE ..` tells whether this is why the step with the number is to run, or is not, in the project without words;
//! `check_all STEP CAUSE ..` the same with `-a`. CAUSE is `lacks PATH`, `waits PATH`, `all`, `always`, `no-file`, `output PATH`,
//! `older PATH STAMP PATH STAMP`, `no-record`, `text TEXT`, `output-was PATH STAMP STAMP`, `input-was PATH STAMP STAMP` (`none` for a
//! stamp where there is none) or `fresh`.
ghost use Rattle.b2_plan.specs.Plans.{Apart};

use crate::memory::case_host::CaseHost;
use b2_explain::cause::{Cause, Why};
use b2_explain::check::check;
use b2_explain::fault::ExplainFault;
use b2_journal::log_reading::read;
use b2_plan::plan::Plan;
use b2_prepare::prepare::{Preparation, prepare};
use std::alloc::Global;
use std::mem::ManuallyDrop;
use transcript::answer::Answer;
use transcript::case_fault::CaseFault;
use transcript::command::Word;
use transcript::words::{first, number, own_path, own_text};

/// A stamp.
fn stamp(word: &Word) -> Result<u64, CaseFault> {
    Ok(u64::from(number(word.as_str()?)?))
}

/// A stamp, or `none`.
fn stamp_or_none(word: &Word) -> Result<Option<u64>, CaseFault> {
    let text = word.as_str()?;
    if text == "none" {
        return Ok(None);
    }
    Ok(Some(u64::from(number(text)?)))
}

/// A cause that names files with their stamps.
fn stamped_cause(alloc: Global, name: &str, words: &[Word]) -> Result<Cause, CaseFault> {
    match (name, words) {
        ("older", [out, out_stamp, member, member_stamp]) => Ok(Cause::Older {
            out: own_path(alloc, out.as_str()?)?,
            out_stamp: stamp(out_stamp)?,
            member: own_path(alloc, member.as_str()?)?,
            member_stamp: stamp(member_stamp)?,
        }),
        ("output-was", [path, logged, now]) => Ok(Cause::OtherOutput {
            path: own_path(alloc, path.as_str()?)?,
            logged: stamp(logged)?,
            now: stamp(now)?,
        }),
        ("input-was", [path, logged, now]) => Ok(Cause::OtherInput {
            path: own_path(alloc, path.as_str()?)?,
            logged: stamp_or_none(logged)?,
            now: stamp_or_none(now)?,
        }),
        _ => Err(CaseFault::WrongWords),
    }
}

/// A cause that names one file, or a text.
fn named_cause(alloc: Global, name: &str, words: &[Word]) -> Result<Cause, CaseFault> {
    let [word] = words else {
        return stamped_cause(alloc, name, words);
    };
    let text = word.as_str()?;
    match name {
        "text" => Ok(Cause::OtherText {
            logged: own_text(alloc, text)?,
        }),
        "lacks" => Ok(Cause::Lacks {
            path: own_path(alloc, text)?,
        }),
        "waits" => Ok(Cause::Waits {
            path: own_path(alloc, text)?,
        }),
        "output" => Ok(Cause::NoOutput {
            path: own_path(alloc, text)?,
        }),
        _ => Err(CaseFault::WrongWords),
    }
}

/// A cause.
fn cause(alloc: Global, name: &str, words: &[Word]) -> Result<Cause, CaseFault> {
    if !words.is_empty() {
        return named_cause(alloc, name, words);
    }
    match name {
        "all" => Ok(Cause::All),
        "always" => Ok(Cause::Always),
        "no-file" => Ok(Cause::NotFile),
        "no-record" => Ok(Cause::NoRecord),
        "fresh" => Ok(Cause::Fresh),
        _ => Err(CaseFault::WrongWords),
    }
}

/// Whether a claim over a plan is right, by the log's file as it stands.
fn checked(
    alloc: Global,
    plan: &Plan,
    all: bool,
    why: &Why,
    host: &mut CaseHost,
) -> Result<Answer, CaseFault>
    requires { Apart plan.now.steps plan.now.roots }
{
    let Ok(reading) = read(alloc, host) else {
        return Answer::line(alloc, "the log was not read");
    };
    let reading = ManuallyDrop::new(reading);
    match check(alloc, plan, &reading.log, all, why, host) {
        Ok(true) => Answer::line(alloc, "true"),
        Ok(false) => Answer::line(alloc, "false"),
        Err(ExplainFault::OutOfMemory) => Err(CaseFault::OutOfMemory),
        Err(_fault) => Answer::line(alloc, "a fault"),
    }
}

/// `check STEP CAUSE ..`, `check_all STEP CAUSE ..`.
pub fn claim(
    alloc: Global,
    words: &[Word],
    all: bool,
    host: &mut CaseHost,
) -> Result<Answer, CaseFault> {
    let (step, words) = first(words)?;
    let (name, words) = first(words)?;
    let why = ManuallyDrop::new(Why {
        step: number(step)?,
        cause: cause(alloc, name, words)?,
    });
    let Preparation {
        echoes: _echoes,
        result,
        tests: _tests,
    } = prepare(alloc, &[], host);
    let Ok(planned) = result else {
        return Answer::line(alloc, "no plan");
    };
    let planned = ManuallyDrop::new(planned);
    checked(alloc, &planned.plan, all, &why, host)
}
