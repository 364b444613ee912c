//! Records of steps.
ghost use Rattle.std.specs.Prelude.{◌≡◌, ◌⊎◌, ◌<◌, Bool, true, false, List as Items, ℕ, length, Some, None, MatchOption, IfNone, IfOk, OnOk, IfErr, IsTrue};
ghost use Rattle.std.specs.Option.{IfSome, option_copied};
ghost use Rattle.std.specs.List.{Contains};
ghost use Rattle.b2_plan.specs.declared.step.Step.{Step};
ghost use Rattle.b2_log.specs.declared.line.Record.{Record};
ghost use Rattle.b2_log.specs.declared.line.Digests.{Digests};
ghost use Rattle.b2_log.specs.declared.line.LogLine.{LogLine};
ghost use Rattle.b2_log.specs.declared.line.LogLine.TheVariants as lines;
ghost use Rattle.b2_log.specs.Good.{IsProper};
ghost use Rattle.b2_log.specs.Finding.{find_record};
ghost use Rattle.b2_runs.specs.LogCourses.{HasDigestsAlready};
ghost use Rattle.b2_facts.specs.Facts.{IsAbout};
ghost use Rattle.b2_verdicts.specs.Sights.{AreNumbers};
ghost use Rattle.b2_verdicts.specs.Stamps.{AreLogged};
ghost use Rattle.b2_verdicts.specs.Points.{HaveDigests};
ghost use Rattle.b2_verdicts.specs.VerdictCalls.{IsOfStep, Always, Asks, IfTooBig};
ghost use Rattle.b2_verdicts.specs.Made.{HasDigestsBy, IsMadeOf, AreRising};
ghost use Rattle.b2_verdicts.specs.Made.{IsSomeUnseen, IsSomeGone, IsWithoutFile};
ghost use Rattle.b2_verdicts.specs.Digested.{AllDigested, AreFound};

use crate::comparing::first_other;
use crate::digests::find_digest;
use crate::stamps::{ask_all, stamp_of};
use crate::step_numbers::StepNumbers;
use b2_base::fault::OutOfMemory;
use b2_base::list::List;
use b2_base::text_list::TextList;
use b2_facts::facts::Facts;
use b2_facts::stop::FilesStop;
use b2_host::files::Files;
use b2_log::line::{Digests, Record, StampedPaths};
use b2_plan::step::Step;
use std::alloc::Global;

/// The paths of files with their stamps, in order; none where one was not seen to stand.
fn stamped(
    alloc: Global,
    facts: &Facts,
    numbers: &[u32],
) -> Result<Option<StampedPaths>, OutOfMemory>
    requires { AreNumbers facts.now numbers.now }
    ensures { IfOk result (λ made. MatchOption made (IsSomeUnseen facts.now numbers.now)
        (λ files. AreLogged facts.now files numbers.now)) }
{
    let mut made = List::new(alloc);
    for number in numbers {
        let Some(stamp) = stamp_of(facts, *number) else {
            return Ok(None);
        };
        made.push((facts.path(*number).copy()?, stamp))?;
    }
    Ok(Some(made))
}

/// The digests of files, in order; none where no file stands.
fn digested<F: Files>(
    alloc: Global,
    facts: &mut Facts,
    files: &mut F,
    numbers: &[u32],
) -> Result<Option<TextList>, FilesStop>
    requires { AreNumbers facts.old numbers.now }
    ensures asks { Asks (Contains numbers.now) Always facts.old facts.new
        (F.outside files.old) (F.outside files.new) result }
    ensures made { IfOk result (λ made. IfSome made (HaveDigests facts.new numbers.now)) }
    ensures gone { IfOk result (λ made. IfNone made (IsSomeGone (F.outside files.old).disk facts.new numbers.now)) }
{
    let mut made = TextList::new(alloc);
    for number in numbers {
        find_digest(alloc, facts, files, *number)?;
        match &facts.file(*number).digest {
            None => return Ok(None),
            Some(digest) => made.push(digest.copy()?)?,
        }
    }
    Ok(Some(made))
}

/// The digests of a step's files; none where one of them is gone.
fn digests_of<F: Files>(
    alloc: Global,
    numbers: &StepNumbers,
    facts: &mut Facts,
    files: &mut F,
) -> Result<Option<Digests>, FilesStop>
    requires outs { AreNumbers facts.old numbers.now.outs }
    requires ins { AreNumbers facts.old numbers.now.ins }
    ensures asks { Asks (IsOfStep numbers.now) Always facts.old facts.new
        (F.outside files.old) (F.outside files.new) result }
    ensures made { IfOk result (λ made. IfSome made (λ digests. HasDigestsBy true numbers.now facts.new (Some digests))) }
    ensures gone { IfOk result (λ made. IfNone made
        (IsSomeGone (F.outside files.old).disk facts.new numbers.now.outs
        ⊎ IsSomeGone (F.outside files.old).disk facts.new numbers.now.ins)) }
{
    let Some(outs) = digested(alloc, facts, files, numbers.outs.as_slice())? else {
        return Ok(None);
    };
    let Some(ins) = digested(alloc, facts, files, numbers.ins.as_slice())? else {
        return Ok(None);
    };
    Ok(Some(Digests { outs, ins }))
}

/// The record of a step with these digests, by the stamps that were seen; none where a file was not seen to stand.
fn record_with(
    alloc: Global,
    step: &Step,
    numbers: &StepNumbers,
    facts: &Facts,
    digests: Option<Digests>,
) -> Result<Option<Record>, OutOfMemory>
    requires outs { AreNumbers facts.now numbers.now.outs }
    requires ins { AreNumbers facts.now numbers.now.ins }
    ensures made { IfOk result (λ made. IfSome made (λ r. (by_digest : Bool)
        → HasDigestsBy by_digest numbers.now facts.now digests
        → IsMadeOf by_digest step.now numbers.now facts.now r)) }
    ensures gone { IfOk result (λ made. IfNone made
        (IsSomeUnseen facts.now numbers.now.outs ⊎ IsSomeUnseen facts.now numbers.now.ins)) }
{
    let Some(outs) = stamped(alloc, facts, numbers.outs.as_slice())? else {
        return Ok(None);
    };
    let Some(ins) = stamped(alloc, facts, numbers.ins.as_slice())? else {
        return Ok(None);
    };
    Ok(Some(Record {
        text: step.text.copy()?,
        outs,
        ins,
        digests,
    }))
}

/// The record of a step by the files as they stand, with their stamps and, where judging is by digests, with their digests.
/// A digest that is not known is read. There is none where a file is gone. After an error more may be known than before. The
/// host failed, no memory was left, or a file that was to be digested has more than 268,435,456 bytes.
pub fn record_of<F: Files>(
    alloc: Global,
    by_digest: bool,
    step: &Step,
    numbers: &StepNumbers,
    facts: &mut Facts,
    files: &mut F,
) -> Result<Option<Record>, FilesStop>
    requires outs { AreNumbers facts.old numbers.now.outs }
    requires ins { AreNumbers facts.old numbers.now.ins }
    ensures asks { Asks (IsOfStep numbers.now) Always facts.old facts.new
        (F.outside files.old) (F.outside files.new) result }
    ensures unread { by_digest ≡ false → (F.outside files.new).reads ≡ (F.outside files.old).reads }
    ensures only { IfErr result (IfTooBig (by_digest ≡ true)) }
    ensures exact { IfOk result (λ made. IfSome made (IsMadeOf by_digest step.now numbers.now facts.new)) }
    ensures gone { IfOk result (λ made. IfNone made (IsWithoutFile (F.outside files.old).disk numbers.now facts.new)) }
    ensures proper { IfOk result (λ made. IfSome made (λ r. (steps : Items Step) (roots : Items (Items ℕ))
        → IsAbout steps roots facts.old → 0 < length numbers.now.outs → AreRising facts.old numbers.now.ins
        → IsProper (lines.Record r))) }
{
    ask_all(facts, files, numbers.outs.as_slice())?;
    ask_all(facts, files, numbers.ins.as_slice())?;
    if !by_digest {
        return Ok(record_with(alloc, step, numbers, facts, None)?);
    }
    match digests_of(alloc, numbers, facts, files)? {
        None => Ok(None),
        Some(digests) => Ok(record_with(alloc, step, numbers, facts, Some(digests))?),
    }
}

/// Finds the digests of files.
fn digest_all<F: Files>(
    alloc: Global,
    facts: &mut Facts,
    files: &mut F,
    numbers: &[u32],
) -> Result<(), FilesStop>
    requires { AreNumbers facts.old numbers.now }
    ensures asks { Asks (Contains numbers.now) Always facts.old facts.new
        (F.outside files.old) (F.outside files.new) result }
    ensures digested { OnOk result (AllDigested (F.outside files.old).disk facts.new numbers.now) }
{
    for number in numbers {
        find_digest(alloc, facts, files, *number)?;
    }
    Ok(())
}

/// Finds what the record of a stale step will have of its members, before the step starts: their stamps and, where judging is by
/// digests, their digests. So a member that is edited while the step runs differs from the record. A step that owes no file
/// has no record, and nothing is found.
pub fn find_inputs<F: Files>(
    alloc: Global,
    by_digest: bool,
    step: &Step,
    numbers: &StepNumbers,
    facts: &mut Facts,
    files: &mut F,
) -> Result<(), FilesStop>
    requires { AreNumbers facts.old numbers.now.ins }
    ensures asks { Asks (IsOfStep numbers.now) Always facts.old facts.new
        (F.outside files.old) (F.outside files.new) result }
    ensures unread { by_digest ≡ false → (F.outside files.new).reads ≡ (F.outside files.old).reads }
    ensures none_asked { step.now.notfile ≡ true → F.outside files.new ≡ F.outside files.old }
    ensures only { IfErr result (IfTooBig ((by_digest ≡ true) × (step.now.notfile ≡ false))) }
    ensures found { OnOk result (step.now.notfile ≡ false
        → AreFound by_digest (F.outside files.old).disk facts.new numbers.now.ins) }
{
    if step.notfile {
        return Ok(());
    }
    ask_all(facts, files, numbers.ins.as_slice())?;
    if !by_digest {
        return Ok(());
    }
    digest_all(alloc, facts, files, numbers.ins.as_slice())
}

/// Whether a record has other files than these, or other stamps.
fn has_others(last: &Record, numbers: &StepNumbers, facts: &Facts) -> bool
    requires outs { AreNumbers facts.now numbers.now.outs }
    requires ins { AreNumbers facts.now numbers.now.ins }
    ensures others { result ≡ true
        → AreLogged facts.now last.now.outs numbers.now.outs × AreLogged facts.now last.now.ins numbers.now.ins → ⊥ }
    ensures logged { result ≡ false
        → AreLogged facts.now last.now.outs numbers.now.outs × AreLogged facts.now last.now.ins numbers.now.ins }
{
    first_other(facts, last.outs.as_slice(), numbers.outs.as_slice()).is_some()
        || first_other(facts, last.ins.as_slice(), numbers.ins.as_slice()).is_some()
}

/// Whether a step that is fresh is to get a record with digests: the log's last record for its outputs has none, or other
/// stamps than those that were seen. Takes no memory.
pub fn needs_migration(last: Option<&Record>, numbers: &StepNumbers, facts: &Facts) -> bool
    requires outs { AreNumbers facts.now numbers.now.outs }
    requires ins { AreNumbers facts.now numbers.now.ins }
    ensures needed { IsTrue result → (by_digest : Bool) (step : Step) (made : Record) (log : Items LogLine)
        → IsMadeOf by_digest step numbers.now facts.now made → find_record step.outs log ≡ option_copied last.entry
        → HasDigestsAlready step.outs log made → ⊥ }
    ensures already { result ≡ false → (by_digest : Bool) (step : Step) (made : Record) (log : Items LogLine)
        → IsMadeOf by_digest step numbers.now facts.now made → find_record step.outs log ≡ option_copied last.entry
        → HasDigestsAlready step.outs log made }
{
    match last {
        None => true,
        Some(last) => last.digests.is_none() || has_others(last, numbers, facts),
    }
}
