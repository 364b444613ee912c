//! Verdicts on steps.
ghost use Rattle.std.specs.Prelude.{◌≡◌, Bool, true, false, Some, None, IfOk, IfErr, OnOk, MatchOption};
ghost use Rattle.std.specs.Option.{IfSome, option_copied};
ghost use Rattle.std.specs.List.{Contains};
ghost use Rattle.b2_host.specs.Outside.{Looks};
ghost use Rattle.b2_log.specs.declared.line.LogLine.TheVariants as lines;
ghost use Rattle.b2_log.specs.Good.{IsProper};
ghost use Rattle.b2_verdicts.specs.Sights.{AreNumbers, AllAsked, AllStand};
ghost use Rattle.b2_verdicts.specs.Points.{IsOrdinary, IsCommanded, IsDisagreement, IsByStamps, IsByDigests, IsSavedBy, IsNotSavedBy, IsPoint};
ghost use Rattle.b2_verdicts.specs.Chains.{IsOutputs, IsBegun, IsOtherFiles, IsJudged};
ghost use Rattle.b2_verdicts.specs.VerdictCalls.{IsOfStep, KnowsMore, LastTells, LastTellsUnless, Always, Asks, IfTooBig};

use crate::comparing::{first_other, has_text};
use crate::digests::is_saved;
use crate::judging_mode::JudgingMode;
use crate::older::first_older;
use crate::point::Point;
use crate::stamps::{ask_all, first_gone};
use crate::step_numbers::StepNumbers;
use b2_facts::facts::Facts;
use b2_facts::stop::FilesStop;
use b2_host::fault::Failed;
use b2_host::files::Files;
use b2_log::line::Record;
use b2_plan::step::Step;
use std::alloc::Global;

/// The first of the points that do not depend on files.
fn commanded(all: bool, step: &Step) -> Option<Point>
    ensures { IsCommanded all step.now result }
{
    if all {
        return Some(Point::All);
    }
    if step.always {
        return Some(Point::Always);
    }
    if step.notfile {
        return Some(Point::Notfile);
    }
    None
}

/// The first output that is missing. The outputs are asked for.
fn outputs<F: Files>(
    numbers: &StepNumbers,
    facts: &mut Facts,
    files: &mut F,
) -> Result<Option<Point>, Failed>
    requires { AreNumbers facts.old numbers.now.outs }
    ensures effect { Looks (F.outside files.old) (F.outside files.new) result }
    ensures stand { IfOk result (IsOutputs numbers.now facts.new) }
    ensures learns { KnowsMore (Contains numbers.now.outs) (F.outside files.old).disk Always facts.old facts.new }
{
    let outs = numbers.outs.as_slice();
    ask_all(facts, files, outs)?;
    match first_gone(facts, outs) {
        Some(out) => Ok(Some(Point::Lacks(out))),
        None => Ok(None),
    }
}

/// The first point up to a missing output. Only the outputs are asked for, and only where the step is ordinary.
fn begun<F: Files>(
    all: bool,
    step: &Step,
    numbers: &StepNumbers,
    facts: &mut Facts,
    files: &mut F,
) -> Result<Option<Point>, Failed>
    requires { AreNumbers facts.old numbers.now.outs }
    ensures effect { Looks (F.outside files.old) (F.outside files.new) result }
    ensures begun { IfOk result (IsBegun all step.now numbers.now facts.new) }
    ensures learns { KnowsMore (IsOfStep numbers.now) (F.outside files.old).disk Always facts.old facts.new }
{
    match commanded(all, step) {
        Some(point) => Ok(Some(point)),
        None => outputs(numbers, facts, files),
    }
}

/// Why a record does not agree by stamps with a step's files: the first reason, if there is one.
fn other_files(last: &Record, numbers: &StepNumbers, facts: &Facts) -> Option<Point>
    requires outs { AreNumbers facts.now numbers.now.outs }
    requires ins { AreNumbers facts.now numbers.now.ins }
    ensures { IsOtherFiles last.now numbers.now facts.now result }
{
    if let Some(place) = first_other(facts, last.outs.as_slice(), numbers.outs.as_slice()) {
        return Some(Point::Outputs(place));
    }
    match first_other(facts, last.ins.as_slice(), numbers.ins.as_slice()) {
        Some(place) => Some(Point::Inputs(place)),
        None => None,
    }
}

/// Why the last record does not agree by stamps: the first reason, if there is one.
fn disagreement(
    step: &Step,
    numbers: &StepNumbers,
    last: Option<&Record>,
    facts: &Facts,
) -> Option<Point>
    requires outs { AreNumbers facts.now numbers.now.outs }
    requires ins { AreNumbers facts.now numbers.now.ins }
    ensures { IsDisagreement step.now numbers.now (option_copied last.entry) facts.now result }
{
    if let Some(member) = numbers.done {
        return Some(Point::Done(member));
    }
    let Some(last) = last else {
        return Some(Point::NoRecord);
    };
    if !has_text(step, last) {
        return Some(Point::Text);
    }
    other_files(last, numbers, facts)
}

/// The first point by stamps from an output on that is older than a member, where all files were asked for.
fn judged(step: &Step, numbers: &StepNumbers, last: Option<&Record>, facts: &Facts) -> Option<Point>
    requires outs { AreNumbers facts.now numbers.now.outs }
    requires ins { AreNumbers facts.now numbers.now.ins }
    ensures { IsJudged step.now numbers.now (option_copied last.entry) facts.now result }
{
    if let Some((out, member)) = first_older(
        facts,
        numbers.outs.as_slice(),
        numbers.ins.as_slice(),
    ) {
        return Some(Point::Older(out, member));
    }
    if let Some(member) = numbers.notfile {
        return Some(Point::FromNotfile(member));
    }
    disagreement(step, numbers, last, facts)
}

/// The first point by stamps from an output on that is older than a member. The members are asked for.
fn by_members<F: Files>(
    step: &Step,
    numbers: &StepNumbers,
    last: Option<&Record>,
    facts: &mut Facts,
    files: &mut F,
) -> Result<Option<Point>, Failed>
    requires outs { AreNumbers facts.old numbers.now.outs }
    requires ins { AreNumbers facts.old numbers.now.ins }
    ensures effect { Looks (F.outside files.old) (F.outside files.new) result }
    ensures asked { OnOk result (AllAsked facts.new numbers.now.ins) }
    ensures judged { IfOk result (IsJudged step.now numbers.now (option_copied last.entry) facts.new) }
    ensures learns { KnowsMore (Contains numbers.now.ins) (F.outside files.old).disk Always facts.old facts.new }
{
    ask_all(facts, files, numbers.ins.as_slice())?;
    Ok(judged(step, numbers, last, facts))
}

/// The first point of staleness by stamps, of a step whose closure is settled; none where the step is fresh. Only stamps are
/// asked for that are not known. After an error more may be known than before.
///
/// `last` is the log's record for the outputs. Takes no memory, and time in proportion to the outputs, the members and the
/// lengths of their paths.
pub fn by_stamps<F: Files>(
    all: bool,
    step: &Step,
    numbers: &StepNumbers,
    last: Option<&Record>,
    facts: &mut Facts,
    files: &mut F,
) -> Result<Option<Point>, Failed>
    requires outs { AreNumbers facts.old numbers.now.outs }
    requires ins { AreNumbers facts.old numbers.now.ins }
    ensures effect { Looks (F.outside files.old) (F.outside files.new) result }
    ensures exact { IfOk result (IsByStamps all step.now numbers.now (option_copied last.entry) facts.new) }
    ensures learns { KnowsMore (IsOfStep numbers.now) (F.outside files.old).disk Always facts.old facts.new }
{
    match begun(all, step, numbers, facts, files)? {
        Some(point) => Ok(Some(point)),
        None => by_members(step, numbers, last, facts, files),
    }
}

/// The point that is left of one by stamps, where a record that agrees by digests takes it away.
fn unless_saved<F: Files>(
    alloc: Global,
    step: &Step,
    numbers: &StepNumbers,
    last: Option<&Record>,
    facts: &mut Facts,
    files: &mut F,
    point: Point,
) -> Result<Option<Point>, FilesStop>
    requires outs { AreNumbers facts.old numbers.now.outs }
    requires ins { AreNumbers facts.old numbers.now.ins }
    requires proper { IfSome (option_copied last) (λ found. IsProper (lines.Record found)) }
    ensures asks { Asks (IsOfStep numbers.now) (LastTells (option_copied last.entry)) facts.old facts.new
        (F.outside files.old) (F.outside files.new) result }
    ensures left { IfOk result (λ left. MatchOption left (IsSavedBy step.now numbers.now facts.new (option_copied last.entry))
        (λ stays. (stays ≡ point)
        × IsNotSavedBy (F.outside files.old).disk step.now numbers.now facts.new (option_copied last.entry))) }
{
    let Some(last) = last else {
        return Ok(Some(point));
    };
    if is_saved(alloc, step, numbers, last, facts, files)? {
        return Ok(None);
    }
    Ok(Some(point))
}

/// The first point of staleness by digests, where the outputs of an ordinary step were seen to stand.
fn by_digests<F: Files>(
    alloc: Global,
    step: &Step,
    numbers: &StepNumbers,
    last: Option<&Record>,
    facts: &mut Facts,
    files: &mut F,
) -> Result<Option<Point>, FilesStop>
    requires outs { AreNumbers facts.old numbers.now.outs }
    requires ins { AreNumbers facts.old numbers.now.ins }
    requires stand { AllStand facts.old numbers.now.outs }
    requires proper { IfSome (option_copied last) (λ found. IsProper (lines.Record found)) }
    ensures asks { Asks (IsOfStep numbers.now) (LastTells (option_copied last.entry)) facts.old facts.new
        (F.outside files.old) (F.outside files.new) result }
    ensures saved { IfOk result (λ _. IsDisagreement step.now numbers.now (option_copied last.entry) facts.new None
        → (F.outside files.new).reads ≡ (F.outside files.old).reads) }
    ensures exact { IfOk result (λ point. (all : Bool) → IsOrdinary all step.now
        → IsByDigests (F.outside files.old).disk all step.now numbers.now (option_copied last.entry) facts.new point) }
{
    if let Some(member) = numbers.notfile {
        return Ok(Some(Point::FromNotfile(member)));
    }
    ask_all(facts, files, numbers.ins.as_slice())?;
    match disagreement(step, numbers, last, facts) {
        None => Ok(None),
        Some(point) => unless_saved(alloc, step, numbers, last, facts, files, point),
    }
}

/// The first point of staleness in a way of judging, of a step whose closure is settled; none where the step is fresh.
///
/// By digests stamps are compared first. Where a stamp differs, or a member is an output of a step that is done, the record's
/// digests are compared, if it has some. A digest that is not known is that of the record at the file's present stamp; else
/// the file is read. So a record that agrees by stamps saves all reads. Where all is to run no digest is taken from the record, for records need not be true then.
///
/// After an error more may be known than before. The host failed, no memory was left, or a file that was to be digested has
/// more than 268,435,456 bytes.
///
/// `last` is the log's record for the outputs. A step that is fresh by stamps takes no memory.
pub fn verdict<F: Files>(
    alloc: Global,
    way: JudgingMode,
    step: &Step,
    numbers: &StepNumbers,
    last: Option<&Record>,
    facts: &mut Facts,
    files: &mut F,
) -> Result<Option<Point>, FilesStop>
    requires outs { AreNumbers facts.old numbers.now.outs }
    requires ins { AreNumbers facts.old numbers.now.ins }
    requires proper { IfSome (option_copied last) (λ found. IsProper (lines.Record found)) }
    ensures asks { Asks (IsOfStep numbers.now) (LastTellsUnless way.all (option_copied last.entry)) facts.old facts.new
        (F.outside files.old) (F.outside files.new) result }
    ensures unread { way.by_digest ≡ false → (F.outside files.new).reads ≡ (F.outside files.old).reads }
    ensures saved { IfOk result (λ _. IsDisagreement step.now numbers.now (option_copied last.entry) facts.new None
        → (F.outside files.new).reads ≡ (F.outside files.old).reads) }
    ensures big { IfErr result (IfTooBig ((way.by_digest ≡ true) × IsOrdinary way.all step.now)) }
    ensures exact { IfOk result
        (IsPoint (F.outside files.old).disk way step.now numbers.now (option_copied last.entry) facts.new) }
{
    if !way.by_digest {
        let point = by_stamps(way.all, step, numbers, last, facts, files)?;
        return Ok(point);
    }
    match begun(way.all, step, numbers, facts, files)? {
        Some(point) => Ok(Some(point)),
        None => by_digests(alloc, step, numbers, last, facts, files),
    }
}
