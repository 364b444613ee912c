//! Causes, by what is known of files.
ghost use Rattle.std.specs.Prelude.{◌≡◌, ◌⊎◌, ◌<◌, ◌↔◌, ℕ, List as Items, true, None, Some, length, slice_get, slice_index, IfOk, IsTrue, MatchOption};
ghost use Rattle.std.specs.Option.{option_copied, IfSome};
ghost use Rattle.std.specs.List.{Contains};
ghost use Rattle.b2_base.specs.Bytes.{Before};
ghost use Rattle.b2_sched.specs.Schedules.{IsStep, IsSettled};
ghost use Rattle.b2_facts.specs.declared.file_facts.FileFacts.{FileFacts};
ghost use Rattle.b2_facts.specs.Facts.{IsNumber, path_at, file_at};
ghost use Rattle.b2_facts.specs.Asks.{IsNotGivenBy};
ghost use Rattle.b2_reach.specs.Reaches.{IsMissingMember};
ghost use Rattle.b2_verdicts.specs.Sights.{AreNumbers, AllStand, stamp_of};
ghost use Rattle.b2_verdicts.specs.Stamps.{IsFirstOlder, IsFirstOther};
ghost use Rattle.b2_explain.specs.Sights.{IsFirstNumber, IsUnsettledMember};
ghost use Rattle.b2_explain.specs.SeenCauses.{IsOlderCause, IsOutputCause, IsInputCause, IsLesserInput, IsAtEntry, is_of_record, is_of_files, IsCauseOf, IsCauseBy};

use crate::cause::Cause;
use b2_base::fault::OutOfMemory;
use b2_base::path::Path;
use b2_facts::facts::Facts;
use b2_facts::file_facts::{FileFacts, FileLook};
use b2_log::line::Record;
use b2_sched::sched::Sched;
use b2_verdicts::point::Point;
use b2_verdicts::step_numbers::StepNumbers;
use std::cmp::Ordering;

/// The stamp with which a file was seen to stand.
pub fn stamp_seen(facts: &Facts, number: u32) -> Option<u64>
    requires { IsNumber facts.now number }
    ensures { result ≡ stamp_of facts.now number }
{
    match facts.file(number).seen {
        FileLook::Stands(stamp) => Some(stamp),
        FileLook::Unasked | FileLook::Gone => None,
    }
}

/// Whether no file is given: no step makes it, and it lies under an output root or was seen to be gone.
pub fn is_missing(file: &FileFacts) -> bool
    ensures { IsTrue result ↔ IsNotGivenBy file.now }
{
    file.maker.is_none() && (file.rooted || matches!(file.seen, FileLook::Gone))
}

/// Whether a file is an output of a step that is not settled.
pub fn is_unsettled(sched: &Sched, file: &FileFacts) -> bool
    requires { (maker : ℕ) → file.now.maker ≡ Some maker → IsStep sched.now maker }
    ensures { IsTrue result ↔ ((maker : ℕ) × (file.now.maker ≡ Some maker) × (IsSettled sched.now maker → ⊥)) }
{
    match file.maker {
        None => false,
        Some(maker) => !sched.settled(maker),
    }
}

/// Of two files that one whose path stands first in byte order.
fn first_of_two(facts: &Facts, best: Option<u32>, number: u32) -> u32
    requires best { (n : ℕ) → best ≡ Some n → IsNumber facts.now n }
    requires number { IsNumber facts.now number }
    ensures either { (result ≡ number) ⊎ (best ≡ Some result) }
    ensures not_after { (one other : Items ℕ) → path_at facts.now result ≡ Some one → path_at facts.now number ≡ Some other
        → Before other one → ⊥ }
    ensures not_after_best { (n : ℕ) (one other : Items ℕ) → best ≡ Some n → path_at facts.now result ≡ Some one
        → path_at facts.now n ≡ Some other → Before other one → ⊥ }
{
    match best {
        None => number,
        Some(best) => match facts.path(number).cmp(facts.path(best)) {
            Ordering::Less => number,
            Ordering::Equal | Ordering::Greater => best,
        },
    }
}

/// Of these members the missing one that stands first in byte order of path.
pub fn first_missing(facts: &Facts, members: &[u32]) -> Option<u32>
    requires { (n : ℕ) → Contains members.now n → IsNumber facts.now n }
    ensures { MatchOption result ((n : ℕ) → IsMissingMember facts.now members.now n → ⊥)
        (λ n. IsNumber facts.now n × IsFirstNumber facts.now (IsMissingMember facts.now members.now) n) }
{
    let mut best = None;
    for number in members {
        if is_missing(facts.file(*number)) {
            best = Some(first_of_two(facts, best, *number));
        }
    }
    best
}

/// Of these members the output of a step that is not settled that stands first in byte order of path.
pub fn first_unsettled(sched: &Sched, facts: &Facts, members: &[u32]) -> Option<u32>
    requires numbers { (n : ℕ) → Contains members.now n → IsNumber facts.now n }
    requires makers { (n maker : ℕ) (file : FileFacts) → Contains members.now n → file_at facts.now n ≡ Some file
        → file.maker ≡ Some maker → IsStep sched.now maker }
    ensures { MatchOption result ((n : ℕ) → IsUnsettledMember sched.now facts.now members.now n → ⊥)
        (λ n. IsNumber facts.now n × IsFirstNumber facts.now (IsUnsettledMember sched.now facts.now members.now) n) }
{
    let mut best = None;
    for number in members {
        if is_unsettled(sched, facts.file(*number)) {
            best = Some(first_of_two(facts, best, *number));
        }
    }
    best
}

/// That an output is older than a member, by their places.
fn older(
    facts: &Facts,
    numbers: &StepNumbers,
    out: usize,
    member: usize,
) -> Result<Cause, OutOfMemory>
    requires outs { AreNumbers facts.now numbers.now.outs }
    requires ins { AreNumbers facts.now numbers.now.ins }
    requires first { IsFirstOlder facts.now numbers.now.outs numbers.now.ins out member }
    ensures { IfOk result (IsOlderCause numbers.now facts.now out member) }
{
    let out = numbers.outs.as_slice()[out];
    let member = numbers.ins.as_slice()[member];
    let (Some(out_stamp), Some(member_stamp)) = (stamp_seen(facts, out), stamp_seen(facts, member))
    else {
        unreachable!()
    };
    let older = facts.path(out).copy()?;
    Ok(Cause::Older {
        out: older,
        out_stamp,
        member: facts.path(member).copy()?,
        member_stamp,
    })
}

/// That a record has another stamp for the output at a place.
fn other_output(
    facts: &Facts,
    numbers: &StepNumbers,
    last: &Record,
    place: usize,
) -> Result<Cause, OutOfMemory>
    requires outs { AreNumbers facts.now numbers.now.outs }
    requires stand { AllStand facts.now numbers.now.outs }
    requires within { (place < length numbers.now.outs) × (place < length last.now.outs) }
    requires named { (one : Items ℕ × ℕ) → slice_get last.now.outs place ≡ Some one
        → path_at facts.now (slice_index numbers.now.outs place) ≡ Some one.0 }
    ensures { IfOk result (IsOutputCause numbers.now facts.now last.now place) }
{
    let number = numbers.outs.as_slice()[place];
    let Some(now) = stamp_seen(facts, number) else {
        unreachable!()
    };
    let (_path, logged) = &last.outs.as_slice()[place];
    Ok(Cause::OtherOutput {
        path: facts.path(number).copy()?,
        logged: *logged,
        now,
    })
}

/// That an input of a record is a file that the step no longer reads.
fn input_left(path: &Path, logged: u64) -> Result<Cause, OutOfMemory>
    ensures { IfOk result (λ cause. cause ≡ Cause.OtherInput path.now (Some logged) None) }
{
    Ok(Cause::OtherInput {
        path: path.copy()?,
        logged: Some(logged),
        now: None,
    })
}

/// That the step reads a file that a record does not have, or has with another stamp.
fn input_is(facts: &Facts, number: u32, logged: Option<u64>) -> Result<Cause, OutOfMemory>
    requires { IsNumber facts.now number }
    ensures { IfOk result (λ cause. (path : Items ℕ) → path_at facts.now number ≡ Some path
        → cause ≡ Cause.OtherInput path logged (stamp_of facts.now number)) }
{
    Ok(Cause::OtherInput {
        path: facts.path(number).copy()?,
        logged,
        now: stamp_seen(facts, number),
    })
}

/// That an input of a record and the member at the same place differ: by the lesser one of their paths, or by their stamps.
fn both_inputs(facts: &Facts, number: u32, path: &Path, logged: u64) -> Result<Cause, OutOfMemory>
    requires { IsNumber facts.now number }
    ensures { IfOk result (IsLesserInput facts.now number path.now logged) }
{
    match path.cmp(facts.path(number)) {
        Ordering::Less => input_left(path, logged),
        Ordering::Equal => input_is(facts, number, Some(logged)),
        Ordering::Greater => input_is(facts, number, None),
    }
}

/// That the inputs of a record and the members first differ at a place.
fn other_input(
    facts: &Facts,
    ins: &[u32],
    last: &Record,
    place: usize,
) -> Result<Cause, OutOfMemory>
    requires ins { AreNumbers facts.now ins.now }
    requires first { IsFirstOther facts.now last.now.ins ins.now place }
    ensures { IfOk result (IsInputCause facts.now ins.now last.now place) }
{
    match (last.ins.as_slice().get(place), ins.get(place)) {
        (Some((path, logged)), None) => input_left(path, *logged),
        (None, Some(number)) => input_is(facts, *number, None),
        (Some((path, logged)), Some(number)) => both_inputs(facts, *number, path, *logged),
        (None, None) => unreachable!(),
    }
}

/// The cause of a point that tells of a record.
fn cause_of_record(
    facts: &Facts,
    numbers: &StepNumbers,
    last: &Record,
    point: Point,
) -> Result<Cause, OutOfMemory>
    requires entry { IsAtEntry facts.now numbers.now (Some last.now) point }
    requires of_record { is_of_record point ≡ true }
    ensures { IfOk result (IsCauseOf numbers.now (Some last.now) facts.now point) }
{
    match point {
        Point::Outputs(place) => other_output(facts, numbers, last, place),
        Point::Inputs(place) => other_input(facts, numbers.ins.as_slice(), last, place),
        _ => Ok(Cause::OtherText {
            logged: last.text.copy()?,
        }),
    }
}

/// The cause of a point from a missing output on.
fn cause_of_files(
    facts: &Facts,
    numbers: &StepNumbers,
    last: Option<&Record>,
    point: Point,
) -> Result<Cause, OutOfMemory>
    requires entry { IsAtEntry facts.now numbers.now (option_copied last) point }
    requires of_files { is_of_files point ≡ true }
    ensures { IfOk result (IsCauseOf numbers.now (option_copied last.entry) facts.now point) }
{
    match (point, last) {
        (Point::Lacks(place), _) => Ok(Cause::NoOutput {
            path: facts.path(numbers.outs.as_slice()[place]).copy()?,
        }),
        (Point::Older(out, member), _) => older(facts, numbers, out, member),
        (_, None) => Ok(Cause::NoRecord),
        (point, Some(last)) => cause_of_record(facts, numbers, last, point),
    }
}

/// The cause of a step that was judged, by its first point of staleness.
pub fn cause_of_point(
    facts: &Facts,
    numbers: &StepNumbers,
    last: Option<&Record>,
    point: Option<Point>,
) -> Result<Cause, OutOfMemory>
    requires entry { IfSome point (IsAtEntry facts.now numbers.now (option_copied last)) }
    ensures { IfOk result (IsCauseBy numbers.now (option_copied last.entry) facts.now point) }
{
    match point {
        None => Ok(Cause::Fresh),
        Some(Point::All) => Ok(Cause::All),
        Some(Point::Always) => Ok(Cause::Always),
        Some(Point::Notfile) => Ok(Cause::NotFile),
        Some(point) => cause_of_files(facts, numbers, last, point),
    }
}
