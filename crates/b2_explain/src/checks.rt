//! Whether a claimed cause is that of a step of which all that it reads is settled, row by row, by what is known of files.
//!
//! Nothing here looks at a point of staleness: files are compared anew.
ghost use Rattle.std.specs.Prelude.{◌≡◌, ◌≢◌, ◌↔◌, ◌≤◌, ℕ, true, false, Some, length, map, IsTrue};
ghost use Rattle.std.specs.Option.{option_copied};
ghost use Rattle.std.specs.List.{Contains};
ghost use Rattle.b2_sched.specs.Schedules.{IsStep};
ghost use Rattle.b2_facts.specs.declared.file_facts.FileFacts.{FileFacts};
ghost use Rattle.b2_facts.specs.Facts.{IsNumber, path_at, file_at};
ghost use Rattle.b2_log.specs.Finding.{path_of};
ghost use Rattle.b2_log.specs.Good.{IsRising};
ghost use Rattle.b2_reach.specs.Reaches.{IsMissingMember};
ghost use Rattle.b2_verdicts.specs.Sights.{AreNumbers, AllStand, stamp_of};
ghost use Rattle.b2_verdicts.specs.Stamps.{AgreeUpTo, AreLogged};
ghost use Rattle.b2_verdicts.specs.Points.{HavePaths, IsOrdinary};
ghost use Rattle.b2_verdicts.specs.Made.{AreRising};
ghost use Rattle.b2_explain.specs.Sights.{IsFirstFile, IsUnsettledMember};
ghost use Rattle.b2_explain.specs.declared.cause.Cause.TheVariants as causes;
ghost use Rattle.b2_explain.specs.Checks.{IsFirstGonePath, IsFirstNewerOf, IsFirstOlderOf, IsOtherOutputAt, IsCountBefore, AreBefore, IsLoggedAt, IsPresentAt, IsOtherInputAt};
ghost use Rattle.b2_explain.specs.SeenCauses.{TellsOlder};
ghost use Rattle.b2_explain.specs.Checks.{IsStampCause, IsRecordCause, IsLogCause, IsMemberCause, IsFileCause, IsClosedCause, OnCase, AreParts};

use crate::cause::Cause;
use crate::causes::{first_missing, first_unsettled, stamp_seen};
use b2_base::path::Path;
use b2_base::text::Text;
use b2_facts::facts::Facts;
use b2_log::line::Record;
use b2_plan::step::Step;
use b2_sched::sched::Sched;
use b2_verdicts::step_numbers::StepNumbers;
use std::cmp::Ordering;

/// The files of a step, and the record that the log has of its outputs.
#[derive(Drop)]
pub struct StepCase<'a> {
    pub facts: &'a Facts,
    pub step: &'a Step,
    pub numbers: &'a StepNumbers,
    pub last: Option<&'a Record>,
}

/// Whether this path is the first one, in byte order, at which one of these members is missing.
pub fn is_first_missing(facts: &Facts, members: &[u32], path: &Path) -> bool
    requires { (n : ℕ) → Contains members.now n → IsNumber facts.now n }
    ensures { IsTrue result ↔ IsFirstFile facts.now (IsMissingMember facts.now members.now) path.now }
{
    match first_missing(facts, members) {
        Some(number) => facts.path(number) == path,
        None => false,
    }
}

/// Whether one of these members is missing.
pub fn any_missing(facts: &Facts, members: &[u32]) -> bool
    requires { (n : ℕ) → Contains members.now n → IsNumber facts.now n }
    ensures { IsTrue result ↔ ((n : ℕ) × IsMissingMember facts.now members.now n) }
{
    first_missing(facts, members).is_some()
}

/// Whether this path is the first one, in byte order, at which one of these members is an output of a step that is not settled.
pub fn is_first_unsettled(sched: &Sched, facts: &Facts, members: &[u32], path: &Path) -> bool
    requires numbers { (n : ℕ) → Contains members.now n → IsNumber facts.now n }
    requires makers { (n maker : ℕ) (file : FileFacts) → Contains members.now n → file_at facts.now n ≡ Some file
        → file.maker ≡ Some maker → IsStep sched.now maker }
    ensures { IsTrue result ↔ IsFirstFile facts.now (IsUnsettledMember sched.now facts.now members.now) path.now }
{
    match first_unsettled(sched, facts, members) {
        Some(number) => facts.path(number) == path,
        None => false,
    }
}

/// Whether this path is that of the first of these files that was not seen to stand.
fn is_first_gone(facts: &Facts, outs: &[u32], path: &Path) -> bool
    requires { AreNumbers facts.now outs.now }
    ensures { IsTrue result ↔ IsFirstGonePath facts.now outs.now path.now }
{
    for number in outs {
        if stamp_seen(facts, *number).is_none() {
            return facts.path(*number) == path;
        }
    }
    false
}

/// Whether each of these files was seen to stand.
fn all_stand(facts: &Facts, outs: &[u32]) -> bool
    requires { AreNumbers facts.now outs.now }
    ensures { IsTrue result ↔ AllStand facts.now outs.now }
{
    for number in outs {
        if stamp_seen(facts, *number).is_none() {
            return false;
        }
    }
    true
}

/// The first of these members that is newer than a stamp.
fn first_newer(facts: &Facts, ins: &[u32], written: u64) -> Option<u32>
    requires { AreNumbers facts.now ins.now }
    ensures { IsFirstNewerOf facts.now written ins.now result }
{
    for number in ins {
        if let Some(read) = stamp_seen(facts, *number) {
            if written < read {
                return Some(*number);
            }
        }
    }
    None
}

/// The first of these outputs that is older than a member, with its first such member.
fn first_older(facts: &Facts, outs: &[u32], ins: &[u32]) -> Option<(u32, u32)>
    requires outs { AreNumbers facts.now outs.now }
    requires ins { AreNumbers facts.now ins.now }
    ensures { IsFirstOlderOf facts.now outs.now ins.now result }
{
    for out in outs {
        if let Some(written) = stamp_seen(facts, *out) {
            if let Some(member) = first_newer(facts, ins, written) {
                return Some((*out, member));
            }
        }
    }
    None
}

/// Whether a file has this path and was seen to stand with this stamp.
fn is_at(facts: &Facts, number: u32, path: &Path, stamp: u64) -> bool
    requires { IsNumber facts.now number }
    ensures { IsTrue result ↔ ((path_at facts.now number ≡ Some path.now) × (stamp_of facts.now number ≡ Some stamp)) }
{
    facts.path(number) == path && stamp_seen(facts, number) == Some(stamp)
}

/// Whether a file was not seen to stand with this stamp.
fn is_changed(facts: &Facts, number: u32, stamp: u64) -> bool
    requires { IsNumber facts.now number }
    ensures { IsTrue result ↔ (stamp_of facts.now number ≢ Some stamp) }
{
    stamp_seen(facts, number) != Some(stamp)
}

/// Whether a file has this path and was seen to stand with this stamp, and the stamp of a record is the one that is told.
fn are_told(facts: &Facts, number: u32, path: &Path, now: u64, stamp: u64, logged: u64) -> bool
    requires { IsNumber facts.now number }
    ensures { IsTrue result
        ↔ ((path_at facts.now number ≡ Some path.now) × (stamp_of facts.now number ≡ Some now) × (stamp ≡ logged)) }
{
    is_at(facts, number, path, now) && stamp == logged
}

/// Whether a record's outputs first have another stamp at this path, this one, and the file there has that one.
fn is_other_output(
    facts: &Facts,
    outs: &[u32],
    last: &Record,
    path: &Path,
    logged: u64,
    now: u64,
) -> bool
    requires outs { AreNumbers facts.now outs.now }
    requires named { HavePaths facts.now last.now.outs outs.now }
    ensures { IsTrue result ↔ IsOtherOutputAt facts.now outs.now last.now path.now logged now }
{
    for (place, number) in outs.iter().enumerate() {
        let (_path, stamp) = &last.outs.as_slice()[place];
        if is_changed(facts, *number, *stamp) {
            return are_told(facts, *number, path, now, *stamp, logged);
        }
    }
    false
}

/// How many of a record's inputs, which stand in byte order, stand before a path.
fn logged_before(last: &Record, path: &Path) -> usize
    requires { IsRising last.now.ins }
    ensures { IsCountBefore (map path_of last.now.ins) path.now result }
{
    let mut count = 0;
    for (input, _stamp) in last.ins.as_slice() {
        match input.cmp(path) {
            Ordering::Less => count += 1,
            Ordering::Equal | Ordering::Greater => return count,
        }
    }
    count
}

/// How many of the members, which stand in byte order, stand before a path.
fn members_before(facts: &Facts, ins: &[u32], path: &Path) -> usize
    requires numbers { AreNumbers facts.now ins.now }
    requires rising { AreRising facts.now ins.now }
    ensures { AreBefore facts.now ins.now path.now result }
{
    let mut count = 0;
    for number in ins {
        match facts.path(*number).cmp(path) {
            Ordering::Less => count += 1,
            Ordering::Equal | Ordering::Greater => return count,
        }
    }
    count
}

/// Whether a record has the first of these files, so many of them, in order, with the stamps that were seen.
fn agree_up_to(facts: &Facts, ns: &[u32], logged: &[(Path, u64)], count: usize) -> bool
    requires numbers { AreNumbers facts.now ns.now }
    requires logged { count ≤ length logged.now }
    requires files { count ≤ length ns.now }
    ensures { IsTrue result ↔ AgreeUpTo facts.now logged.now ns.now count }
{
    for place in 0..count {
        let (path, stamp) = &logged[place];
        if !is_at(facts, ns[place], path, *stamp) {
            return false;
        }
    }
    true
}

/// Whether a record has these files and no others, in order, with the stamps that were seen.
fn are_logged(facts: &Facts, ns: &[u32], logged: &[(Path, u64)]) -> bool
    requires { AreNumbers facts.now ns.now }
    ensures { IsTrue result ↔ AreLogged facts.now logged.now ns.now }
{
    ns.len() == logged.len() && agree_up_to(facts, ns, logged, ns.len())
}

/// Whether a record has the outputs and the members of a step, with the stamps that were seen.
fn are_both_logged(facts: &Facts, numbers: &StepNumbers, last: &Record) -> bool
    requires outs { AreNumbers facts.now numbers.now.outs }
    requires ins { AreNumbers facts.now numbers.now.ins }
    ensures { IsTrue result
        ↔ (AreLogged facts.now last.now.outs numbers.now.outs × AreLogged facts.now last.now.ins numbers.now.ins) }
{
    are_logged(facts, numbers.outs.as_slice(), last.outs.as_slice())
        && are_logged(facts, numbers.ins.as_slice(), last.ins.as_slice())
}

/// The stamp that a record has at a place for this path, where it has this path there.
fn logged_at(last: &Record, place: usize, path: &Path) -> Option<u64>
    ensures { IsLoggedAt last.now place path.now result }
{
    match last.ins.as_slice().get(place) {
        Some((input, stamp)) => { if input == path { Some(*stamp) } else { None } }
        None => None,
    }
}

/// Whether this is the stamp that a record has at a place for this path.
fn is_logged_at(last: &Record, place: usize, path: &Path, logged: Option<u64>) -> bool
    ensures { IsTrue result ↔ IsLoggedAt last.now place path.now logged }
{
    logged_at(last, place, path) == logged
}

/// The stamp of the member at a place, where it has this path.
fn present_at(facts: &Facts, ins: &[u32], place: usize, path: &Path) -> Option<u64>
    requires { AreNumbers facts.now ins.now }
    ensures { IsPresentAt facts.now ins.now place path.now result }
{
    match ins.get(place) {
        Some(number) if facts.path(*number) == path => stamp_seen(facts, *number),
        _ => None,
    }
}

/// Whether this is the stamp of the member at a place, as far as it has this path.
fn is_present_at(facts: &Facts, ins: &[u32], place: usize, path: &Path, now: Option<u64>) -> bool
    requires { AreNumbers facts.now ins.now }
    ensures { IsTrue result ↔ IsPresentAt facts.now ins.now place path.now now }
{
    present_at(facts, ins, place, path) == now
}

/// Whether the members before a place are those that stand before a path, and a record has them with the stamps that were seen.
fn agree_before(facts: &Facts, ins: &[u32], last: &Record, path: &Path, place: usize) -> bool
    requires numbers { AreNumbers facts.now ins.now }
    requires rising { AreRising facts.now ins.now }
    requires within { place ≤ length last.now.ins }
    ensures { IsTrue result
        ↔ (AreBefore facts.now ins.now path.now place × AgreeUpTo facts.now last.now.ins ins.now place) }
{
    place == members_before(facts, ins, path) && agree_up_to(facts, ins, last.ins.as_slice(), place)
}

/// Whether the record's input and the member at a place have these stamps for a path.
fn are_stamps_at(
    facts: &Facts,
    ins: &[u32],
    last: &Record,
    path: &Path,
    place: usize,
    logged: Option<u64>,
    now: Option<u64>,
) -> bool
    requires { AreNumbers facts.now ins.now }
    ensures { IsTrue result
        ↔ (IsLoggedAt last.now place path.now logged × IsPresentAt facts.now ins.now place path.now now) }
{
    is_logged_at(last, place, path, logged) && is_present_at(facts, ins, place, path, now)
}

/// Whether the inputs of a record and the members first differ at this path, with these stamps.
fn is_other_input(
    facts: &Facts,
    ins: &[u32],
    last: &Record,
    path: &Path,
    logged: Option<u64>,
    now: Option<u64>,
) -> bool
    requires numbers { AreNumbers facts.now ins.now }
    requires rising { AreRising facts.now ins.now }
    requires proper { IsRising last.now.ins }
    ensures { IsTrue result ↔ IsOtherInputAt facts.now ins.now last.now path.now logged now }
{
    if logged == now {
        return false;
    }
    let place = logged_before(last, path);
    agree_before(facts, ins, last, path, place)
        && are_stamps_at(facts, ins, last, path, place, logged, now)
}

/// Whether a cause is right from the row on that tells of a record's stamps, where the record has the step's text.
fn is_stamp_cause(case: &StepCase, last: &Record, cause: &Cause) -> bool
    requires parts { OnCase AreParts case.now }
    requires found { option_copied case.now.last ≡ Some last.now }
    ensures { IsTrue result ↔ IsStampCause case.now.facts.now case.now.numbers.now last.now cause.now }
{
    let facts = case.facts;
    let (outs, ins) = (case.numbers.outs.as_slice(), case.numbers.ins.as_slice());
    match cause {
        Cause::OtherOutput { path, logged, now } => {
            is_other_output(facts, outs, last, path, *logged, *now)
        }
        Cause::OtherInput { path, logged, now } => {
            are_logged(facts, outs, last.outs.as_slice())
                && is_other_input(facts, ins, last, path, *logged, *now)
        }
        Cause::Fresh => are_both_logged(facts, case.numbers, last),
        _ => false,
    }
}

/// Whether a record has a step's text.
fn has_text(step: &Step, last: &Record) -> bool
    ensures { IsTrue result ↔ (last.now.text ≡ step.now.text) }
{
    last.text == step.text
}

/// Whether a record has this text, which is not the step's.
fn is_other_text(step: &Step, last: &Record, logged: &Text) -> bool
    ensures { IsTrue result ↔ ((last.now.text ≡ logged.now) × (logged.now ≢ step.now.text)) }
{
    last.text == *logged && *logged != step.text
}

/// Whether a cause is right from the row on that tells of a record's text.
fn is_record_cause(case: &StepCase, last: &Record, cause: &Cause) -> bool
    requires parts { OnCase AreParts case.now }
    requires found { option_copied case.now.last ≡ Some last.now }
    ensures { IsTrue result ↔ IsRecordCause case.now.facts.now case.now.step.now case.now.numbers.now last.now cause.now }
{
    match cause {
        Cause::OtherText { logged } => is_other_text(case.step, last, logged),
        _ => has_text(case.step, last) && is_stamp_cause(case, last, cause),
    }
}

/// Whether a cause tells that the log has no record.
fn tells_no_record(cause: &Cause) -> bool
    ensures { IsTrue result ↔ (cause.now ≡ causes.NoRecord) }
{
    matches!(cause, Cause::NoRecord)
}

/// Whether a cause is right from the row on that tells of records.
fn is_log_cause(case: &StepCase, cause: &Cause) -> bool
    requires parts { OnCase AreParts case.now }
    ensures { IsTrue result ↔ OnCase (λ f step numbers last. IsLogCause f step numbers last cause.now) case.now }
{
    match case.last {
        None => tells_no_record(cause),
        Some(last) => is_record_cause(case, last, cause),
    }
}

/// Whether a cause tells that this output is older than this member.
fn tells_older(facts: &Facts, first: u32, newer: u32, cause: &Cause) -> bool
    requires out { IsNumber facts.now first }
    requires member { IsNumber facts.now newer }
    ensures { IsTrue result ↔ TellsOlder facts.now first newer cause.now }
{
    match cause {
        Cause::Older {
            out,
            out_stamp,
            member,
            member_stamp,
        } => { is_at(facts, first, out, *out_stamp) && is_at(facts, newer, member, *member_stamp) }
        _ => false,
    }
}

/// Whether a cause is right from the row on that tells of an older output.
fn is_member_cause(case: &StepCase, cause: &Cause) -> bool
    requires parts { OnCase AreParts case.now }
    ensures { IsTrue result ↔ OnCase (λ f step numbers last. IsMemberCause f step numbers last cause.now) case.now }
{
    let facts = case.facts;
    let outs = case.numbers.outs.as_slice();
    match first_older(facts, outs, case.numbers.ins.as_slice()) {
        Some((first, newer)) => tells_older(facts, first, newer, cause),
        None => is_log_cause(case, cause),
    }
}

/// Whether a cause is right from the row on that tells of a missing output.
fn is_file_cause(case: &StepCase, cause: &Cause) -> bool
    requires parts { OnCase AreParts case.now }
    ensures { IsTrue result ↔ OnCase (λ f step numbers last. IsFileCause f step numbers last cause.now) case.now }
{
    let outs = case.numbers.outs.as_slice();
    match cause {
        Cause::NoOutput { path } => is_first_gone(case.facts, outs, path),
        _ => all_stand(case.facts, outs) && is_member_cause(case, cause),
    }
}

/// Whether a step is neither always nor notfile, and is not to run because all are.
fn is_ordinary(all: bool, step: &Step) -> bool
    ensures { IsTrue result ↔ IsOrdinary all step.now }
{
    !all && !step.always && !step.notfile
}

/// Whether a step is a notfile step, and none for which an earlier row holds.
fn is_notfile(all: bool, step: &Step) -> bool
    ensures { IsTrue result ↔ ((all ≡ false) × (step.now.always ≡ false) × (step.now.notfile ≡ true)) }
{
    !all && !step.always && step.notfile
}

/// Whether a cause is that of a step of which all that it reads is settled.
pub fn is_closed_cause(all: bool, case: &StepCase, cause: &Cause) -> bool
    requires parts { OnCase AreParts case.now }
    ensures { IsTrue result ↔ OnCase (λ f step numbers last. IsClosedCause all f step numbers last cause.now) case.now }
{
    match cause {
        Cause::Lacks { .. } | Cause::Waits { .. } => false,
        Cause::All => all,
        Cause::Always => !all && case.step.always,
        Cause::NotFile => is_notfile(all, case.step),
        _ => is_ordinary(all, case.step) && is_file_cause(case, cause),
    }
}
