//! Whether files have the digests that a record has of them.
ghost use Rattle.std.specs.Prelude.{◌≡◌, ◌↔◌, ◌⊎◌, length, true, false, Option, Some, None, IfOk, OnOk, IsTrue};
ghost use Rattle.std.specs.List.{Contains, AllByRecursion};
ghost use Rattle.b2_host.specs.Disks.{Disk};
ghost use Rattle.b2_plan.specs.declared.step.Step.{Step};
ghost use Rattle.b2_log.specs.declared.line.LogLine.TheVariants as lines;
ghost use Rattle.b2_log.specs.Good.{IsDigest, IsProper, AreRecordDigests};
ghost use Rattle.b2_facts.specs.Facts.{IsNumber};
ghost use Rattle.b2_facts.specs.Growth.{OfOne};
ghost use Rattle.b2_verdicts.specs.Sights.{stamp_of, digest_at, AreNumbers};
ghost use Rattle.b2_verdicts.specs.Points.{HavePaths, HaveDigests, IsOtherDigest, IsSaved, IsNotSaved};
ghost use Rattle.b2_verdicts.specs.VerdictCalls.{IsOfStep, KnowsMore, LastTells, Always, Asks};
ghost use Rattle.b2_verdicts.specs.Digested.{TellsOne, TellEach, TellsBoth, HasNames, IsGoneIfUnknown};

use crate::comparing::{has_text, have_paths};
use crate::stamps::is_stamped;
use crate::step_numbers::StepNumbers;
use b2_base::fault::OutOfMemory;
use b2_base::path::Path;
use b2_base::text::Text;
use b2_facts::facts::Facts;
use b2_facts::stop::{FilesStop, stop_of_read};
use b2_host::files::Files;
use b2_log::line::{Digests, Record};
use b2_plan::step::Step;
use std::alloc::Global;

/// Finds the digest of a file: where it is not known the file is read.
pub fn find_digest<F: Files>(
    alloc: Global,
    facts: &mut Facts,
    files: &mut F,
    number: u32,
) -> Result<(), FilesStop>
    requires { IsNumber facts.old number }
    ensures asks { Asks (OfOne number) Always facts.old facts.new (F.outside files.old) (F.outside files.new) result }
    ensures gone { OnOk result (IsGoneIfUnknown (F.outside files.old).disk facts.new number) }
{
    match facts.find_digest(alloc, files, number) {
        Ok(()) => Ok(()),
        Err(fault) => Err(stop_of_read(fault, number)),
    }
}

/// Whether the digest that is known of a file is this one.
fn is_digest(facts: &Facts, number: u32, digest: &Text) -> bool
    requires { IsNumber facts.now number }
    ensures { IsTrue result ↔ (digest_at facts.now number ≡ Some digest.now) }
{
    match &facts.file(number).digest {
        Some(known) => *known == *digest,
        None => false,
    }
}

/// Whether no digest is known of a file that was seen to stand with this stamp.
fn wants_digest(facts: &Facts, number: u32, stamp: u64) -> bool
    requires { IsNumber facts.now number }
    ensures { result ≡ true → (digest_at facts.now number ≡ None) × (stamp_of facts.now number ≡ Some stamp) }
{
    match &facts.file(number).digest {
        Some(_) => false,
        None => is_stamped(facts, number, stamp),
    }
}

/// Takes the digest that a record has of a file, where none is known and the record has it at the file's present stamp.
fn take_logged(facts: &mut Facts, number: u32, stamp: u64, digest: &Text) -> Result<(), OutOfMemory>
    requires number { IsNumber facts.old number }
    requires digits { IsDigest digest.now }
    ensures { (disk : Option Disk)
        → KnowsMore (OfOne number) disk (TellsOne facts.old number stamp digest.now) facts.old facts.new }
{
    if !wants_digest(facts, number, stamp) {
        return Ok(());
    }
    let digest = digest.copy()?;
    facts.set_digest(number, digest);
    Ok(())
}

/// Whether a file has the digest that a record has of it at a stamp.
fn has_digest<F: Files>(
    alloc: Global,
    facts: &mut Facts,
    files: &mut F,
    number: u32,
    stamp: u64,
    digest: &Text,
) -> Result<bool, FilesStop>
    requires number { IsNumber facts.old number }
    requires digits { IsDigest digest.now }
    ensures asks { Asks (OfOne number) (TellsOne facts.old number stamp digest.now) facts.old facts.new
        (F.outside files.old) (F.outside files.new) result }
    ensures same { IfOk result (λ same. IsTrue same ↔ (digest_at facts.new number ≡ Some digest.now)) }
    ensures gone { OnOk result (IsGoneIfUnknown (F.outside files.old).disk facts.new number) }
{
    take_logged(facts, number, stamp, digest)?;
    find_digest(alloc, facts, files, number)?;
    Ok(is_digest(facts, number, digest))
}

/// Whether files have the digests that a record has of them. Reads no file after the first that has not.
fn have_digests<F: Files>(
    alloc: Global,
    facts: &mut Facts,
    files: &mut F,
    numbers: &[u32],
    logged: &[(Path, u64)],
    digests: &[Text],
) -> Result<bool, FilesStop>
    requires numbers { AreNumbers facts.old numbers.now }
    requires paths { HavePaths facts.old logged.now numbers.now }
    requires count { length digests.now ≡ length numbers.now }
    requires digits { AllByRecursion IsDigest digests.now }
    ensures asks { Asks (Contains numbers.now) (TellEach logged.now digests.now) facts.old facts.new
        (F.outside files.old) (F.outside files.new) result }
    ensures yes { IfOk result (λ same. same ≡ true → HaveDigests facts.new numbers.now digests.now) }
    ensures no { IfOk result (λ same. same ≡ false
        → IsOtherDigest (F.outside files.old).disk facts.new numbers.now digests.now) }
{
    for (place, number) in numbers.iter().enumerate() {
        if !has_digest(
            alloc,
            facts,
            files,
            *number,
            logged[place].1,
            &digests[place],
        )? {
            return Ok(false);
        }
    }
    Ok(true)
}

/// Whether a record has the step's text and the paths of its files.
fn has_names(step: &Step, numbers: &StepNumbers, last: &Record, facts: &Facts) -> bool
    requires outs { AreNumbers facts.now numbers.now.outs }
    requires ins { AreNumbers facts.now numbers.now.ins }
    ensures yes { result ≡ true → HasNames step.now numbers.now facts.now last.now }
    ensures no { result ≡ false → (disk : Option Disk) → IsNotSaved disk step.now numbers.now facts.now last.now }
{
    if !has_text(step, last) {
        return false;
    }
    if !have_paths(facts, last.outs.as_slice(), numbers.outs.as_slice()) {
        return false;
    }
    have_paths(facts, last.ins.as_slice(), numbers.ins.as_slice())
}

/// Whether a record agrees by digests with a step's files, by these digests of its own.
fn agrees<F: Files>(
    alloc: Global,
    numbers: &StepNumbers,
    last: &Record,
    digests: &Digests,
    facts: &mut Facts,
    files: &mut F,
) -> Result<bool, FilesStop>
    requires outs { AreNumbers facts.old numbers.now.outs }
    requires ins { AreNumbers facts.old numbers.now.ins }
    requires out_paths { HavePaths facts.old last.now.outs numbers.now.outs }
    requires in_paths { HavePaths facts.old last.now.ins numbers.now.ins }
    requires proper { AreRecordDigests last.now digests.now }
    ensures asks { Asks (IsOfStep numbers.now) (TellsBoth last.now digests.now) facts.old facts.new
        (F.outside files.old) (F.outside files.new) result }
    ensures yes { IfOk result (λ same. same ≡ true
        → HaveDigests facts.new numbers.now.outs digests.now.outs × HaveDigests facts.new numbers.now.ins digests.now.ins) }
    ensures no { IfOk result (λ same. same ≡ false
        → IsOtherDigest (F.outside files.old).disk facts.new numbers.now.outs digests.now.outs
        ⊎ IsOtherDigest (F.outside files.old).disk facts.new numbers.now.ins digests.now.ins) }
{
    let (outs, ins) = (numbers.outs.as_slice(), numbers.ins.as_slice());
    let same_outs = have_digests(
        alloc,
        facts,
        files,
        outs,
        last.outs.as_slice(),
        digests.outs.as_slice(),
    )?;
    if !same_outs {
        return Ok(false);
    }
    let same_ins = have_digests(
        alloc,
        facts,
        files,
        ins,
        last.ins.as_slice(),
        digests.ins.as_slice(),
    )?;
    Ok(same_ins)
}

/// Whether a record agrees by digests with a step's files.
pub fn is_saved<F: Files>(
    alloc: Global,
    step: &Step,
    numbers: &StepNumbers,
    last: &Record,
    facts: &mut Facts,
    files: &mut F,
) -> Result<bool, FilesStop>
    requires outs { AreNumbers facts.old numbers.now.outs }
    requires ins { AreNumbers facts.old numbers.now.ins }
    requires proper { IsProper (lines.Record last.now) }
    ensures asks { Asks (IsOfStep numbers.now) (LastTells (Some last.now)) facts.old facts.new
        (F.outside files.old) (F.outside files.new) result }
    ensures yes { IfOk result (λ saved. saved ≡ true → IsSaved step.now numbers.now facts.new last.now) }
    ensures no { IfOk result (λ saved. saved ≡ false
        → IsNotSaved (F.outside files.old).disk step.now numbers.now facts.new last.now) }
{
    if !has_names(step, numbers, last, facts) {
        return Ok(false);
    }
    match &last.digests {
        None => Ok(false),
        Some(digests) => {
            let same = agrees(alloc, numbers, last, digests, facts, files)?;
            Ok(same)
        }
    }
}
