//! The stamps of files.
ghost use Rattle.std.specs.Prelude.{◌≡◌, Some, OnOk, IsTrue, MatchOption};
ghost use Rattle.std.specs.Prelude.{◌↔◌};
ghost use Rattle.std.specs.List.{Contains};
ghost use Rattle.b2_host.specs.Outside.{Looks};
ghost use Rattle.b2_facts.specs.Facts.{IsNumber};
ghost use Rattle.b2_facts.specs.Growth.{OfOne};
ghost use Rattle.b2_verdicts.specs.Sights.{stamp_of, IsAsked, AreNumbers, AllAsked, AllStand};
ghost use Rattle.b2_verdicts.specs.Stamps.{IsFirstGone};
ghost use Rattle.b2_verdicts.specs.VerdictCalls.{KnowsMore, Always};

use b2_facts::facts::Facts;
use b2_facts::file_facts::FileLook;
use b2_host::fault::Failed;
use b2_host::files::Files;

/// The stamp with which a file was seen to stand.
pub fn stamp_of(facts: &Facts, number: u32) -> Option<u64>
    requires { IsNumber facts.now number }
    ensures { result ≡ stamp_of facts.now number }
{
    match facts.file(number).seen {
        FileLook::Stands(stamp) => Some(stamp),
        FileLook::Gone | FileLook::Unasked => None,
    }
}

/// Whether a file was seen to stand with this stamp.
pub fn is_stamped(facts: &Facts, number: u32, stamp: u64) -> bool
    requires { IsNumber facts.now number }
    ensures { IsTrue result ↔ (stamp_of facts.now number ≡ Some stamp) }
{
    match stamp_of(facts, number) {
        Some(seen) => seen == stamp,
        None => false,
    }
}

/// Asks for the stamp of a file.
fn ask<F: Files>(facts: &mut Facts, files: &mut F, number: u32) -> Result<(), Failed>
    requires { IsNumber facts.old number }
    ensures effect { Looks (F.outside files.old) (F.outside files.new) result }
    ensures asked { OnOk result (IsAsked facts.new number) }
    ensures learns { KnowsMore (OfOne number) (F.outside files.old).disk Always facts.old facts.new }
{
    let _stamp = facts.stamp(files, number)?;
    Ok(())
}

/// Asks for the stamps of files.
pub fn ask_all<F: Files>(facts: &mut Facts, files: &mut F, numbers: &[u32]) -> Result<(), Failed>
    requires { AreNumbers facts.old numbers.now }
    ensures effect { Looks (F.outside files.old) (F.outside files.new) result }
    ensures asked { OnOk result (AllAsked facts.new numbers.now) }
    ensures learns { KnowsMore (Contains numbers.now) (F.outside files.old).disk Always facts.old facts.new }
{
    for number in numbers {
        ask(facts, files, *number)?;
    }
    Ok(())
}

/// The place of the first of these files that was not seen to stand.
pub fn first_gone(facts: &Facts, numbers: &[u32]) -> Option<usize>
    requires { AreNumbers facts.now numbers.now }
    ensures { MatchOption result (AllStand facts.now numbers.now) (IsFirstGone facts.now numbers.now) }
{
    for (place, number) in numbers.iter().enumerate() {
        let Some(_stamp) = stamp_of(facts, *number) else {
            return Some(place);
        };
    }
    None
}
