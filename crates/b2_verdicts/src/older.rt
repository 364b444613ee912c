//! Outputs that are older than members.
ghost use Rattle.std.specs.Prelude.{◌≡◌, ℕ, ◌≤◌, true, false, Some, MatchOption};
ghost use Rattle.b2_facts.specs.Facts.{IsNumber};
ghost use Rattle.b2_verdicts.specs.Sights.{stamp_of, AreNumbers};
ghost use Rattle.b2_verdicts.specs.Stamps.{IsNewer, IsNoNewer, NoneNewer, IsFirstNewer, IsNotOlder, NoneOlder};
ghost use Rattle.b2_verdicts.specs.Older.{IsNewerThanOutput, IsOlderAt};

use crate::stamps::stamp_of;
use b2_facts::facts::Facts;

/// The later of two stamps, of which the second may be missing.
fn later(newest: u64, stamp: Option<u64>) -> u64
    ensures least { newest ≤ result }
    ensures covers { (read : ℕ) → stamp ≡ Some read → read ≤ result }
{
    match stamp {
        Some(read) if read > newest => read,
        _ => newest,
    }
}

/// A stamp than which none of these files is newer.
fn newest(facts: &Facts, numbers: &[u32]) -> u64
    requires { AreNumbers facts.now numbers.now }
    ensures { NoneNewer facts.now result numbers.now }
{
    let mut newest = 0;
    for number in numbers {
        let stamp = stamp_of(facts, *number);
        newest = later(newest, stamp);
    }
    newest
}

/// Whether a file is newer than a stamp.
fn is_newer(facts: &Facts, stamp: u64, number: u32) -> bool
    requires { IsNumber facts.now number }
    ensures yes { result ≡ true → IsNewer facts.now stamp number }
    ensures no { result ≡ false → IsNoNewer facts.now stamp number }
{
    match stamp_of(facts, number) {
        Some(read) => read > stamp,
        None => false,
    }
}

/// The place of the first of these files that is newer than a stamp.
fn first_newer(facts: &Facts, stamp: u64, numbers: &[u32]) -> Option<usize>
    requires { AreNumbers facts.now numbers.now }
    ensures { MatchOption result (NoneNewer facts.now stamp numbers.now) (IsFirstNewer facts.now stamp numbers.now) }
{
    for (place, number) in numbers.iter().enumerate() {
        if is_newer(facts, stamp, *number) {
            return Some(place);
        }
    }
    None
}

/// The place of the first of these members that is newer than an output. None of them is newer than `newest`.
fn newer_than(facts: &Facts, out: u32, newest: u64, ins: &[u32]) -> Option<usize>
    requires out { IsNumber facts.now out }
    requires ins { AreNumbers facts.now ins.now }
    requires bound { NoneNewer facts.now newest ins.now }
    ensures { MatchOption result (IsNotOlder facts.now ins.now out) (IsNewerThanOutput facts.now ins.now out) }
{
    let Some(written) = stamp_of(facts, out) else {
        return None;
    };
    if written >= newest {
        return None;
    }
    first_newer(facts, written, ins)
}

/// The first output that is older than a member, and the first member that is newer than it, by their places. Takes one pass
/// over either list, and one more where there are such.
pub fn first_older(facts: &Facts, outs: &[u32], ins: &[u32]) -> Option<(usize, usize)>
    requires outs { AreNumbers facts.now outs.now }
    requires ins { AreNumbers facts.now ins.now }
    ensures { MatchOption result (NoneOlder facts.now outs.now ins.now) (IsOlderAt facts.now outs.now ins.now) }
{
    let newest = newest(facts, ins);
    for (out, number) in outs.iter().enumerate() {
        let member = newer_than(facts, *number, newest, ins);
        if let Some(member) = member {
            return Some((out, member));
        }
    }
    None
}
