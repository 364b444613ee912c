//! Sets of small numbers.
ghost use Rattle.std.specs.Prelude.{◌≡◌, ◌+◌, ◌*◌, ◌<◌, ◌≤◌, true, false, List, length, slice_set, MatchOption, IfOk};
ghost use Rattle.b2_sched.specs.NumberSets.{IsFirstIn, NoneIn, HasNone, IsLeast, IsIndexed};

use b2_base::fault::OutOfMemory;
use std::alloc::Global;
use std::marker::Model;

/// How many flags have one flag above them.
const GROUP: usize = 64;

/// A set of numbers below a bound, seen as its flags. A flag above each 64 flags tells whether one of them is set, and one
/// more above 64 of these: so of 65,536 numbers the lowest is found by at most 144 tests, and no call but `new` takes memory.
pub struct NumberSet {
    flags: Vec<bool>,
    groups: Vec<bool>,
    regions: Vec<bool>,
}

/// By hand, so that dropping one is one call.
impl Drop for NumberSet {
    fn drop(self) {
        let NumberSet {
            flags,
            groups,
            regions,
        } = self;
        drop(flags);
        drop(groups);
        drop(regions);
    }
}

impl Model for NumberSet {
    ghost use Rattle.std.specs.Prelude.{List, Bool};
    ghost use Rattle.std.specs.Coded.{coded_list, coded_bool};
    ghost use Rattle.b2_sched.specs.NumberSets.{IsIndexed};

    ghost Value = { List Bool };

    ghost coded = { coded_list coded_bool };

    ghost view = { λ s. s.flags.items };

    ghost invariant = { λ s. IsIndexed s.flags.items s.groups.items × IsIndexed s.groups.items s.regions.items };
}

/// The first flag that is set, from one place up to another.
pub fn first_in(flags: &[bool], from: usize, to: usize) -> Option<usize>
    requires { to ≤ length flags.now }
    ensures { MatchOption result (NoneIn flags.now from to) (IsFirstIn flags.now from to) }
{
    let mut place = from;
    while place < to {
        if flags[place] {
            return Some(place);
        }
        place += 1;
    }
    None
}

/// The first flag that is set in a group.
fn first_of_group(flags: &[bool], group: usize) -> Option<usize>
    requires { 64 * group < length flags.now }
    ensures { MatchOption result (NoneIn flags.now (64 * group) (64 * group + 64)) (IsFirstIn flags.now (64 * group) (64 * group + 64)) }
{
    let from = group * GROUP;
    let rest = flags.len() - from;
    first_in(flags, from, from + rest.min(GROUP))
}

/// Takes a group out of the set of groups.
fn clear(groups: &mut [bool], regions: &mut [bool], group: usize)
    requires indexed { IsIndexed groups.old regions.old }
    requires within { group < length groups.old }
    ensures cleared { groups.new ≡ slice_set groups.old group false }
    ensures indexed { IsIndexed groups.new regions.new }
{
    let region = group / GROUP;
    groups[group] = false;
    if first_of_group(groups, region).is_none() {
        regions[region] = false;
    }
}

impl NumberSet {
    /// The empty set, for numbers below `size`.
    pub fn new(alloc: Global, size: usize) -> Result<NumberSet, OutOfMemory>
        ensures size { IfOk result (λ s. length s ≡ size) }
        ensures empty { IfOk result HasNone }
    {
        let groups = size.div_ceil(GROUP);
        let regions = groups.div_ceil(GROUP);
        Ok(NumberSet {
            flags: vec![in alloc; false; size]?,
            groups: vec![in alloc; false; groups]?,
            regions: vec![in alloc; false; regions]?,
        })
    }

    /// Puts a number into the set.
    pub fn insert(&mut self, number: usize)
        requires { number < length self.old }
        ensures { self.new ≡ slice_set self.old number true }
    {
        let group = number / GROUP;
        self.flags[number] = true;
        self.groups[group] = true;
        self.regions[group / GROUP] = true;
    }

    /// Takes a number out of the set.
    pub fn remove(&mut self, number: usize)
        requires { number < length self.old }
        ensures { self.new ≡ slice_set self.old number false }
    {
        let group = number / GROUP;
        self.flags[number] = false;
        if first_of_group(&self.flags, group).is_none() {
            clear(&mut self.groups, &mut self.regions, group);
        }
    }

    /// The lowest number of the set.
    pub fn lowest(&self) -> Option<usize>
        ensures { MatchOption result (HasNone self.now) (IsLeast self.now) }
    {
        let region = first_in(&self.regions, 0, self.regions.len())?;
        let group = first_of_group(&self.groups, region)?;
        first_of_group(&self.flags, group)
    }
}
