//! Which calls of a host in memory fail, how its children end, and in which order.
ghost use Rattle.std.specs.Prelude.{◌≡◌, ◌<◌, ◌≤◌, true, Some, OnOk, OnErr, vec_len, if◌then◌else◌};
ghost use Rattle.std.specs.Bool.{OnTrue};
ghost use Rattle.std.specs.Option.{option_to_list};
ghost use Rattle.b2_memory.specs.Scripts.{number_of, is_same, is_listed, call_after, calls_after, is_spent, fuse_after, is_to_fail, listed_after, is_bad, starts_after, place_picked, picked, left_of, raised, nothing_listed, with_calls, with_starts, with_picks, no_risks, some_call_fails, some_wait_fails, some_end_badly, risks_by, risks_of, risks_with_calls, risks_with_starts, risks_with_fuse, AreAmong, MayFail};

use b2_base::fault::OutOfMemory;
use std::alloc::Global;

/// The kinds of calls that a host in memory can be told to fail.
#[derive(Clone, Copy)]
pub enum CallKind {
    Stat,
    Read,
    List,
    Append,
    Replace,
    Remove,
    Start,
    Wait,
}

impl CallKind {
    /// Two kinds are compared by these numbers.
    fn number(self) -> u8
        ensures { result ≡ number_of self }
    {
        match self {
            CallKind::Stat => 0,
            CallKind::Read => 1,
            CallKind::List => 2,
            CallKind::Append => 3,
            CallKind::Replace => 4,
            CallKind::Remove => 5,
            CallKind::Start => 6,
            CallKind::Wait => 7,
        }
    }

    fn is_same(self, other: CallKind) -> bool
        ensures { result ≡ is_same self other }
    {
        self.number() == other.number()
    }
}

/// What a host was told: the calls that are to fail, each with its kind and its number from now on; the starts that are to
/// end badly; which child each wait gives; after how many more calls every call fails; and how many bytes a failed write
/// leaves. Beside it, how often a call failed; and what may go wrong, which goes on to hold where an entry is spent.
pub struct Script {
    pub calls: Vec<(CallKind, u32)>,
    pub starts: Vec<u32>,
    pub picks: Vec<u32>,
    /// How many of the picks were taken.
    pub taken: usize,
    pub fuse: Option<u32>,
    pub tear: u32,
    pub faults: u64,
    /// Whether a call may fail, and whether a wait may.
    pub may_fail: bool,
    pub wait_may_fail: bool,
    /// Whether a child may end badly.
    pub may_end_badly: bool,
    ghost within: { taken ≤ vec_len picks },
    ghost covered: { AreAmong (risks_by fuse calls.items starts.items) (record { may_fail = may_fail; wait_may_fail = wait_may_fail; may_end_badly = may_end_badly }) },
}

/// By hand, so that dropping one is one call.
impl Drop for Script {
    fn drop(self) {
        let Script {
            calls,
            starts,
            picks,
            taken: _,
            fuse: _,
            tear: _,
            faults: _,
            may_fail: _,
            wait_may_fail: _,
            may_end_badly: _,
        } = self;
        drop(calls);
        drop(starts);
        drop(picks);
    }
}

/// A call of a kind was made: a listed call of that kind comes one nearer.
fn pass(call: &mut (CallKind, u32), kind: CallKind)
    ensures { call.new ≡ call_after kind call.old }
{
    if kind.is_same(call.0) {
        call.1 = call.1.saturating_sub(1);
    }
}

fn pass_all(calls: &mut Vec<(CallKind, u32)>, kind: CallKind)
    ensures { calls.new.items ≡ calls_after kind calls.old.items }
{
    for call in calls.iter_mut() {
        pass(call, kind);
    }
}

fn count_down(starts: &mut Vec<u32>)
    ensures { starts.new.items ≡ starts_after starts.old.items }
{
    for start in starts.iter_mut() {
        *start = start.saturating_sub(1);
    }
}

fn is_spent(fuse: Option<u32>) -> bool
    ensures { result ≡ is_spent fuse }
{
    match fuse {
        None => false,
        Some(left) => left == 0,
    }
}

fn fuse_after(fuse: Option<u32>) -> Option<u32>
    ensures { result ≡ fuse_after fuse }
{
    match fuse {
        None => None,
        Some(left) => Some(left.saturating_sub(1)),
    }
}

/// The place that a number picks among so many children.
fn place_of_pick(pick: Option<u32>, children: usize) -> usize
    requires { 0 < children }
    ensures place { result ≡ place_picked (option_to_list pick) children }
    ensures within { result < children }
{
    match pick {
        None => 0,
        Some(pick) => (pick.saturating_sub(1) as usize).min(children - 1),
    }
}

/// Whether one of the listed calls is still to fail.
fn some_call_fails(calls: &[(CallKind, u32)]) -> bool
    ensures { result ≡ some_call_fails calls.now }
{
    calls.iter().any(|call| call.1 > 0)
}

/// Whether one of the listed waits is still to fail.
fn some_wait_fails(calls: &[(CallKind, u32)]) -> bool
    ensures { result ≡ some_wait_fails calls.now }
{
    calls
        .iter()
        .any(|call| CallKind::Wait.is_same(call.0) && call.1 > 0)
}

/// Whether one of the listed starts is still to end badly.
fn some_end_badly(starts: &[u32]) -> bool
    ensures { result ≡ some_end_badly starts.now }
{
    starts.iter().any(|start| *start > 0)
}

/// A count that goes up, unless it stands at the greatest.
#[tactic(auto, using(crate::proofs::CountsRiseUntilFull::raised_is))]
pub fn raise(count: u64) -> u64
    ensures { result ≡ raised count }
{
    count.saturating_add(1)
}

impl Script {
    ghost use Rattle.b2_memory.specs.Listings.{listed_of, risks_told};

    /// Nothing is listed, and nothing may go wrong.
    pub fn new(alloc: Global) -> Script
        ensures listed { listed_of result ≡ nothing_listed }
        ensures faults { result.faults ≡ 0 }
        ensures risks { risks_told result ≡ no_risks }
    {
        Script {
            calls: Vec::new(alloc),
            starts: Vec::new(alloc),
            picks: Vec::new(alloc),
            taken: 0,
            fuse: None,
            tear: 0,
            faults: 0,
            may_fail: false,
            wait_may_fail: false,
            may_end_badly: false,
        }
    }

    fn is_listed(&self, kind: CallKind) -> bool
        ensures { result ≡ is_listed kind self.now.calls.items }
    {
        self.calls
            .iter()
            .any(|call| kind.is_same(call.0) && call.1 == 1)
    }

    /// Whether the next call of a kind fails.
    pub fn is_to_fail(&self, kind: CallKind) -> bool
        ensures { result ≡ is_to_fail kind (listed_of self.now) }
    {
        is_spent(self.fuse) || self.is_listed(kind)
    }

    /// Whether this call fails, which it does only where one may. It is counted, and so is its fault.
    pub fn fails(&mut self, kind: CallKind) -> bool
        ensures may { OnTrue result (MayFail kind (risks_told self.old)) }
        ensures fails { result ≡ is_to_fail kind (listed_of self.old) }
        ensures listed { listed_of self.new ≡ listed_after kind (listed_of self.old) }
        ensures faults { self.new.faults ≡ (if result then raised self.old.faults else self.old.faults) }
        ensures risks { risks_told self.new ≡ risks_told self.old }
    {
        let fails = self.is_to_fail(kind);
        pass_all(&mut self.calls, kind);
        self.fuse = fuse_after(self.fuse);
        if fails {
            self.faults = raise(self.faults);
        }
        fails
    }

    /// What a write of a kind leaves of its piece.
    pub fn left_of<'a>(&self, kind: CallKind, piece: &'a [u8]) -> &'a [u8]
        ensures { result.now ≡ left_of kind piece.now (listed_of self.now) }
    {
        let most = self.tear as usize;
        if !self.is_to_fail(kind) || piece.len() <= most {
            return piece;
        }
        &piece[..most]
    }

    /// The place of the child that a wait gives, among so many.
    pub fn pick(&mut self, children: usize) -> usize
        requires { 0 < children }
        ensures place { result ≡ place_picked (listed_of self.old).picks children }
        ensures within { result < children }
        ensures listed { listed_of self.new ≡ picked (listed_of self.old) }
        ensures faults { self.new.faults ≡ self.old.faults }
        ensures risks { risks_told self.new ≡ risks_told self.old }
    {
        let pick = self.picks.get(self.taken).copied();
        if pick.is_some() {
            self.taken += 1;
        }
        place_of_pick(pick, children)
    }

    /// Whether the child that starts next is to end badly, which it is only where one may.
    pub fn is_bad(&self) -> bool
        ensures bad { result ≡ is_bad (listed_of self.now).starts }
        ensures may { OnTrue result (self.now.may_end_badly ≡ true) }
    {
        self.starts.iter().any(|start| *start == 1)
    }

    /// A child was started: each listed start comes one nearer.
    pub fn count_start(&mut self)
        ensures listed { listed_of self.new ≡ record (listed_of self.old) { starts = starts_after (listed_of self.old).starts } }
        ensures faults { self.new.faults ≡ self.old.faults }
        ensures risks { risks_told self.new ≡ risks_told self.old }
    {
        count_down(&mut self.starts);
    }

    /// Lists more calls that are to fail. After an error the list is as before.
    pub fn list_calls(&mut self, calls: &[(CallKind, u32)]) -> Result<(), OutOfMemory>
        ensures ok { OnOk result (listed_of self.new ≡ with_calls calls.now (listed_of self.old)) }
        ensures risks { OnOk result (risks_told self.new ≡ risks_with_calls calls.now (risks_told self.old)) }
        ensures err { OnErr result ((listed_of self.new ≡ listed_of self.old) × (risks_told self.new ≡ risks_told self.old)) }
        ensures faults { self.new.faults ≡ self.old.faults }
    {
        self.calls.extend_from_slice(calls)?;
        self.may_fail = self.may_fail || some_call_fails(calls);
        self.wait_may_fail = self.wait_may_fail || some_wait_fails(calls);
        Ok(())
    }

    /// Lists more starts that are to end badly. After an error the list is as before.
    pub fn list_starts(&mut self, starts: &[u32]) -> Result<(), OutOfMemory>
        ensures ok { OnOk result (listed_of self.new ≡ with_starts starts.now (listed_of self.old)) }
        ensures risks { OnOk result (risks_told self.new ≡ risks_with_starts starts.now (risks_told self.old)) }
        ensures err { OnErr result ((listed_of self.new ≡ listed_of self.old) × (risks_told self.new ≡ risks_told self.old)) }
        ensures faults { self.new.faults ≡ self.old.faults }
    {
        self.starts.extend_from_slice(starts)?;
        self.may_end_badly = self.may_end_badly || some_end_badly(starts);
        Ok(())
    }

    /// Lists more numbers, each for a wait. After an error the list is as before.
    pub fn list_picks(&mut self, picks: &[u32]) -> Result<(), OutOfMemory>
        ensures ok { OnOk result (listed_of self.new ≡ with_picks picks.now (listed_of self.old)) }
        ensures err { OnErr result (listed_of self.new ≡ listed_of self.old) }
        ensures faults { self.new.faults ≡ self.old.faults }
        ensures risks { risks_told self.new ≡ risks_told self.old }
    {
        self.picks.extend_from_slice(picks)?;
        Ok(())
    }

    /// After so many more calls every call fails.
    pub fn set_fuse(&mut self, calls: u32)
        ensures listed { listed_of self.new ≡ record (listed_of self.old) { fuse = Some calls } }
        ensures faults { self.new.faults ≡ self.old.faults }
        ensures risks { risks_told self.new ≡ risks_with_fuse (risks_told self.old) }
    {
        self.fuse = Some(calls);
        self.may_fail = true;
        self.wait_may_fail = true;
    }

    /// What may go wrong is worked out anew, of what is still listed.
    pub fn renew_risks(&mut self)
        ensures listed { listed_of self.new ≡ listed_of self.old }
        ensures faults { self.new.faults ≡ self.old.faults }
        ensures risks { risks_told self.new ≡ risks_of (listed_of self.old) }
    {
        let burns = self.fuse.is_some();
        self.may_fail = burns || some_call_fails(&self.calls);
        self.wait_may_fail = burns || some_wait_fails(&self.calls);
        self.may_end_badly = some_end_badly(&self.starts);
    }

    /// Nothing is listed any more, and nothing may go wrong.
    pub fn clear(&mut self)
        ensures listed { listed_of self.new ≡ nothing_listed }
        ensures faults { self.new.faults ≡ self.old.faults }
        ensures risks { risks_told self.new ≡ no_risks }
    {
        self.calls.clear();
        self.starts.clear();
        self.picks.clear();
        self.taken = 0;
        self.fuse = None;
        self.tear = 0;
        self.may_fail = false;
        self.wait_may_fail = false;
        self.may_end_badly = false;
    }
}
