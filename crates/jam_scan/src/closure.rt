//! What a step is known to read.
use b2_base::fault::OutOfMemory;
use b2_base::path::Path;
use b2_base::text_map::TextMap;
use std::alloc::Global;
use std::marker::Model;

/// What a step is known to read: its inputs, and what was found in the members that were scanned. Members stand in the order
/// in which they were found, each once.
///
/// The caller asks for the next member that was not scanned, looks for what it includes, and hands this in. A member with no
/// includes is scanned too, with nothing found. One that cannot be scanned yet is passed over, and scanned later.
pub struct Closure {
    members: Vec<Path>,
    scanned: Vec<bool>,
    among: TextMap<()>,
}

/// By hand, so that dropping one is one call.
impl Drop for Closure {
    fn drop(self) {
        let Closure {
            members,
            scanned,
            among,
        } = self;
        drop(members);
        drop(scanned);
        drop(among);
    }
}

impl Model for Closure {
    ghost use Rattle.std.specs.Prelude.{◌≡◌, ℕ, List, is_some};
    ghost use Rattle.std.specs.FinMap as map;
    ghost use Rattle.jam_scan.specs.Gatherings.{Gathering, IsInOrder, gathering, is_among};

    ghost Value = { Gathering };

    ghost view = { λ c. gathering c.members.items c.scanned.items };

    ghost invariant = { λ c. IsInOrder (gathering c.members.items c.scanned.items) × ((path : List ℕ) → is_some (map.get c.among path) ≡ is_among c.members.items path) };
}

impl Closure {
    ghost use Rattle.std.specs.Prelude.{◌≡◌, ◌++◌, ℕ, List, IfOk, OnOk, OnErr, MatchOption};
    ghost use Rattle.jam_scan.specs.Gatherings.{IsInOrder, nothing, with_path, with_paths, with_mark, with_scan, IsOpen, NoneOpen, IsFirstOpen, HasSomeOf};

    /// No member yet; takes no memory.
    fn empty(alloc: Global) -> Closure
        ensures { result ≡ nothing }
    {
        Closure {
            members: Vec::new(alloc),
            scanned: Vec::new(alloc),
            among: TextMap::new(alloc),
        }
    }

    /// Adds a path at the end, unless it is a member.
    fn add(&mut self, path: &Path) -> Result<(), OutOfMemory>
        ensures ok { OnOk result (self.new ≡ with_path self.old path.now) }
        ensures err { OnErr result (self.new ≡ self.old) }
    {
        if self.among.get(path.as_text()).is_some() {
            return Ok(());
        }
        let member = path.copy()?;
        let key = path.as_text().copy()?;
        self.members.reserve(1)?;
        self.scanned.reserve(1)?;
        let _before = self.among.insert(key, ())?;
        self.members.push_reserved(member);
        self.scanned.push_reserved(false);
        Ok(())
    }

    /// Adds paths at the end, but for those that are members. After an error some of them were added, from the first on.
    fn add_all(&mut self, paths: &[Path]) -> Result<(), OutOfMemory>
        ensures ok { OnOk result (self.new ≡ with_paths self.old paths.now) }
        ensures err { OnErr result (HasSomeOf self.old paths.now self.new) }
    {
        for path in paths {
            self.add(path)?;
        }
        Ok(())
    }

    /// The inputs of a step, of which none was scanned.
    pub fn new(alloc: Global, ins: &[Path]) -> Result<Closure, OutOfMemory>
        ensures { IfOk result (λ made. made ≡ with_paths nothing ins.now) }
    {
        let mut made = Closure::empty(alloc);
        made.add_all(ins)?;
        Ok(made)
    }

    /// The members in the order in which they were found. Takes no memory.
    pub fn members(&self) -> &[Path]
        ensures value { result.now ≡ self.now.members }
        ensures in_order { IsInOrder self.now }
    {
        self.members.as_slice()
    }

    /// The first place from `from` on whose member was not scanned, counted from 0. Takes no memory.
    pub fn next(&self, from: usize) -> Option<usize>
        ensures { MatchOption result (NoneOpen self.now from) (IsFirstOpen self.now from) }
    {
        let mut at = from;
        while at < self.scanned.len() {
            if !self.scanned[at] {
                return Some(at);
            }
            at += 1;
        }
        None
    }

    /// Tells that the member at a place was scanned, and what was found in it: each path that is no member yet is added at
    /// the end. After an error the place is still open, and some of these paths were added, from the first on.
    pub fn scanned(&mut self, at: usize, found: &[Path]) -> Result<(), OutOfMemory>
        requires { IsOpen self.old at }
        ensures ok { OnOk result (self.new ≡ with_scan self.old at found.now) }
        ensures err { OnErr result (HasSomeOf self.old found.now self.new) }
    {
        self.add_all(found)?;
        self.scanned[at] = true;
        Ok(())
    }
}
