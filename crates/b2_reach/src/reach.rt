//! What a step is known to read so far.
ghost use Rattle.std.specs.Prelude.{◌≡◌, ◌+◌, ◌^◌, ◌<◌, ◌⊎◌, [], ◌∷◌, ℕ, List as Items, Bool, true, false, length, Some, IfOk, OnOk, OnErr};
ghost use Rattle.std.specs.List.{Contains};
ghost use Rattle.b2_host.specs.Disks.{Folder};
ghost use Rattle.b2_plan.specs.declared.step.Step.{Step};
ghost use Rattle.b2_sched.specs.Schedules.{IsSettled, IsStep};
ghost use Rattle.b2_facts.specs.declared.file_facts.FileFacts.{FileFacts};
ghost use Rattle.b2_facts.specs.Facts.{IsAbout, IsNumber, IsList, path_at, file_at};
ghost use Rattle.b2_facts.specs.Growth.{Learns, OfNone};
ghost use Rattle.b2_facts.specs.Truth.{StaysTrue};
ghost use Rattle.b2_reach.specs.Files.{IsAtHand, IsMakerOf, IsOfSettled};
ghost use Rattle.b2_reach.specs.Dues.{IsDue};
ghost use Rattle.b2_reach.specs.Reaches.{IsTarget, IsNumberOf, IsInOrder, IsOfStep, IsReachOf, IsAsFar, Gathers};
ghost use Rattle.b2_reach.specs.Steps.{IsOfPlan, AreMarked, AddsOne, Adds, ChangesMembers, WaitsOn, IsFoundWithin, IsDoneOrWaits, with_due, Takes, Goes};
ghost use Rattle.b2_reach.specs.Sightings.{LearnsMore};

use crate::due::{Due, due_of};
use crate::sights::Sights;
use b2_base::fault::OutOfMemory;
use b2_base::list::List;
use b2_base::path::Path;
use b2_facts::facts::Facts;
use b2_facts::stop::FilesStop;
use b2_host::fault::Failed;
use b2_host::files::Files;
use b2_paths::marks::Marks;
use b2_plan::plan::Plan;
use b2_plan::step::Step;
use b2_sched::sched::Sched;
use std::alloc::Global;

/// What a step is known to read so far: its inputs, and what was found in those that are at hand.
pub struct Reach {
    /// The number of the list of the step's directories.
    pub list: u32,
    /// The numbers of the files in the order in which they were found, each once.
    pub members: List<u32>,
    /// How many members were taken, from the first on.
    pub done: usize,
    /// The members that wait for their makers.
    pub pending: List<u32>,
    /// Whether a member is missing. Only an input can be so.
    pub lacks: bool,
}

/// By hand, so that dropping one is one call.
impl Drop for Reach {
    fn drop(self) {
        let Reach {
            list: _,
            members,
            done: _,
            pending,
            lacks: _,
        } = self;
        drop(members);
        drop(pending);
    }
}

/// Looks at a member: what is to be done with it.
fn look<F: Files>(
    plan: &Plan,
    sched: &Sched,
    sights: &mut Sights,
    files: &mut F,
    number: u32,
) -> Result<Due, FilesStop>
    requires about { IsAbout plan.now.steps plan.now.roots sights.old.facts }
    requires schedule { IsOfPlan plan.now sched.now }
    requires number { IsNumber sights.old.facts number }
    ensures due { IfOk result (λ due. (file : FileFacts) → file_at sights.new.facts number ≡ Some file
        → IsDue plan.now.steps (IsSettled sched.now) file due) }
    ensures marks { sights.new.marks ≡ sights.old.marks }
    ensures grows { (notes : Bool) → LearnsMore notes plan.now.steps plan.now.roots (IsSettled sched.now) [] sights.old
        (F.outside files.old) sights.new (F.outside files.new) result }
{
    let given = sights.facts.is_given(files, number)?;
    Ok(due_of(plan, sched, sights.facts.file(number), given))
}

/// Whether the maker of a pending member is settled.
fn is_settled(sched: &Sched, facts: &Facts, number: u32) -> bool
    requires number { IsNumber facts.now number }
    requires step { (file : FileFacts) (maker : ℕ) → file_at facts.now number ≡ Some file → file.maker ≡ Some maker
        → IsStep sched.now maker }
    ensures waits { result ≡ false → WaitsOn (IsSettled sched.now) facts.now number }
    ensures settled { result ≡ true → IsOfSettled (IsSettled sched.now) facts.now number }
{
    match facts.file(number).maker {
        None => false,
        Some(maker) => sched.settled(maker),
    }
}

/// Whether the maker of some pending member is settled.
fn any_settled(sched: &Sched, facts: &Facts, pending: &[u32]) -> bool
    requires numbers { (n : ℕ) → Contains pending.now n → IsNumber facts.now n }
    requires steps { (n : ℕ) (file : FileFacts) (maker : ℕ) → Contains pending.now n → file_at facts.now n ≡ Some file
        → file.maker ≡ Some maker → IsStep sched.now maker }
    ensures none { result ≡ false → (n : ℕ) → Contains pending.now n → WaitsOn (IsSettled sched.now) facts.now n }
{
    for number in pending {
        if is_settled(sched, facts, *number) {
            return true;
        }
    }
    false
}

/// Those of the pending members whose makers are not settled.
fn still_waiting(
    alloc: Global,
    sched: &Sched,
    facts: &Facts,
    pending: &[u32],
) -> Result<List<u32>, OutOfMemory>
    requires numbers { (n : ℕ) → Contains pending.now n → IsNumber facts.now n }
    requires steps { (n : ℕ) (file : FileFacts) (maker : ℕ) → Contains pending.now n → file_at facts.now n ≡ Some file
        → file.maker ≡ Some maker → IsStep sched.now maker }
    ensures each { IfOk result (λ kept. (n : ℕ) → Contains kept n
        → Contains pending.now n × WaitsOn (IsSettled sched.now) facts.now n) }
    ensures whole { IfOk result (λ kept. (n : ℕ) → Contains pending.now n
        → Contains kept n ⊎ IsOfSettled (IsSettled sched.now) facts.now n) }
{
    let mut kept = List::new(alloc);
    for number in pending {
        if !is_settled(sched, facts, *number) {
            kept.push(*number)?;
        }
    }
    Ok(kept)
}

impl Reach {
    /// Nothing is known to be read.
    fn empty(alloc: Global, list: u32) -> Reach
        ensures { result ≡ record { list = list; members = []; done = 0; pending = []; lacks = false } }
    {
        Reach {
            list,
            members: List::new(alloc),
            done: 0,
            pending: List::new(alloc),
            lacks: false,
        }
    }

    /// Adds a member, unless it is one. After an error the members are as before.
    fn add(&mut self, marks: &mut Marks, number: u32) -> Result<(), OutOfMemory>
        requires { AreMarked marks.old self.old.members }
        ensures same { ChangesMembers self.old self.new }
        ensures adds { OnOk result (AddsOne number self.old.members self.new.members) }
        ensures marked { OnOk result (AreMarked marks.new self.new.members) }
        ensures err { OnErr result (self.new ≡ self.old) }
    {
        if !marks.mark(number)? {
            self.members.push(number)?;
        }
        Ok(())
    }

    /// Adds members, but for those that are. After an error some were added.
    fn add_all(&mut self, marks: &mut Marks, numbers: &[u32]) -> Result<(), OutOfMemory>
        requires { AreMarked marks.old self.old.members }
        ensures same { ChangesMembers self.old self.new }
        ensures adds { Adds (Contains numbers.now) self.old.members self.new.members }
        ensures whole { OnOk result ((n : ℕ) → Contains numbers.now n → Contains self.new.members n) }
        ensures marked { OnOk result (AreMarked marks.new self.new.members) }
    {
        for number in numbers {
            self.add(marks, *number)?;
        }
        Ok(())
    }

    /// Adds the files that the includes of a member are found at. After an error some were added.
    fn add_found(&mut self, sights: &mut Sights, number: u32) -> Result<(), OutOfMemory>
        requires { AreMarked sights.old.marks self.old.members }
        ensures sights { sights.new ≡ record sights.old { marks = sights.new.marks } }
        ensures same { ChangesMembers self.old self.new }
        ensures adds { Adds (IsTarget sights.old.facts self.old.list number) self.old.members self.new.members }
        ensures whole { OnOk result ((m : ℕ) → IsTarget sights.old.facts self.old.list number m → Contains self.new.members m) }
        ensures marked { OnOk result (AreMarked sights.new.marks self.new.members) }
    {
        match sights.facts.found(self.list, number) {
            None => Ok(()),
            Some(found) => self.add_all(&mut sights.marks, found.as_slice()),
        }
    }

    /// Scans a member that is at hand, and adds the files that its includes are found at.
    fn take_in<F: Files>(
        &mut self,
        alloc: Global,
        plan: &Plan,
        sights: &mut Sights,
        files: &mut F,
        number: u32,
        notes: bool,
    ) -> Result<(), FilesStop>
        requires list { IsList sights.old.facts self.old.list }
        requires number { IsNumber sights.old.facts number }
        requires known { (file : FileFacts) × (file_at sights.old.facts number ≡ Some file) × (file.scanned ≡ true) }
        requires at_hand { (file : FileFacts) → file_at sights.old.facts number ≡ Some file
            → IsAtHand plan.now.steps (IsMakerOf sights.old.facts number) file }
        requires marked { AreMarked sights.old.marks self.old.members }
        ensures same { ChangesMembers self.old self.new }
        ensures adds { Adds (IsTarget sights.new.facts self.old.list number) self.old.members self.new.members }
        ensures done { OnOk result ((file : FileFacts) → file_at sights.new.facts number ≡ Some file
            → IsFoundWithin sights.new.facts self.old.list self.new.members number file) }
        ensures marked { OnOk result (AreMarked sights.new.marks self.new.members) }
        ensures grows { LearnsMore notes plan.now.steps plan.now.roots (IsMakerOf sights.old.facts number) (number ∷ [])
            sights.old (F.outside files.old) sights.new (F.outside files.new) result }
    {
        sights.read(alloc, plan, files, self.list, number, notes)?;
        self.add_found(sights, number)?;
        Ok(())
    }

    /// Takes a member: does with it what is due, and answers what was.
    fn take<F: Files>(
        &mut self,
        alloc: Global,
        plan: &Plan,
        sched: &Sched,
        sights: &mut Sights,
        files: &mut F,
        number: u32,
        notes: bool,
    ) -> Result<Due, FilesStop>
        requires about { IsAbout plan.now.steps plan.now.roots sights.old.facts }
        requires schedule { IsOfPlan plan.now sched.now }
        requires in_order { IsInOrder plan.now.steps (IsSettled sched.now) sights.old.facts self.old }
        requires member { Contains self.old.members number }
        requires marked { AreMarked sights.old.marks self.old.members }
        ensures { Takes notes plan.now (IsSettled sched.now) number self.old sights.old (F.outside files.old) self.new sights.new
            (F.outside files.new) result }
    {
        match look(plan, sched, sights, files, number)? {
            Due::Read => {
                self.take_in(alloc, plan, sights, files, number, notes)?;
                Ok(Due::Read)
            }
            Due::Nothing => Ok(Due::Nothing),
            Due::Lack => Ok(Due::Lack),
            Due::Wait => Ok(Due::Wait),
        }
    }

    /// Tells what was due with the member at the next place, which is done then. After an error all is as before.
    fn tell(&mut self, number: u32, due: Due) -> Result<(), OutOfMemory>
        requires { self.old.done + 1 < 2 ^ 64 }
        ensures ok { OnOk result (self.new ≡ with_due self.old number due) }
        ensures err { OnErr result (self.new ≡ self.old) }
    {
        match due {
            Due::Nothing | Due::Read => {}
            Due::Lack => self.lacks = true,
            Due::Wait => self.pending.push(number)?,
        }
        self.done += 1;
        Ok(())
    }

    /// Takes the member at the next place.
    fn take_next<F: Files>(
        &mut self,
        alloc: Global,
        plan: &Plan,
        sched: &Sched,
        sights: &mut Sights,
        files: &mut F,
        notes: bool,
    ) -> Result<(), FilesStop>
        requires about { IsAbout plan.now.steps plan.now.roots sights.old.facts }
        requires schedule { IsOfPlan plan.now sched.now }
        requires in_order { IsInOrder plan.now.steps (IsSettled sched.now) sights.old.facts self.old }
        requires place { self.old.done < length self.old.members }
        requires marked { AreMarked sights.old.marks self.old.members }
        ensures goes { Goes notes plan.now (IsSettled sched.now) self.old sights.old (F.outside files.old) self.new sights.new
            (F.outside files.new) result }
        ensures done { OnOk result (self.new.done ≡ self.old.done + 1) }
        ensures marked { OnOk result (AreMarked sights.new.marks self.new.members) }
    {
        let number = self.members.as_slice()[self.done];
        let due = self.take(alloc, plan, sched, sights, files, number, notes)?;
        self.tell(number, due)?;
        Ok(())
    }

    /// Takes the members from the next place on, and those that come in meanwhile.
    fn take_rest<F: Files>(
        &mut self,
        alloc: Global,
        plan: &Plan,
        sched: &Sched,
        sights: &mut Sights,
        files: &mut F,
        notes: bool,
    ) -> Result<(), FilesStop>
        requires about { IsAbout plan.now.steps plan.now.roots sights.old.facts }
        requires schedule { IsOfPlan plan.now sched.now }
        requires in_order { IsInOrder plan.now.steps (IsSettled sched.now) sights.old.facts self.old }
        requires marked { AreMarked sights.old.marks self.old.members }
        ensures goes { Goes notes plan.now (IsSettled sched.now) self.old sights.old (F.outside files.old) self.new sights.new
            (F.outside files.new) result }
        ensures whole { OnOk result (self.new.done ≡ length self.new.members) }
    {
        while self.done < self.members.as_slice().len() {
            self.take_next(alloc, plan, sched, sights, files, notes)?;
        }
        Ok(())
    }

    /// Takes in the pending members whose makers are settled, which stay among those pending.
    fn take_settled<F: Files>(
        &mut self,
        alloc: Global,
        plan: &Plan,
        sched: &Sched,
        sights: &mut Sights,
        files: &mut F,
        notes: bool,
    ) -> Result<(), FilesStop>
        requires about { IsAbout plan.now.steps plan.now.roots sights.old.facts }
        requires schedule { IsOfPlan plan.now sched.now }
        requires in_order { IsInOrder plan.now.steps (IsSettled sched.now) sights.old.facts self.old }
        requires marked { AreMarked sights.old.marks self.old.members }
        ensures same { ChangesMembers self.old self.new }
        ensures goes { Goes notes plan.now (IsSettled sched.now) self.old sights.old (F.outside files.old) self.new sights.new
            (F.outside files.new) result }
        ensures done { OnOk result ((n : ℕ) → Contains self.old.pending n
            → IsDoneOrWaits plan.now.steps (IsSettled sched.now) sights.new.facts self.new n) }
        ensures marked { OnOk result (AreMarked sights.new.marks self.new.members) }
    {
        let mut at = 0;
        while at < self.pending.as_slice().len() {
            let number = self.pending.as_slice()[at];
            let _due = self.take(alloc, plan, sched, sights, files, number, notes)?;
            at += 1;
        }
        Ok(())
    }

    /// Leaves pending those members alone whose makers are not settled. After an error all is as before.
    fn drop_settled(
        &mut self,
        alloc: Global,
        plan: &Plan,
        sched: &Sched,
        facts: &Facts,
    ) -> Result<(), OutOfMemory>
        requires about { IsAbout plan.now.steps plan.now.roots facts.now }
        requires schedule { IsOfPlan plan.now sched.now }
        requires in_order { IsInOrder plan.now.steps (IsSettled sched.now) facts.now self.old }
        requires done { (n : ℕ) → Contains self.old.pending n
            → IsDoneOrWaits plan.now.steps (IsSettled sched.now) facts.now self.old n }
        ensures in_order { IsInOrder plan.now.steps (IsSettled sched.now) facts.now self.new }
        ensures same { self.new ≡ record self.old { pending = self.new.pending } }
        ensures err { OnErr result (self.new ≡ self.old) }
        ensures waiting { OnOk result ((n : ℕ) → Contains self.new.pending n → WaitsOn (IsSettled sched.now) facts.now n) }
    {
        let kept = still_waiting(alloc, sched, facts, self.pending.as_slice())?;
        self.pending = kept;
        Ok(())
    }

    /// Marks the members, and nothing else.
    fn mark_members(&self, marks: &mut Marks) -> Result<(), OutOfMemory>
        ensures { OnOk result (AreMarked marks.new self.now.members) }
    {
        marks.begin();
        for number in self.members.as_slice() {
            let _was = marks.mark(*number)?;
        }
        Ok(())
    }

    /// Whether a member is to be taken.
    fn is_due(&self, plan: &Plan, sched: &Sched, facts: &Facts) -> bool
        requires about { IsAbout plan.now.steps plan.now.roots facts.now }
        requires schedule { IsOfPlan plan.now sched.now }
        requires in_order { IsInOrder plan.now.steps (IsSettled sched.now) facts.now self.now }
        ensures { result ≡ false → IsAsFar (IsSettled sched.now) facts.now self.now }
    {
        self.done < self.members.as_slice().len()
            || any_settled(sched, facts, self.pending.as_slice())
    }

    /// Takes in the pending members whose makers are settled.
    fn take_pending<F: Files>(
        &mut self,
        alloc: Global,
        plan: &Plan,
        sched: &Sched,
        sights: &mut Sights,
        files: &mut F,
        notes: bool,
    ) -> Result<(), FilesStop>
        requires about { IsAbout plan.now.steps plan.now.roots sights.old.facts }
        requires schedule { IsOfPlan plan.now sched.now }
        requires in_order { IsInOrder plan.now.steps (IsSettled sched.now) sights.old.facts self.old }
        requires marked { AreMarked sights.old.marks self.old.members }
        ensures goes { Goes notes plan.now (IsSettled sched.now) self.old sights.old (F.outside files.old) self.new sights.new
            (F.outside files.new) result }
        ensures waiting { OnOk result ((n : ℕ) → Contains self.new.pending n → WaitsOn (IsSettled sched.now) sights.new.facts n) }
        ensures marked { OnOk result (AreMarked sights.new.marks self.new.members) }
    {
        self.take_settled(alloc, plan, sched, sights, files, notes)?;
        self.drop_settled(alloc, plan, sched, &sights.facts)?;
        Ok(())
    }

    /// Takes all members that can be taken.
    fn take_all<F: Files>(
        &mut self,
        alloc: Global,
        plan: &Plan,
        sched: &Sched,
        sights: &mut Sights,
        files: &mut F,
        notes: bool,
    ) -> Result<(), FilesStop>
        requires about { IsAbout plan.now.steps plan.now.roots sights.old.facts }
        requires schedule { IsOfPlan plan.now sched.now }
        requires in_order { IsInOrder plan.now.steps (IsSettled sched.now) sights.old.facts self.old }
        requires marked { AreMarked sights.old.marks self.old.members }
        ensures goes { Goes notes plan.now (IsSettled sched.now) self.old sights.old (F.outside files.old) self.new sights.new
            (F.outside files.new) result }
        ensures as_far { OnOk result (IsAsFar (IsSettled sched.now) sights.new.facts self.new) }
    {
        self.take_pending(alloc, plan, sched, sights, files, notes)?;
        self.take_rest(alloc, plan, sched, sights, files, notes)
    }

    /// Adds inputs of a step, each once.
    fn add_ins(&mut self, plan: &Plan, sights: &mut Sights, ins: &[Path]) -> Result<(), OutOfMemory>
        requires marked { AreMarked sights.old.marks self.old.members }
        requires numbered { (n : ℕ) → Contains self.old.members n → IsNumber sights.old.facts n }
        ensures sights { sights.new ≡ record sights.old { facts = sights.new.facts; marks = sights.new.marks } }
        ensures same { ChangesMembers self.old self.new }
        ensures numbered { (n : ℕ) → Contains self.new.members n → IsNumber sights.new.facts n }
        ensures adds { Adds (IsNumberOf sights.new.facts ins.now) self.old.members self.new.members }
        ensures whole { OnOk result ((path : Items ℕ) → Contains ins.now path
            → (n : ℕ) × Contains self.new.members n × (path_at sights.new.facts n ≡ Some path)) }
        ensures learns { Learns plan.now.steps plan.now.roots OfNone sights.old.facts sights.new.facts }
        ensures told { (now : Folder) → StaysTrue plan.now.steps plan.now.roots now sights.old.facts sights.new.facts }
    {
        for path in ins {
            let number = sights.facts.number_of(plan, path)?;
            self.add(&mut sights.marks, number)?;
        }
        Ok(())
    }

    /// Begins with the inputs of a step, of which none was taken. Nothing is asked of the host.
    pub fn open(
        alloc: Global,
        plan: &Plan,
        sights: &mut Sights,
        step: &Step,
    ) -> Result<Reach, OutOfMemory>
        ensures reach { IfOk result (IsReachOf plan.now.steps OfNone step.now sights.new.facts) }
        ensures untaken { IfOk result (λ reach. (reach.done ≡ 0) × (reach.pending ≡ [])) }
        ensures sights { sights.new ≡ record sights.old { facts = sights.new.facts; marks = sights.new.marks } }
        ensures learns { Learns plan.now.steps plan.now.roots OfNone sights.old.facts sights.new.facts }
        ensures told { (now : Folder) → StaysTrue plan.now.steps plan.now.roots now sights.old.facts sights.new.facts }
    {
        let list = sights.facts.list_number(alloc, step.dirs.as_slice())?;
        let mut reach = Reach::empty(alloc, list);
        sights.marks.begin();
        reach.add_ins(plan, sights, step.ins.as_slice())?;
        Ok(reach)
    }

    /// Takes in all members that can be: sources, and outputs of settled steps. Those that are scanned are read, unless what
    /// they include is known or the log tells it. Where `notes` is true, the line of each that is read is noted directly after
    /// the read; else the log stays as it is. Scanned outputs of other steps wait. Nothing is done where no member is to be
    /// taken. After an error the work is still in order.
    pub fn go_on<F: Files>(
        &mut self,
        alloc: Global,
        plan: &Plan,
        sched: &Sched,
        sights: &mut Sights,
        files: &mut F,
        notes: bool,
    ) -> Result<(), FilesStop>
        requires about { IsAbout plan.now.steps plan.now.roots sights.old.facts }
        requires schedule { IsOfPlan plan.now sched.now }
        requires in_order { IsInOrder plan.now.steps (IsSettled sched.now) sights.old.facts self.old }
        ensures in_order { IsInOrder plan.now.steps (IsSettled sched.now) sights.new.facts self.new }
        ensures of_step { (step : Step) → IsOfStep plan.now.steps (IsSettled sched.now) step sights.old.facts self.old
            → IsOfStep plan.now.steps (IsSettled sched.now) step sights.new.facts self.new }
        ensures gathers { Gathers plan.now.steps (IsSettled sched.now) sights.new.facts self.old self.new }
        ensures as_far { OnOk result (IsAsFar (IsSettled sched.now) sights.new.facts self.new) }
        ensures grows { LearnsMore notes plan.now.steps plan.now.roots (IsSettled sched.now) self.new.members sights.old
            (F.outside files.old) sights.new (F.outside files.new) result }
    {
        if !self.is_due(plan, sched, &sights.facts) {
            return Ok(());
        }
        self.mark_members(&mut sights.marks)?;
        self.take_all(alloc, plan, sched, sights, files, notes)
    }
}
