//! Steps that join a plan, one after another.
ghost use Rattle.std.specs.Prelude.{◌≡◌, ◌↔◌, ℕ, suc, List, [], ◌∷◌, ◌++◌, ◌<◌, ◌≤◌, ◌⊎◌, length, map, false, None, IsTrue, IfOk, IfErr, IfSome, OnOk, OnErr};
ghost use Rattle.std.specs.List.{Contains, AllByRecursion};
ghost use Rattle.std.specs.Option.{option_copied};
ghost use Rattle.b2_base.specs.Normal.{IsNormal, IsUnder};
ghost use Rattle.b2_host.specs.FileCalls.{log_path};
ghost use Rattle.b2_virtual.specs.Joining.{stands_in, number_in, number_of, joined, AreDistinct};
ghost use Rattle.b2_virtual.specs.Clashes.{AreNested, Clashes, IsFirstClash, Fits, AreApart};
ghost use Rattle.b2_virtual.specs.Refusals.{IsOfNew, IsClashBy, IsTooManyBy, IsOfStep};
ghost use Rattle.b2_virtual.specs.Spots.{spot, AreOwnSpots};

use crate::fault::VirtualFault;
use crate::own_spots::OwnSpots;
use crate::same::is_same;
use crate::spot::{spot, spots};
use crate::spot_map::SpotMap;
use b2_base::fault::OutOfMemory;
use b2_base::path::Path;
use b2_base::text::Text;
use b2_plan::step::{Step, StepList};
use std::alloc::Global;
use std::marker::Model;

/// Steps that joined a plan, seen as the list of them in order. Their outputs are apart: no two steps share one, none is a
/// folder of another, and none is the log or below it.
pub struct Builder {
    alloc: Global,
    steps: StepList,
    numbers: SpotMap,
}

/// By hand, so that dropping one is one call.
impl Drop for Builder {
    fn drop(self) {
        let Builder {
            alloc: _,
            steps,
            numbers,
        } = self;
        drop(steps);
        drop(numbers);
    }
}

impl Model for Builder {
    ghost use Rattle.std.specs.Prelude.{List};
    ghost use Rattle.b2_plan.specs.declared.step.Step.{Step};
    ghost use Rattle.b2_virtual.specs.Ready.{IsReady};

    ghost Value = { List Step };

    ghost view = { λ b. b.steps };

    ghost invariant = { λ b. IsReady b.steps b.numbers };
}

/// Whether a path is the log or lies below it.
fn is_log(path: &Path) -> bool
    ensures log { IsTrue result ↔ ((path.now ≡ log_path) ⊎ IsUnder path.now log_path) }
    ensures normal { IsNormal path.now }
{
    let text = path.as_str();
    text == "bin/b2.log" || text.starts_with("bin/b2.log/")
}

/// Whether one of two paths is a folder of the other.
fn are_nested(path: &Path, other: &Path) -> bool
    ensures { IsTrue result ↔ AreNested path.now other.now }
{
    path.under(other) || other.under(path)
}

/// Whether a path is a folder of one of these, or lies in one of them.
fn is_nested(path: &Path, others: &[Path]) -> bool
    ensures { IsTrue result ↔ ((other : List ℕ) × Contains others.now other × AreNested path.now other) }
{
    for other in others {
        if are_nested(path, other) {
            return true;
        }
    }
    false
}

/// Whether an output of a step, whose spot is `place`, is nested with another one. Where there are spots to look it up in, it is
/// not compared with each.
fn is_nested_alone(step: &Step, out: &Path, place: &Text, own: &Option<OwnSpots>) -> bool
    requires place { place.now ≡ spot out.now }
    requires among { Contains step.now.outs out.now }
    requires normal { AllByRecursion IsNormal step.now.outs }
    requires own { IfSome own.now (λ o. AreOwnSpots (map spot step.now.outs) o.every o.outermost) }
    ensures { IsTrue result ↔ ((other : List ℕ) × Contains step.now.outs other × AreNested out.now other) }
{
    match own {
        None => is_nested(out, step.outs.as_slice()),
        Some(own) => own.is_nested(place),
    }
}

/// Whether an output of a step cannot stand, whatever the other steps are: it is the log or lies below it, or it and
/// another one are nested.
fn clashes_alone(step: &Step, out: &Path, place: &Text, own: &Option<OwnSpots>) -> bool
    requires place { place.now ≡ spot out.now }
    requires among { Contains step.now.outs out.now }
    requires normal { AllByRecursion IsNormal step.now.outs }
    requires own { IfSome own.now (λ o. AreOwnSpots (map spot step.now.outs) o.every o.outermost) }
    ensures clash { IsTrue result ↔ (((out.now ≡ log_path) ⊎ IsUnder out.now log_path) ⊎ ((other : List ℕ) × Contains step.now.outs other × AreNested out.now other)) }
    ensures normal { IsNormal out.now }
{
    is_log(out) || is_nested_alone(step, out, place, own)
}

/// The number of the first step that is equal, where there is one.
fn find_equal(steps: &[Step], step: &Step) -> Option<u32>
    requires { length steps.now ≤ 65536 }
    ensures { result ≡ number_of steps.now step.now }
{
    for (place, other) in steps.iter().enumerate() {
        if is_same(step, other) {
            return Some(place as u32 + 1);
        }
    }
    None
}

impl Builder {
    /// No steps; takes no memory.
    pub fn new(alloc: Global) -> Builder
        ensures { result ≡ [] }
    {
        let steps = StepList::new(alloc);
        let numbers = SpotMap::new(alloc);
        Builder {
            alloc,
            steps,
            numbers,
        }
    }

    /// The steps in order. The first has the number 1. Takes no memory.
    pub fn steps(&self) -> &[Step]
        ensures steps { result.now ≡ self.now }
        ensures few { length self.now ≤ 65536 }
    {
        self.steps.as_slice()
    }

    /// The steps in order, none of them twice; takes no memory. Where each of them has an output, each output lies under an
    /// output root, and `bin` is one, they are those of a plan.
    pub fn into_steps(self) -> StepList
        ensures steps { result ≡ self }
        ensures once { AreDistinct result }
        ensures apart { AreApart result }
        ensures few { length result ≤ 65536 }
    {
        let Builder {
            alloc: _,
            steps,
            numbers,
        } = self;
        drop(numbers);
        steps
    }

    /// The number of an equal step, by the spot of its first output.
    fn find_by_output(&self, step: &Step, first: &Text) -> Option<u32>
        requires { (out : List ℕ) × Contains step.now.outs out × (first.now ≡ spot out) }
        ensures { result ≡ number_of self.now step.now }
    {
        match self.numbers.get(first).copied() {
            None => None,
            Some(number) => {
                let other = &self.steps.as_slice()[number as usize - 1];
                if is_same(step, other) {
                    Some(number)
                } else {
                    None
                }
            }
        }
    }

    /// The number of an equal step. A step without outputs is compared with all steps.
    fn find(&self, step: &Step, spots: &[Text]) -> Option<u32>
        requires { spots.now ≡ map spot step.now.outs }
        ensures { result ≡ number_of self.now step.now }
    {
        match spots {
            [] => find_equal(self.steps.as_slice(), step),
            [first, ..] => self.find_by_output(step, first),
        }
    }

    /// Whether an output cannot stand; `place` is its spot.
    fn clashes(&self, step: &Step, out: &Path, place: &Text, own: &Option<OwnSpots>) -> bool
        requires place { place.now ≡ spot out.now }
        requires among { Contains step.now.outs out.now }
        requires normal { AllByRecursion IsNormal step.now.outs }
        requires own { IfSome own.now (λ o. AreOwnSpots (map spot step.now.outs) o.every o.outermost) }
        ensures { IsTrue result ↔ Clashes self.now step.now out.now }
    {
        if clashes_alone(step, out, place, own) {
            return true;
        }
        self.numbers.meets(place)
    }

    /// The first output of a step, in its order, that cannot stand beside the others.
    fn first_clash<'a>(
        &self,
        step: &'a Step,
        spots: &[Text],
        own: &Option<OwnSpots>,
    ) -> Option<&'a Path>
        requires spots { spots.now ≡ map spot step.now.outs }
        requires normal { AllByRecursion IsNormal step.now.outs }
        requires own { IfSome own.now (λ o. AreOwnSpots spots.now o.every o.outermost) }
        ensures clash { IfSome (option_copied result) (IsFirstClash self.now step.now) }
        ensures fits { option_copied result ≡ None → Fits self.now step.now }
    {
        let outs = step.outs.as_slice();
        for (place, out) in outs.iter().enumerate() {
            if self.clashes(step, out, &spots[place], own) {
                return Some(out);
            }
        }
        None
    }

    /// Whether a step that is none of those that stand may join them.
    fn check(&self, step: &Step, spots: &[Text]) -> Result<(), VirtualFault>
        requires spots { spots.now ≡ map spot step.now.outs }
        requires normal { AllByRecursion IsNormal step.now.outs }
        ensures fits { OnOk result (Fits self.now step.now) }
        ensures few { OnOk result (length self.now < 65536) }
        ensures clash { IfErr result (IsClashBy self.now step.now) }
        ensures too_many { IfErr result (IsTooManyBy self.now step.now) }
        ensures of_step { IfErr result IsOfStep }
    {
        let own = OwnSpots::of_many(self.alloc, spots)?;
        if let Some(path) = self.first_clash(step, spots, &own) {
            let path = path.copy()?;
            return Err(VirtualFault::PathClash { path });
        }
        if self.steps.as_slice().len() == 65536 {
            return Err(VirtualFault::TooManySteps { count: 65537 });
        }
        Ok(())
    }

    /// Adds a step that may join those that stand, and gives its number. After an error they are as before.
    fn push(&mut self, step: Step, spots: &[Text]) -> Result<u32, OutOfMemory>
        requires spots { spots.now ≡ map spot step.outs }
        requires new { stands_in self.old step ≡ false }
        requires fits { Fits self.old step }
        requires few { length self.old < 65536 }
        requires normal { AllByRecursion IsNormal step.outs }
        ensures ok { OnOk result (self.new ≡ self.old ++ step ∷ []) }
        ensures number { IfOk result (λ number. number ≡ suc (length self.old)) }
        ensures err { OnErr result (self.new ≡ self.old) }
    {
        let number = self.steps.as_slice().len() as u32 + 1;
        self.numbers.insert_all(spots, number)?;
        match self.steps.push(step) {
            Ok(()) => Ok(number),
            Err(fault) => {
                self.numbers.remove_all(spots);
                Err(fault)
            }
        }
    }

    /// Lets a step join the others, and gives its number. Where an equal step stands, its number is given and nothing
    /// changes. Else the step gets the next number, unless it is refused; then the steps are as before.
    ///
    /// `PathClash` comes exactly where one of its outputs cannot stand: another step has it, it is a folder of another
    /// output or lies in one, or it is the log or lies below it. It names the first such output in the step's order.
    /// `TooManySteps` comes exactly where the outputs can stand and there are 65,536 steps.
    ///
    /// Each output takes a few look-ups in ordered maps, so that n outputs take about n log n comparisons. Fewer than nine are
    /// compared with one another too, in place of look-ups among them that would take memory.
    pub fn add(&mut self, step: Step) -> Result<u32, VirtualFault>
        ensures number { IfOk result (λ number. number ≡ number_in self.old step) }
        ensures joined { OnOk result (self.new ≡ joined self.old step) }
        ensures fits { OnOk result (stands_in self.old step ≡ false → Fits self.old step) }
        ensures few { OnOk result (stands_in self.old step ≡ false → length self.old < 65536) }
        ensures new { IfErr result (IsOfNew self.old step) }
        ensures clash { IfErr result (IsClashBy self.old step) }
        ensures too_many { IfErr result (IsTooManyBy self.old step) }
        ensures of_step { IfErr result IsOfStep }
        ensures err { OnErr result (self.new ≡ self.old) }
    {
        let spots = spots(self.alloc, step.outs.as_slice())?;
        let equal = self.find(&step, spots.as_slice());
        if let Some(number) = equal {
            return Ok(number);
        }
        self.check(&step, spots.as_slice())?;
        Ok(self.push(step, spots.as_slice())?)
    }
}
