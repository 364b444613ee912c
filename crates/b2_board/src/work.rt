//! The work on one step.
ghost use Rattle.std.specs.Prelude.{◌≡◌, ◌↔◌, ◌⊎◌, ◌+◌, ◌++◌, [], ℕ, List as Items, Some, length, option_to_list, ◌≤◌, IfOk, OnOk};
ghost use Rattle.std.specs.List.{Contains};
ghost use Rattle.b2_plan.specs.Plans.{step_at};
ghost use Rattle.b2_plan.specs.declared.step.Step.{Step};
ghost use Rattle.b2_sched.specs.Schedules.{IsStep, IsNeeded, IsSettled};
ghost use Rattle.b2_facts.specs.Facts.{IsAbout, IsNumber};
ghost use Rattle.b2_reach.specs.Reaches.{IsReachOf};
ghost use Rattle.b2_reach.specs.Sightings.{LearnsMore};
ghost use Rattle.b2_reach.specs.Steps.{IsOfPlan};
ghost use Rattle.b2_board.specs.Works.{HasOutputOf, IsWorkOn, TellsMakers, LooksOnce, IsClosedTold};
ghost use Rattle.b2_board.specs.Needs.{IsEven};

use crate::needs::tell_needs;
use crate::waiting::Waiting;
use b2_base::fault::OutOfMemory;
use b2_facts::facts::Facts;
use b2_facts::stop::FilesStop;
use b2_host::files::Files;
use b2_plan::plan::Plan;
use b2_reach::reach::Reach;
use b2_reach::sights::Sights;
use b2_sched::sched::Sched;
use std::alloc::Global;

/// The work on one step.
pub struct Work {
    /// What the step is known to read so far.
    pub reach: Reach,
    /// Of how many members, from the first on, the makers were told to the schedule.
    pub told: usize,
    /// The makers that were told and may not be settled yet.
    pub waiting: Waiting,
}

/// By hand, so that dropping one is one call.
impl Drop for Work {
    fn drop(self) {
        let Work {
            reach,
            told: _,
            waiting,
        } = self;
        drop(reach);
        drop(waiting);
    }
}

/// Adds a number, where there is one.
fn add(numbers: &mut Vec<u32>, number: Option<u32>) -> Result<(), OutOfMemory>
    ensures { OnOk result (numbers.new.items ≡ numbers.old.items ++ option_to_list number) }
{
    if let Some(number) = number {
        numbers.push(number)?;
    }
    Ok(())
}

/// The makers of these files, in their order.
fn all_makers(alloc: Global, facts: &Facts, numbers: &[u32]) -> Result<Vec<u32>, OutOfMemory>
    requires { (n : ℕ) → Contains numbers.now n → IsNumber facts.now n }
    ensures { IfOk result (λ makers. (k : ℕ) → Contains makers.items k ↔ HasOutputOf facts.now numbers.now k) }
{
    let mut makers = Vec::new(alloc);
    for number in numbers {
        add(&mut makers, facts.file(*number).maker)?;
    }
    Ok(makers)
}

/// The makers of these files, each once, in rising order.
fn makers_of(alloc: Global, facts: &Facts, numbers: &[u32]) -> Result<Vec<u32>, OutOfMemory>
    requires { (n : ℕ) → Contains numbers.now n → IsNumber facts.now n }
    ensures { IfOk result (λ makers. (k : ℕ) → Contains makers.items k ↔ HasOutputOf facts.now numbers.now k) }
{
    let mut makers = all_makers(alloc, facts, numbers)?;
    makers.sort()?;
    makers.dedup();
    Ok(makers)
}

impl Work {
    /// Begins with what a step is known to read; takes no memory.
    pub fn new(alloc: Global, reach: Reach) -> Work
        ensures { (result.reach ≡ reach) × (result.told ≡ 0) × (result.waiting ≡ []) }
    {
        Work {
            reach,
            told: 0,
            waiting: Waiting::new(alloc),
        }
    }

    /// Tells the schedule the makers of the members that it was not told yet, as far as they are not settled.
    fn tell(
        &mut self,
        alloc: Global,
        sched: &mut Sched,
        facts: &Facts,
        number: u32,
    ) -> Result<(), OutOfMemory>
        requires numbers { (n : ℕ) → Contains self.old.reach.members n → IsNumber facts.now n }
        requires steps { (k : ℕ) → HasOutputOf facts.now self.old.reach.members k → IsStep sched.old k }
        requires within { self.old.told ≤ length self.old.reach.members }
        requires needed { IsNeeded sched.old number }
        requires even { IsEven sched.old }
        ensures reach { self.new.reach ≡ self.old.reach }
        ensures tells { OnOk result (TellsMakers facts.now number self.old sched.old self.new sched.new) }
    {
        let members = self.reach.members.as_slice();
        if self.told == members.len() {
            return Ok(());
        }
        let makers = makers_of(alloc, facts, &members[self.told..])?;
        tell_needs(sched, number, makers.as_slice())?;
        self.waiting.extend(makers.as_slice())?;
        self.told = self.reach.members.as_slice().len();
        Ok(())
    }

    /// Goes on as far as files are settled, and tells the schedule what the step needs and whether it lacks a file. Where `notes`
    /// is true, the line of each file that is read is noted. Answers whether all that the step reads is settled. After an error the
    /// work is still in order.
    pub fn look<F: Files>(
        &mut self,
        alloc: Global,
        plan: &Plan,
        sched: &mut Sched,
        sights: &mut Sights,
        files: &mut F,
        number: u32,
        notes: bool,
    ) -> Result<bool, FilesStop>
        requires about { IsAbout plan.now.steps plan.now.roots sights.old.facts }
        requires schedule { IsOfPlan plan.now sched.old }
        requires even { IsEven sched.old }
        requires needed { IsNeeded sched.old number }
        requires work { IsWorkOn plan.now.steps sched.old sights.old.facts number self.old }
        ensures reach { (step : Step) → step_at plan.now.steps number ≡ Some step
            → IsReachOf plan.now.steps (IsSettled sched.old) step sights.new.facts self.new.reach }
        ensures grows { LearnsMore notes plan.now.steps plan.now.roots (IsSettled sched.old) self.new.reach.members
            sights.old (F.outside files.old) sights.new (F.outside files.new) result }
        ensures keeps { (n : ℕ) → Contains self.old.reach.members n → Contains self.new.reach.members n }
        ensures looks { OnOk result (LooksOnce plan.now.steps sights.new.facts number sched.old sched.new self.new) }
        ensures closed { IfOk result (λ closed. IsClosedTold closed sched.new sights.new.facts number self.new) }
    {
        self.reach.go_on(alloc, plan, sched, sights, files, notes)?;
        self.tell(alloc, sched, &sights.facts, number)?;
        if self.reach.lacks {
            sched.lack(number);
            return Ok(false);
        }
        Ok(self.waiting.is_over(sched))
    }
}
