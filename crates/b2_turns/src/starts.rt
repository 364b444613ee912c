//! How a step is taken that is to start.
ghost use Rattle.std.specs.Prelude.{◌≡◌, ◌<◌, [], ◌∷◌, ◌++◌, ℕ, List as Items, Some, None, MatchOption, length};
ghost use Rattle.std.specs.Option.{IfSome, IfNone};
ghost use Rattle.std.specs.List.{Contains};
ghost use Rattle.b2_host.specs.declared.children.ChildEvent.{ChildEvent};
ghost use Rattle.b2_host.specs.declared.children.ChildEvent.TheVariants.{Start};
ghost use Rattle.b2_plan.specs.Plans.{Apart};
ghost use Rattle.b2_sched.specs.SchedulerCalls.{StartsNext, StartsNone};
ghost use Rattle.b2_facts.specs.declared.file_facts.FileFacts.{FileFacts};
ghost use Rattle.b2_facts.specs.Facts.{IsNumber, IsAbout, file_at};
ghost use Rattle.b2_verdicts.specs.declared.step_numbers.StepNumbers.{StepNumbers};
ghost use Rattle.b2_looks.specs.Looks.{AreLooks, Follows, ready_at};
ghost use Rattle.b2_turns.specs.Starts.{HasForgotten, Begins};

use b2_facts::facts::Facts;
use b2_looks::looks::Looks;
use b2_plan::plan::Plan;
use b2_reach::sights::Sights;

/// Forgets what was seen of these files, and their digests. What they include is not known.
fn forget_all(facts: &mut Facts, numbers: &[u32])
    requires numbered { (n : ℕ) → Contains numbers.now n → IsNumber facts.old n }
    requires unread { (n : ℕ) (file : FileFacts) → Contains numbers.now n → file_at facts.old n ≡ Some file
        → file.includes ≡ None }
    ensures { HasForgotten numbers.now facts.old facts.new }
{
    for number in numbers {
        facts.forget(*number);
    }
}

/// Forgets what was seen of the outputs of a step whose files are at hand.
fn forget_outs(looks: &Looks, sights: &mut Sights, number: u32)
    requires within { number < length looks.now.ready.items }
    requires kept { (numbers : StepNumbers) × (ready_at looks.now number ≡ Some numbers) }
    requires numbered { (numbers : StepNumbers) (n : ℕ) → ready_at looks.now number ≡ Some numbers
        → Contains numbers.outs n → IsNumber sights.old.facts n }
    requires unread { (numbers : StepNumbers) (n : ℕ) (file : FileFacts) → ready_at looks.now number ≡ Some numbers
        → Contains numbers.outs n → file_at sights.old.facts n ≡ Some file → file.includes ≡ None }
    ensures facts { (numbers : StepNumbers) → ready_at looks.now number ≡ Some numbers
        → HasForgotten numbers.outs sights.old.facts sights.new.facts }
    ensures sights { sights.new ≡ record sights.old { facts = sights.new.facts } }
{
    match &looks.ready[number as usize] {
        Some(numbers) => forget_all(&mut sights.facts, numbers.outs.as_slice()),
        None => unreachable!(),
    }
}

/// Takes the lowest step that was judged stale and not started: from now on it runs, and what was seen of its outputs is
/// forgotten. None where there is no such step, or as many steps run as may. Takes no memory.
pub fn take_start(_plan: &Plan, looks: &mut Looks, sights: &mut Sights) -> Option<u32>
    requires apart { Apart _plan.now.steps _plan.now.roots }
    requires about { IsAbout _plan.now.steps _plan.now.roots sights.old.facts }
    requires looks { AreLooks _plan.now 0 sights.old.facts looks.old }
    ensures lowest { MatchOption result (StartsNone looks.old.board.sched) (StartsNext looks.old.board.sched) }
    ensures none { IfNone result ((looks.new ≡ looks.old) × (sights.new ≡ sights.old)) }
    ensures begins { IfSome result (λ number. Begins number looks.old sights.old looks.new sights.new) }
    ensures about { IsAbout _plan.now.steps _plan.now.roots sights.new.facts }
    ensures looks { AreLooks _plan.now 0 sights.new.facts looks.new }
    ensures follows { IfSome result (λ number. (events : Items ChildEvent) → Follows events looks.old
        → Follows (events ++ Start number ∷ []) looks.new) }
{
    let number = looks.board.take_start()?;
    forget_outs(looks, sights, number);
    Some(number)
}
