//! Which tests passed.
ghost use Rattle.std.specs.Prelude.{◌≡◌, ◌↔◌, ◌+◌, ℕ, List as Items, [], ◌∷◌, ◌++◌, IfOk, IsTrue, OnOk, length, map, slice_index_or};
ghost use Rattle.std.specs.List.{AllZip, Contains};
ghost use Rattle.b2_endings.specs.Endings.{lists_of};
ghost use Rattle.b2_plan.specs.Plans.{Apart, maker_of};
ghost use Rattle.b2_plan.specs.declared.step.Step.{Step as Steps};
ghost use Rattle.b2_sched.specs.NumberSets.{Has};
ghost use Rattle.b2_update.specs.Answers.{answer_of};
ghost use Rattle.b2_testing.specs.Verdicts.{HasEnded, ArePassed, IsJudgedBy};
ghost use Rattle.b2_testing.specs.Leading.{AreMarks, HasNeeds, AreDependents, needed_too, IsJudgeOf};

use crate::verdict::Verdict;
use b2_base::fault::OutOfMemory;
use b2_base::list::List;
use b2_base::path::Path;
use b2_base::text::Text;
use b2_endings::failed_lists::FailedLists;
use b2_plan::plan::Plan;
use b2_sched::reach::reached;
use b2_update::update_answer::UpdateAnswer;
use std::alloc::Global;

/// For each number below a size whether it is among some numbers, and those that are below it.
#[derive(Drop)]
struct MarkedNumbers {
    flags: Vec<bool>,
    numbers: Vec<u32>,
}

impl MarkedNumbers {
    /// Marks a number, if it is below the size.
    fn mark(&mut self, number: u32) -> Result<(), OutOfMemory>
        ensures { OnOk result ((size : ℕ) (numbers : Items ℕ) → AreMarks size numbers self.old → AreMarks size (numbers ++ number ∷ []) self.new) }
    {
        let place = number as usize;
        if place < self.flags.len() {
            self.flags[place] = true;
            self.numbers.push(number)?;
        }
        Ok(())
    }
}

/// Marks the numbers that are below a size.
fn marks_of(alloc: Global, size: usize, numbers: &[u32]) -> Result<MarkedNumbers, OutOfMemory>
    ensures { IfOk result (AreMarks size numbers.now) }
{
    let flags = vec![in alloc; false; size]?;
    let mut marks = MarkedNumbers {
        flags,
        numbers: Vec::new(alloc),
    };
    for number in numbers {
        marks.mark(*number)?;
    }
    Ok(marks)
}

/// Whether a number is among some that are not marked.
fn is_listed(numbers: &[u32], number: u32) -> bool
    ensures { IsTrue result ↔ Contains numbers.now number }
{
    for other in numbers {
        if *other == number {
            return true;
        }
    }
    false
}

/// Whether a number is among some, by their marks where it is below their count.
fn is_in(marks: &MarkedNumbers, numbers: &[u32], number: u32) -> bool
    ensures { (size : ℕ) → AreMarks size numbers.now marks.now → IsTrue result ↔ Contains numbers.now number }
{
    match marks.flags.get(number as usize) {
        Some(flag) => *flag,
        None => is_listed(numbers, number),
    }
}

/// For each number below a size no dependents yet.
fn no_dependents(alloc: Global, size: usize) -> Result<Vec<List<u32>>, OutOfMemory>
    ensures size { IfOk result (λ lists. length lists.items ≡ size) }
    ensures none { IfOk result (λ lists. (k : ℕ) → slice_index_or lists.items k [] ≡ []) }
{
    let mut lists = Vec::new(alloc);
    for _number in 0..size {
        lists.push(List::new(alloc))?;
    }
    Ok(lists)
}

/// Tells that a step needs the maker of a path, if there is one.
fn add_need(
    plan: &Plan,
    number: u32,
    path: &Path,
    dependents: &mut Vec<List<u32>>,
) -> Result<(), OutOfMemory>
    requires { length dependents.old.items ≡ length plan.now.steps + 1 }
    ensures { OnOk result (dependents.new.items ≡ needed_too (maker_of plan.now.steps path.now) number dependents.old.items) }
{
    match plan.maker(path) {
        Some(maker) => {
            let list = &mut dependents[maker as usize];
            list.push(number)?;
        }
        None => (),
    }
    Ok(())
}

/// Tells that a step needs the makers of its inputs.
fn add_needs(
    plan: &Plan,
    number: u32,
    ins: &[Path],
    dependents: &mut Vec<List<u32>>,
) -> Result<(), OutOfMemory>
    requires { length dependents.old.items ≡ length plan.now.steps + 1 }
    ensures { OnOk result (HasNeeds plan.now.steps number ins.now dependents.old.items dependents.new.items) }
{
    for path in ins {
        add_need(plan, number, path, dependents)?;
    }
    Ok(())
}

/// For each step those that have an output of it among their declared inputs.
fn dependents_of(alloc: Global, plan: &Plan) -> Result<Vec<List<u32>>, OutOfMemory>
    requires { Apart plan.now.steps plan.now.roots }
    ensures { IfOk result (λ made. AreDependents plan.now.steps made.items) }
{
    let steps = plan.steps.as_slice();
    let mut dependents = no_dependents(alloc, steps.len() + 1)?;
    for (place, step) in steps.iter().enumerate() {
        add_needs(plan, place as u32 + 1, step.ins.as_slice(), &mut dependents)?;
    }
    Ok(dependents)
}

/// Which steps failed and were skipped, and which lead to a failed one.
#[derive(Drop)]
struct Judge<'a> {
    lists: &'a FailedLists,
    failed: MarkedNumbers,
    skipped: MarkedNumbers,
    led: Vec<bool>,
}

impl<'a> Judge<'a> {
    fn new(alloc: Global, plan: &Plan, lists: &'a FailedLists) -> Result<Judge<'a>, OutOfMemory>
        requires { Apart plan.now.steps plan.now.roots }
        ensures { IfOk result (IsJudgeOf plan.now.steps lists.now) }
    {
        let size = plan.steps.as_slice().len() + 1;
        let failed = marks_of(alloc, size, lists.failed.as_slice())?;
        let skipped = marks_of(alloc, size, lists.skipped.as_slice())?;
        let dependents = dependents_of(alloc, plan)?;
        let led = reached(alloc, failed.numbers.as_slice(), dependents.as_slice())?;
        Ok(Judge {
            lists,
            failed,
            skipped,
            led,
        })
    }

    /// Whether a step leads to one that failed.
    fn leads(&self, number: u32) -> bool
        ensures { IsTrue result ↔ Has self.now.led.items number }
    {
        match self.led.get(number as usize) {
            Some(flag) => *flag,
            None => false,
        }
    }

    /// The verdict of a marker's step.
    fn verdict(&self, number: u32) -> Verdict
        ensures { (steps : Items Steps) → IsJudgeOf steps self.now.lists.now self.now → IsJudgedBy steps (lists_of self.now.lists.now) number result }
    {
        if is_in(&self.failed, self.lists.failed.as_slice(), number) {
            return Verdict::Failed;
        }
        if !is_in(&self.skipped, self.lists.skipped.as_slice(), number) {
            return Verdict::Passed;
        }
        if self.leads(number) {
            Verdict::Failed
        } else {
            Verdict::NotRun
        }
    }
}

/// The verdicts after an update in which something failed.
fn judged(
    alloc: Global,
    plan: &Plan,
    tests: &[(Text, u32)],
    lists: &FailedLists,
) -> Result<Vec<Verdict>, OutOfMemory>
    requires { Apart plan.now.steps plan.now.roots }
    ensures { IfOk result (λ verdicts. AllZip (IsJudgedBy plan.now.steps (lists_of lists.now)) (map (λ test. test.1) tests.now) verdicts.items) }
{
    let judge = Judge::new(alloc, plan, lists)?;
    let mut verdicts = Vec::new(alloc);
    for test in tests {
        verdicts.push(judge.verdict(test.1))?;
    }
    Ok(verdicts)
}

/// As many verdicts as there are tests, all of which passed.
fn all_passed(alloc: Global, tests: &[(Text, u32)]) -> Result<Vec<Verdict>, OutOfMemory>
    ensures { IfOk result (λ verdicts. verdicts.items ≡ map (λ _. Verdict.Passed) tests.now) }
{
    let mut verdicts = Vec::new(alloc);
    for _test in tests {
        verdicts.push(Verdict::Passed)?;
    }
    Ok(verdicts)
}

/// The verdict of each test that was requested, given as its marker's main target and the number of the step that makes the
/// marker, in order; for an update of this plan that came to its end.
pub fn pass_list(
    alloc: Global,
    plan: &Plan,
    tests: &[(Text, u32)],
    answer: &UpdateAnswer,
) -> Result<Vec<Verdict>, OutOfMemory>
    requires ended { HasEnded (answer_of answer.now) }
    requires apart { Apart plan.now.steps plan.now.roots }
    ensures { IfOk result (λ verdicts. ArePassed plan.now.steps (answer_of answer.now) (map (λ test. test.1) tests.now) verdicts.items) }
{
    match answer {
        UpdateAnswer::Failed(lists) => judged(alloc, plan, tests, lists),
        _ => all_passed(alloc, tests),
    }
}
