//! The files of a step by their numbers.
ghost use Rattle.std.specs.Prelude.{◌≡◌, ◌≢◌, ◌↔◌, ℕ, ◌<◌, ◌+◌, [], ◌∷◌, ◌++◌, Some, length, map, All, IfOk, OnOk, IsTrue, if◌then◌else◌};
ghost use Rattle.std.specs.List.{Contains, AllZip, AllPairs, filter};
ghost use Rattle.std.specs.List.Sorted.{IsPermutation, IsSortedBy};
ghost use Rattle.b2_host.specs.Disks.{Folder};
ghost use Rattle.b2_paths.specs.PathTables.{AreDistinct};
ghost use Rattle.b2_plan.specs.declared.step.Step.{Step};
ghost use Rattle.b2_facts.specs.declared.file_facts.FileFacts.{FileFacts};
ghost use Rattle.b2_facts.specs.Facts.{IsAbout, IsNumber, path_at, file_at};
ghost use Rattle.b2_facts.specs.Growth.{Learns, OfNone};
ghost use Rattle.b2_facts.specs.Truth.{StaysTrue};
ghost use Rattle.b2_verdicts.specs.Made.{AreRising};
ghost use Rattle.b2_looks.specs.Numbers.{number_in, is_before, HasPath, has_bytes, IsOfDone, IsOneOf, HasNoBytes, AreNumbersBy};

use b2_base::fault::OutOfMemory;
use b2_base::list::List;
use b2_base::path::Path;
use b2_facts::facts::Facts;
use b2_plan::plan::Plan;
use b2_plan::step::Step;
use b2_verdicts::step_numbers::StepNumbers;
use std::alloc::Global;

/// The numbers of these paths, in their order.
fn numbers_of(
    alloc: Global,
    plan: &Plan,
    facts: &mut Facts,
    paths: &[Path],
) -> Result<List<u32>, OutOfMemory>
    ensures named { IfOk result (λ numbers. AllZip (λ n path. path_at facts.new n ≡ Some path) numbers paths.now) }
    ensures learns { Learns plan.now.steps plan.now.roots OfNone facts.old facts.new }
    ensures told { (now : Folder) → StaysTrue plan.now.steps plan.now.roots now facts.old facts.new }
{
    let mut numbers = List::new(alloc);
    for path in paths {
        let number = facts.number_of(plan, path)?;
        numbers.push(number)?;
    }
    Ok(numbers)
}

/// Whether a file has bytes once it is settled: it is none of a notfile step.
fn has_bytes(plan: &Plan, facts: &Facts, number: u32) -> bool
    requires about { IsAbout plan.now.steps plan.now.roots facts.now }
    requires number { IsNumber facts.now number }
    ensures { result ≡ has_bytes plan.now.steps facts.now number }
{
    match facts.file(number).maker {
        None => true,
        Some(maker) => !plan.steps.as_slice()[maker as usize - 1].notfile,
    }
}

/// Whether a file is an output of a step that is done.
fn is_of_done(ran: &[bool], facts: &Facts, number: u32) -> bool
    requires number { IsNumber facts.now number }
    requires maker { (file : FileFacts) (maker : ℕ) → file_at facts.now number ≡ Some file → file.maker ≡ Some maker
        → maker < length ran.now }
    ensures { IsTrue result ↔ IsOfDone facts.now ran.now number }
{
    match facts.file(number).maker {
        None => false,
        Some(maker) => ran[maker as usize],
    }
}

/// The number of a file, with its path.
#[derive(Drop)]
struct NumberedPath<'a> {
    path: &'a Path,
    number: u32,
}

/// These numbers with their paths, in their order.
fn with_paths<'a>(
    alloc: Global,
    facts: &'a Facts,
    members: &[u32],
) -> Result<Vec<NumberedPath<'a>>, OutOfMemory>
    requires { (n : ℕ) → Contains members.now n → IsNumber facts.now n }
    ensures numbers { IfOk result (λ named. map number_in named.items ≡ members.now) }
    ensures paths { IfOk result (λ named. All (HasPath facts.now) named.items) }
{
    let mut named = Vec::new(alloc);
    for number in members {
        named.push(NumberedPath {
            path: facts.path(*number),
            number: *number,
        })?;
    }
    Ok(named)
}

/// These numbers with their paths, in byte order of path.
fn by_path<'a>(
    alloc: Global,
    facts: &'a Facts,
    members: &[u32],
) -> Result<Vec<NumberedPath<'a>>, OutOfMemory>
    requires { (n : ℕ) → Contains members.now n → IsNumber facts.now n }
    ensures numbers { IfOk result (λ named. IsPermutation members.now (map number_in named.items)) }
    ensures paths { IfOk result (λ named. All (HasPath facts.now) named.items) }
    ensures sorted { IfOk result (λ named. IsSortedBy is_before named.items) }
{
    let mut named = with_paths(alloc, facts, members)?;
    named.sort_by(|one, other| one.path.cmp(other.path))?;
    Ok(named)
}

/// The numbers alone, in their order.
fn numbers_in(alloc: Global, named: &[NumberedPath]) -> Result<Vec<u32>, OutOfMemory>
    ensures { IfOk result (λ numbers. numbers.items ≡ map number_in named.now) }
{
    let mut numbers = Vec::new(alloc);
    for one in named {
        numbers.push(one.number)?;
    }
    Ok(numbers)
}

/// These numbers, in byte order of path.
fn in_order(alloc: Global, facts: &Facts, members: &[u32]) -> Result<Vec<u32>, OutOfMemory>
    requires numbers { (n : ℕ) → Contains members.now n → IsNumber facts.now n }
    requires distinct { AllPairs (λ n m. n ≢ m) members.now }
    requires paths { AreDistinct facts.now.paths }
    ensures same { IfOk result (λ order. (n : ℕ) → Contains order.items n ↔ Contains members.now n) }
    ensures rising { IfOk result (λ order. AreRising facts.now order.items) }
{
    let named = by_path(alloc, facts, members)?;
    numbers_in(alloc, named.as_slice())
}

/// Adds a number at the end, where it is to be added.
fn push_if(numbers: &mut List<u32>, number: u32, added: bool) -> Result<(), OutOfMemory>
    ensures { OnOk result (numbers.new ≡ (if added then numbers.old ++ number ∷ [] else numbers.old)) }
{
    if added {
        numbers.push(number)?;
    }
    Ok(())
}

/// Those of these files that have bytes, in their order.
fn with_bytes(
    alloc: Global,
    plan: &Plan,
    facts: &Facts,
    order: &[u32],
) -> Result<List<u32>, OutOfMemory>
    requires about { IsAbout plan.now.steps plan.now.roots facts.now }
    requires numbers { (n : ℕ) → Contains order.now n → IsNumber facts.now n }
    ensures { IfOk result (λ ins. ins ≡ filter (has_bytes plan.now.steps facts.now) order.now) }
{
    let mut ins = List::new(alloc);
    for number in order {
        push_if(&mut ins, *number, has_bytes(plan, facts, *number))?;
    }
    Ok(ins)
}

/// A member that has no bytes, where there is one.
fn first_without(plan: &Plan, facts: &Facts, members: &[u32]) -> Option<u32>
    requires about { IsAbout plan.now.steps plan.now.roots facts.now }
    requires numbers { (n : ℕ) → Contains members.now n → IsNumber facts.now n }
    ensures { IsOneOf (HasNoBytes plan.now.steps facts.now) members.now result }
{
    for number in members {
        if !has_bytes(plan, facts, *number) {
            return Some(*number);
        }
    }
    None
}

/// A member that is an output of a step that is done, where there is one.
fn first_done(ran: &[bool], facts: &Facts, members: &[u32]) -> Option<u32>
    requires numbers { (n : ℕ) → Contains members.now n → IsNumber facts.now n }
    requires makers { (n maker : ℕ) (file : FileFacts) → Contains members.now n → file_at facts.now n ≡ Some file
        → file.maker ≡ Some maker → maker < length ran.now }
    ensures { IsOneOf (IsOfDone facts.now ran.now) members.now result }
{
    for number in members {
        if is_of_done(ran, facts, *number) {
            return Some(*number);
        }
    }
    None
}

/// The numbers of a step's files: its outputs, and those of its members that have bytes, in byte order of path. `ran`
/// tells which steps are done.
pub fn step_numbers(
    alloc: Global,
    plan: &Plan,
    ran: &[bool],
    facts: &mut Facts,
    step: &Step,
    members: &[u32],
) -> Result<StepNumbers, OutOfMemory>
    requires about { IsAbout plan.now.steps plan.now.roots facts.old }
    requires numbers { (n : ℕ) → Contains members.now n → IsNumber facts.old n }
    requires distinct { AllPairs (λ n m. n ≢ m) members.now }
    requires ran_size { length ran.now ≡ length plan.now.steps + 1 }
    ensures numbers { IfOk result (AreNumbersBy plan.now.steps ran.now facts.new step.now members.now) }
    ensures learns { Learns plan.now.steps plan.now.roots OfNone facts.old facts.new }
    ensures told { (now : Folder) → StaysTrue plan.now.steps plan.now.roots now facts.old facts.new }
{
    let outs = numbers_of(alloc, plan, facts, step.outs.as_slice())?;
    let order = in_order(alloc, facts, members)?;
    let ins = with_bytes(alloc, plan, facts, order.as_slice())?;
    Ok(StepNumbers {
        outs,
        ins,
        notfile: first_without(plan, facts, members),
        done: first_done(ran, facts, members),
    })
}
