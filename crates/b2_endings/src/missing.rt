//! Which files are missing.
ghost use Rattle.std.specs.Prelude.{◌≡◌, ◌<◌, ◌⊎◌, ℕ, List, [], ◌∷◌, length, IfOk, OnOk};
ghost use Rattle.std.specs.List.{Contains, AllPairs};
ghost use Rattle.b2_base.specs.Bytes.{Before};
ghost use Rattle.b2_plan.specs.declared.step.Step.{Step};
ghost use Rattle.b2_facts.specs.Facts.{IsNumber};
ghost use Rattle.b2_board.specs.Boards.{work_at};
ghost use Rattle.b2_endings.specs.Missing.{AsksFiles, ListsMissing, IsPathOf, IsOfLacking, lacking_in};

use crate::distinct::distinct;
use b2_base::path::Path;
use b2_base::path_list::PathList;
use b2_board::work::Work;
use b2_facts::facts::Facts;
use b2_facts::stop::FilesStop;
use b2_host::files::Files;
use b2_plan::plan::Plan;
use std::alloc::Global;

/// Adds the path of a file, where it is missing: no step makes it, and it is no source.
fn add_missing<F: Files>(
    facts: &mut Facts,
    files: &mut F,
    number: u32,
    missing: &mut PathList,
) -> Result<(), FilesStop>
    requires number { IsNumber facts.old number }
    ensures asks { (steps : List Step) (roots : List (List ℕ))
        → AsksFiles steps roots facts.old (F.outside files.old) facts.new (F.outside files.new) result }
    ensures lists { OnOk result (ListsMissing (IsPathOf facts.old (number ∷ [])) facts.new missing.old missing.new) }
{
    if facts.is_given(files, number)? {
        return Ok(());
    }
    missing.push(facts.path(number).copy()?)?;
    Ok(())
}

/// Adds the paths of those members that are missing.
fn add_members<F: Files>(
    facts: &mut Facts,
    files: &mut F,
    members: &[u32],
    missing: &mut PathList,
) -> Result<(), FilesStop>
    requires numbered { (n : ℕ) → Contains members.now n → IsNumber facts.old n }
    ensures asks { (steps : List Step) (roots : List (List ℕ))
        → AsksFiles steps roots facts.old (F.outside files.old) facts.new (F.outside files.new) result }
    ensures lists { OnOk result (ListsMissing (IsPathOf facts.old members.now) facts.new missing.old missing.new) }
{
    for number in members {
        add_missing(facts, files, *number, missing)?;
    }
    Ok(())
}

/// The numbers of a step's members, where it lacks a file.
fn lacking(work: &Option<Work>) -> &[u32]
    ensures { result.now ≡ lacking_in work.now }
{
    match work {
        None => &[],
        Some(work) => {
            if work.reach.lacks {
                work.reach.members.as_slice()
            } else {
                &[]
            }
        }
    }
}

/// Adds the paths of those members that are missing, of steps with these numbers that lack some.
fn add_lacking<F: Files>(
    facts: &mut Facts,
    files: &mut F,
    works: &[Option<Work>],
    numbers: &[u32],
    missing: &mut PathList,
) -> Result<(), FilesStop>
    requires within { (i : ℕ) → Contains numbers.now i → i < length works.now }
    requires numbered { (i n : ℕ) → Contains (lacking_in (work_at works.now i)) n → IsNumber facts.old n }
    ensures asks { (steps : List Step) (roots : List (List ℕ))
        → AsksFiles steps roots facts.old (F.outside files.old) facts.new (F.outside files.new) result }
    ensures lists { OnOk result
        (ListsMissing (IsOfLacking facts.old works.now numbers.now) facts.new missing.old missing.new) }
{
    for number in numbers {
        let members = lacking(&works[*number as usize]);
        add_members(facts, files, members, missing)?;
    }
    Ok(())
}

/// Adds those paths that are missing.
fn add_paths<F: Files>(
    plan: &Plan,
    facts: &mut Facts,
    files: &mut F,
    paths: &[Path],
    missing: &mut PathList,
) -> Result<(), FilesStop>
    ensures asks { AsksFiles plan.now.steps plan.now.roots facts.old (F.outside files.old) facts.new
        (F.outside files.new) result }
    ensures lists { OnOk result (ListsMissing (Contains paths.now) facts.new missing.old missing.new) }
{
    for path in paths {
        let number = facts.number_of(plan, path)?;
        add_missing(facts, files, number, missing)?;
    }
    Ok(())
}

/// The missing files: of the wanted ones, and of what steps with these numbers are known to read that lack some. Each
/// is listed once, in byte order.
pub fn missing_files<F: Files>(
    alloc: Global,
    plan: &Plan,
    works: &[Option<Work>],
    numbers: &[u32],
    facts: &mut Facts,
    files: &mut F,
) -> Result<PathList, FilesStop>
    requires within { (i : ℕ) → Contains numbers.now i → i < length works.now }
    requires numbered { (i n : ℕ) → Contains (lacking_in (work_at works.now i)) n → IsNumber facts.old n }
    ensures asks { AsksFiles plan.now.steps plan.now.roots facts.old (F.outside files.old) facts.new
        (F.outside files.new) result }
    ensures rising { IfOk result (AllPairs Before) }
    ensures lists { IfOk result (ListsMissing
        (λ path. IsOfLacking facts.old works.now numbers.now path ⊎ Contains plan.now.wanted path) facts.new []) }
{
    let mut missing = PathList::new(alloc);
    add_lacking(facts, files, works, numbers, &mut missing)?;
    add_paths(plan, facts, files, plan.wanted.as_slice(), &mut missing)?;
    Ok(distinct(alloc, missing.as_slice())?)
}
