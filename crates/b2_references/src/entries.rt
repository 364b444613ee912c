//! The main targets of each project by their names.
ghost use Rattle.std.specs.Prelude.{◌≡◌, List, [], ◌∷◌, ◌++◌, ◌<◌, All, is_some, length, unwrap_or, IfOk, OnOk, if◌then◌else◌};
ghost use Rattle.std.specs.FinMap as map;
ghost use Rattle.b2_declared.specs.declared.place.Target.{Target as Main};
ghost use Rattle.b2_references.specs.Indexing.{AreEntries, HasOneMore, no_entry};

use crate::text_table::TextTable;
use b2_base::fault::OutOfMemory;
use b2_base::list::List;
use b2_base::text::Text;
use b2_base::text_list::TextList;
use b2_declared::place::Target;
use std::alloc::Global;

/// The main targets of a project: for each name the numbers of those with it, and the names in order of declaration.
#[derive(Drop)]
pub(crate) struct ProjectTargets {
    pub(crate) numbers: TextTable<List<usize>>,
    pub(crate) names: TextList,
}

impl ProjectTargets {
    fn new(alloc: Global) -> ProjectTargets
        ensures { result ≡ no_entry }
    {
        ProjectTargets {
            numbers: TextTable::new(alloc),
            names: TextList::new(alloc),
        }
    }

    /// Takes the numbers of a name out. A name that has none becomes the last one.
    fn take(&mut self, alloc: Global, name: &Text) -> Result<List<usize>, OutOfMemory>
        ensures taken { IfOk result (λ taken. taken ≡ unwrap_or (map.get self.old.numbers name.now) []) }
        ensures numbers { OnOk result (self.new.numbers ≡ map.insert self.old.numbers name.now []) }
        ensures names { OnOk result (self.new.names ≡ (if is_some (map.get self.old.numbers name.now) then self.old.names else self.old.names ++ name.now ∷ [])) }
    {
        match self.numbers.insert(name.copy()?, List::new(alloc))? {
            Some(numbers) => Ok(numbers),
            None => {
                self.names.push(name.copy()?)?;
                Ok(List::new(alloc))
            }
        }
    }

    fn add(&mut self, alloc: Global, name: &Text, number: usize) -> Result<(), OutOfMemory>
        ensures numbers { OnOk result (HasOneMore name.now number self.old.numbers self.new.numbers) }
        ensures names { OnOk result (self.new.names ≡ (if is_some (map.get self.old.numbers name.now) then self.old.names else self.old.names ++ name.now ∷ [])) }
    {
        let mut numbers = self.take(alloc, name)?;
        numbers.push(number)?;
        let _before = self.numbers.insert(name.copy()?, numbers)?;
        Ok(())
    }
}

fn empty_entries(alloc: Global, projects: usize) -> Result<Vec<ProjectTargets>, OutOfMemory>
    ensures none { IfOk result (λ made. AreEntries [] made.items) }
    ensures projects { IfOk result (λ made. length made.items ≡ projects) }
{
    let mut made = Vec::new(alloc);
    for project in 0..projects {
        made.push(ProjectTargets::new(alloc))?;
    }
    Ok(made)
}

fn add_target(
    alloc: Global,
    entries: &mut Vec<ProjectTargets>,
    target: &Target,
    number: usize,
) -> Result<(), OutOfMemory>
    requires { target.now.project < length entries.old.items }
    ensures added { (before : List Main) → number ≡ length before → AreEntries before entries.old.items → OnOk result (AreEntries (before ++ target.now ∷ []) entries.new.items) }
    ensures projects { length entries.new.items ≡ length entries.old.items }
{
    entries[target.project].add(alloc, &target.name, number)
}

/// The main targets of each of some projects.
pub(crate) fn entries_of(
    alloc: Global,
    projects: usize,
    targets: &[Target],
) -> Result<Vec<ProjectTargets>, OutOfMemory>
    requires { All (λ t. t.project < projects) targets.now }
    ensures entries { IfOk result (λ made. AreEntries targets.now made.items) }
    ensures projects { IfOk result (λ made. length made.items ≡ projects) }
{
    let mut made = empty_entries(alloc, projects)?;
    for (number, target) in targets.iter().enumerate() {
        add_target(alloc, &mut made, target, number)?;
    }
    Ok(made)
}
