//! What files declare, with look-ups.
ghost use Rattle.std.specs.Prelude.{◌≡◌, ℕ, List, ◌<◌, Some, None, All, length, map, position, slice_get, IfOk, OnOk, if◌then◌else◌};
ghost use Rattle.std.specs.FinMap as finite;
ghost use Rattle.std.specs.Option.{option_copied, option_or};
ghost use Rattle.std.specs.Str.{bytes_eq};
ghost use Rattle.b2_references.specs.Indexing.{some_of, named_in, targets_in};
ghost use Rattle.b2_references.specs.Names.{numbers, is_target, first_names, name_of};
ghost use Rattle.b2_references.specs.References.{place_at, place_with};

use crate::entries::{ProjectTargets, entries_of};
use crate::text_table::TextTable;
use b2_base::fault::OutOfMemory;
use b2_base::list::List;
use b2_base::path::Path;
use b2_base::text::Text;
use b2_declared::place::Place;
use b2_declared::whole::Declared;
use std::alloc::Global;
use std::marker::Model;

/// What the files of a load declare, with look-ups; seen as what they declare. The places of projects, and the numbers of
/// main targets, are those among the declared ones, from 0.
pub struct Index<'a> {
    alloc: Global,
    declared: &'a Declared,
    dirs: TextTable<usize>,
    entries: Vec<ProjectTargets>,
}

/// By hand, so that dropping one is one call.
impl<'a> Drop for Index<'a> {
    fn drop(self) {
        let Index {
            alloc: _,
            declared: _,
            dirs,
            entries,
        } = self;
        drop(dirs);
        drop(entries);
    }
}

impl<'a> Model for Index<'a> {
    ghost use Rattle.b2_declared.specs.declared.whole.Declared.{Declared as Loaded};
    ghost use Rattle.b2_references.specs.Indexing.{IsIndexOf};

    ghost Value = { Loaded };

    ghost view = { λ i. i.declared.now };

    ghost invariant = { λ i. IsIndexOf i.declared.now i.dirs i.entries.items };
}

/// Gives a directory its place, where it has none yet.
fn add_dir(dirs: &mut TextTable<usize>, dir: &Path, place: usize) -> Result<(), OutOfMemory>
    ensures { OnOk result ((other : List ℕ) → finite.get dirs.new other ≡ option_or (finite.get dirs.old other) (if bytes_eq dir.now other then Some place else None)) }
{
    match dirs.get(dir.as_text()) {
        Some(_) => Ok(()),
        None => {
            let _before = dirs.insert(dir.as_text().copy()?, place)?;
            Ok(())
        }
    }
}

/// The place of the first project of each directory.
fn dirs_of(alloc: Global, places: &[Place]) -> Result<TextTable<usize>, OutOfMemory>
    ensures { IfOk result (λ made. (dir : List ℕ) → finite.get made dir ≡ position (λ p. bytes_eq p.dir dir) places.now) }
{
    let mut made = TextTable::new(alloc);
    for (place, project) in places.iter().enumerate() {
        add_dir(&mut made, &project.dir, place)?;
    }
    Ok(made)
}

/// The entry of a project, where it is there.
fn entry_at(entries: &[ProjectTargets], project: usize) -> Option<&ProjectTargets>
    ensures { option_copied result ≡ slice_get entries.now project }
{
    entries.get(project)
}

impl<'a> Index<'a> {
    /// The look-ups of what is declared. The project of each main target is there.
    pub fn new(alloc: Global, declared: &'a Declared) -> Result<Index<'a>, OutOfMemory>
        requires { All (λ t. t.project < length declared.now.places) declared.now.targets }
        ensures { IfOk result (λ made. made ≡ declared.now) }
    {
        let places = declared.places.as_slice();
        let dirs = dirs_of(alloc, places)?;
        let entries = entries_of(alloc, places.len(), declared.targets.as_slice())?;
        Ok(Index {
            alloc,
            declared,
            dirs,
            entries,
        })
    }

    pub(crate) fn alloc(&self) -> Global {
        self.alloc
    }

    /// All that is declared; takes no memory.
    pub fn declared(&self) -> &'a Declared
        ensures { result.now ≡ self.now }
    {
        self.declared
    }

    /// The place of the project of a directory; takes no memory.
    pub fn place_at(&self, dir: &Path) -> Option<usize>
        ensures { result ≡ place_at self.now dir.now }
    {
        self.dirs.get(dir.as_text()).copied()
    }

    /// The place of the project of an id, which begins with a slash; takes no memory.
    pub fn place_with(&self, id: &str) -> Option<usize>
        ensures { result ≡ place_with self.now id.now }
    {
        match self.declared.ids.dir_of(id) {
            None => None,
            Some(dir) => self.place_at(dir),
        }
    }

    fn numbers_of(&self, project: usize, name: &Text) -> Option<&List<usize>>
        ensures { option_copied result ≡ some_of (numbers self.now (project, name.now)) }
    {
        match entry_at(self.entries.as_slice(), project) {
            None => None,
            Some(entry) => entry.numbers.get(name),
        }
    }

    /// The numbers of the alternatives of a main target, in order; takes no memory.
    pub fn numbers(&self, project: usize, name: &Text) -> &[usize]
        ensures exact { result.now ≡ numbers self.now (project, name.now) }
        ensures within { All (λ number. number < length self.now.targets) result.now }
    {
        match self.numbers_of(project, name) {
            None => &[],
            Some(numbers) => numbers.as_slice(),
        }
    }

    /// The names of the main targets of a project, in order of declaration; takes no memory.
    pub(crate) fn names(&self, project: usize) -> &[Text]
        ensures { map (named_in project) result.now ≡ first_names (map name_of (targets_in project self.now.targets)) }
    {
        match entry_at(self.entries.as_slice(), project) {
            None => &[],
            Some(entry) => entry.names.as_slice(),
        }
    }

    /// Whether a project has a main target of a name; takes no memory.
    pub fn is_target(&self, project: usize, name: &Text) -> bool
        ensures { result ≡ is_target self.now (project, name.now) }
    {
        !self.numbers(project, name).is_empty()
    }
}
