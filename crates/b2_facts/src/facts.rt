//! What is known of files.
use crate::file_facts::{FileFacts, FileLook};
use crate::found_map::FoundMap;
use crate::list_table::ListTable;
use b2_base::fault::OutOfMemory;
use b2_base::list::List;
use b2_base::path::Path;
use b2_base::text::Text;
use b2_paths::path_table::PathTable;
use b2_plan::plan::Plan;
use jam_scan::include::IncludeList;
use std::alloc::Global;
use std::marker::Model;

/// What is known of files, by their numbers: of each what the plan tells, what was seen, and what its bytes tell. Lists of
/// directories are numbered too, and of a list and a file is known which files its includes are found at.
///
/// What is known is asked once. It is forgotten for the outputs of a step as that step starts and as they are removed, and for
/// no other file.
pub struct Facts {
    paths: PathTable,
    files: Vec<FileFacts>,
    lists: ListTable,
    found: FoundMap,
}

/// By hand, so that dropping one is one call.
impl Drop for Facts {
    fn drop(self) {
        let Facts {
            paths,
            files,
            lists,
            found,
        } = self;
        drop(paths);
        drop(files);
        drop(lists);
        drop(found);
    }
}

impl Model for Facts {
    ghost use Rattle.std.specs.Prelude.{◌≡◌, length};
    ghost use Rattle.std.specs.Coded.{codes};
    ghost use Rattle.b2_facts.specs.Facts.{Knowledge, founds_code};

    ghost Value = { Knowledge };

    ghost coded = { Prim.hlevel (codes, founds_code) };

    ghost view = { λ f. record { paths = f.paths; files = f.files.items; lists = f.lists; found = f.found } };

    ghost invariant = { λ f. length f.files.items ≡ length f.paths };
}

impl Facts {
    ghost use Rattle.std.specs.Prelude.{◌≡◌, ℕ, List as Items, Some, None, Ok, IfOk, OnOk, OnErr};
    ghost use Rattle.std.specs.Option.{option_copied, option_map};
    ghost use Rattle.b2_host.specs.Disks.{Folder};
    ghost use Rattle.b2_plan.specs.Sources.{Build};
    ghost use Rattle.b2_plan.specs.declared.step.Step.{Step};
    ghost use Rattle.b2_log.specs.Good.{IsDigest};
    ghost use Rattle.b2_facts.specs.declared.file_facts.FileFacts.{FileFacts};
    ghost use Rattle.b2_facts.specs.declared.file_facts.FileLook.TheVariants as seen;
    ghost use Rattle.b2_facts.specs.Facts.{no_facts, with_file, with_list, with_found, IsNumber, IsList, IsAbout, path_at, file_at, dirs_at, found_at};
    ghost use Rattle.b2_facts.specs.Growth.{Learns, OfNone, OfOne};
    ghost use Rattle.b2_facts.specs.Truth.{AreTrue, StaysTrue};
    ghost use Rattle.b2_facts.specs.Changes.{EntersPath};

    fn empty(alloc: Global) -> Facts
        ensures { result ≡ no_facts }
    {
        Facts {
            paths: PathTable::new(alloc),
            files: Vec::new(alloc),
            lists: ListTable::new(alloc),
            found: FoundMap::new(alloc),
        }
    }

    /// Nothing is known; takes no memory.
    pub fn new(alloc: Global) -> Facts
        ensures value { result ≡ no_facts }
        ensures about { (steps : Items Step) (roots : Items (Items ℕ)) → IsAbout steps roots result }
        ensures told { (b : Build) (now : Folder) → AreTrue b now result }
    {
        Facts::empty(alloc)
    }

    /// The path of a number, or None where it is none. Takes no memory.
    pub fn find_path(&self, number: u32) -> Option<&Path>
        ensures { option_map (λ path. path.now) result ≡ path_at self.now number }
    {
        if (number as usize) < self.paths.len() {
            Some(self.paths.at(number))
        } else {
            None
        }
    }

    /// The path of a number.
    pub fn path(&self, number: u32) -> &Path
        requires { IsNumber self.now number }
        ensures { path_at self.now number ≡ Some result.now }
    {
        self.paths.at(number)
    }

    /// What is known of the file with a number.
    pub fn file(&self, number: u32) -> &FileFacts
        requires { IsNumber self.now number }
        ensures { file_at self.now number ≡ Some result.now }
    {
        &self.files[number as usize]
    }

    /// The directories of a list.
    pub fn dirs(&self, list: u32) -> &[Path]
        requires { IsList self.now list }
        ensures { dirs_at self.now list ≡ Some result.now }
    {
        self.lists.at(list)
    }

    /// The numbers of the files that the includes of a file are found at, where they were looked for in the directories of a
    /// list. Takes no memory.
    pub fn found(&self, list: u32, number: u32) -> Option<&List<u32>>
        ensures { option_copied result ≡ found_at self.now list number }
    {
        self.found.get(list, number)
    }

    /// Enters a path that has no number, and answers its number.
    fn enter(&mut self, plan: &Plan, path: &Path) -> Result<u32, OutOfMemory>
        requires { (n : ℕ) → path_at self.old n ≡ Some path.now → ⊥ }
        ensures place { IfOk result (λ number. path_at self.new number ≡ Some path.now) }
        ensures number { IfOk result (IsNumber self.new) }
        ensures ok { OnOk result (EntersPath plan.now.steps plan.now.roots path.now self.old self.new) }
        ensures err { OnErr result (self.new ≡ self.old) }
    {
        let file = FileFacts::of_plan(plan, path);
        self.files.reserve(1)?;
        let number = self.paths.number_of(path)?;
        self.files.push_reserved(file);
        Ok(number)
    }

    /// The number of a path, which is entered where it has none. A path that has one takes no memory. After an error all is as
    /// before.
    pub fn number_of(&mut self, plan: &Plan, path: &Path) -> Result<u32, OutOfMemory>
        ensures place { IfOk result (λ number. path_at self.new number ≡ Some path.now) }
        ensures number { IfOk result (IsNumber self.new) }
        ensures learns { Learns plan.now.steps plan.now.roots OfNone self.old self.new }
        ensures found { self.new.found ≡ self.old.found }
        ensures told { (now : Folder) → StaysTrue plan.now.steps plan.now.roots now self.old self.new }
        ensures absent { OnErr result ((n : ℕ) → path_at self.old n ≡ Some path.now → ⊥) }
        ensures stays { (n : ℕ) → path_at self.old n ≡ Some path.now → self.new ≡ self.old }
        ensures err { OnErr result (self.new ≡ self.old) }
    {
        match self.paths.find(path) {
            Some(number) => Ok(number),
            None => self.enter(plan, path),
        }
    }

    /// The number of a list of directories. Equal lists have one number. A list that has one takes no memory. After an error all
    /// is as before.
    pub fn list_number(&mut self, alloc: Global, dirs: &[Path]) -> Result<u32, OutOfMemory>
        ensures list { IfOk result (λ list. dirs_at self.new list ≡ Some dirs.now) }
        ensures once { (n : ℕ) → dirs_at self.old n ≡ Some dirs.now → result ≡ Ok n }
        ensures stays { (n : ℕ) → dirs_at self.old n ≡ Some dirs.now → self.new ≡ self.old }
        ensures learns { (steps : Items Step) (roots : Items (Items ℕ)) → Learns steps roots OfNone self.old self.new }
        ensures told { (steps : Items Step) (roots : Items (Items ℕ)) (now : Folder) → StaysTrue steps roots now self.old self.new }
        ensures err { OnErr result (self.new ≡ self.old) }
    {
        self.lists.number_of(alloc, dirs)
    }

    /// Tells what was seen of a file.
    pub(crate) fn set_seen(&mut self, number: u32, seen: FileLook)
        requires { IsNumber self.old number }
        ensures { (file : FileFacts) → file_at self.old number ≡ Some file
            → self.new ≡ with_file self.old number (record file { seen = seen }) }
    {
        let file = &mut self.files[number as usize];
        file.seen = seen;
    }

    /// Tells what a file includes.
    pub(crate) fn set_includes(&mut self, number: u32, includes: IncludeList)
        requires { IsNumber self.old number }
        ensures { (file : FileFacts) → file_at self.old number ≡ Some file
            → self.new ≡ with_file self.old number (record file { includes = Some includes }) }
    {
        let file = &mut self.files[number as usize];
        file.includes = Some(includes);
    }

    /// Tells the digest of a file.
    pub(crate) fn put_digest(&mut self, number: u32, digest: Text)
        requires { IsNumber self.old number }
        ensures { (file : FileFacts) → file_at self.old number ≡ Some file
            → self.new ≡ with_file self.old number (record file { digest = Some digest }) }
    {
        let file = &mut self.files[number as usize];
        file.digest = Some(digest);
    }

    /// Tells where the includes of a file are found. After an error all is as before.
    pub(crate) fn set_found(
        &mut self,
        list: u32,
        number: u32,
        targets: List<u32>,
    ) -> Result<(), OutOfMemory>
        ensures ok { OnOk result (self.new ≡ with_found self.old list number targets) }
        ensures err { OnErr result (self.new ≡ self.old) }
    {
        self.found.insert(list, number, targets)
    }

    /// Takes away what was seen of a file, and its digest.
    fn clear(&mut self, number: u32)
        requires { IsNumber self.old number }
        ensures { (file : FileFacts) → file_at self.old number ≡ Some file
            → self.new ≡ with_file self.old number (record file { seen = seen.Unasked; digest = None }) }
    {
        let file = &mut self.files[number as usize];
        file.seen = FileLook::Unasked;
        file.digest = None;
    }

    /// Forgets what was seen of a file, and its digest: the step that makes it starts, or the file is removed. What it includes
    /// is not known.
    pub fn forget(&mut self, number: u32)
        requires number { IsNumber self.old number }
        requires unread { (file : FileFacts) → file_at self.old number ≡ Some file → file.includes ≡ None }
        ensures exact { (file : FileFacts) → file_at self.old number ≡ Some file
            → self.new ≡ with_file self.old number (record file { seen = seen.Unasked; digest = None }) }
        ensures about { (steps : Items Step) (roots : Items (Items ℕ)) → IsAbout steps roots self.old → IsAbout steps roots self.new }
        ensures told { (b : Build) (now : Folder) → AreTrue b now self.old → AreTrue b now self.new }
    {
        self.clear(number);
    }
}
