//! Which files includes are found at.
ghost use Rattle.std.specs.Prelude.{◌≡◌, ◌≢◌, ◌<◌, ◌++◌, ℕ, List as Items, length, Some, None, IfOk, OnOk, slice_get};
ghost use Rattle.std.specs.Prelude.{option_to_list};
ghost use Rattle.std.specs.Option.{IfSome};
ghost use Rattle.b2_host.specs.Outside.{IoLooks};
ghost use Rattle.b2_plan.specs.Sources.{Include};
ghost use Rattle.jam_scan.specs.Places.{places};
ghost use Rattle.b2_facts.specs.declared.file_facts.FileFacts.{FileFacts};
ghost use Rattle.b2_facts.specs.Facts.{IsNumber, IsList, IsRead, path_at, file_at, dirs_at, found_at};
ghost use Rattle.b2_facts.specs.Growth.{Learns, OfNone};
ghost use Rattle.b2_facts.specs.Truth.{StaysTrue};
ghost use Rattle.b2_facts.specs.Asks.{IsTried, IsTriedAt, IsLooking, HasInclude, AreFirsts};

use crate::facts::Facts;
use b2_base::fault::OutOfMemory;
use b2_base::list::List;
use b2_base::path::Path;
use b2_base::path_list::PathList;
use b2_host::fault::IoFault;
use b2_host::files::Files;
use b2_plan::plan::Plan;
use jam_scan::include::Include;
use jam_scan::places::candidates;
use std::alloc::Global;

/// Adds a number at the end, if there is one.
fn push_target(targets: &mut List<u32>, target: Option<u32>) -> Result<(), OutOfMemory>
    ensures { OnOk result (targets.new ≡ targets.old ++ option_to_list target) }
{
    match target {
        None => Ok(()),
        Some(target) => targets.push(target),
    }
}

/// The include at a place.
fn include_at(includes: &[Include], at: usize) -> &Include
    requires { at < length includes.now }
    ensures { slice_get includes.now at ≡ Some result.now }
{
    &includes[at]
}

impl Facts {
    /// The includes of a file that was scanned.
    fn includes(&self, number: u32) -> &[Include]
        requires number { IsNumber self.now number }
        requires read { (file : FileFacts) → file_at self.now number ≡ Some file → IsRead file }
        ensures { (file : FileFacts) → file_at self.now number ≡ Some file → file.includes ≡ Some result.now }
    {
        match &self.file(number).includes {
            Some(includes) => includes.as_slice(),
            None => unreachable!(),
        }
    }

    /// The number of a path, where a file is given there.
    fn given_at<F: Files>(
        &mut self,
        plan: &Plan,
        files: &mut F,
        path: &Path,
    ) -> Result<Option<u32>, IoFault>
        ensures effect { IoLooks (F.outside files.old) (F.outside files.new) result }
        ensures given { IfOk result (IsTriedAt self.new path.now) }
        ensures learns { Learns plan.now.steps plan.now.roots OfNone self.old self.new }
        ensures found { self.new.found ≡ self.old.found }
        ensures told { IfSome (F.outside files.old).disk
            (λ disk. StaysTrue plan.now.steps plan.now.roots disk.now self.old self.new) }
    {
        let number = self.number_of(plan, path)?;
        match self.is_given(files, number) {
            Ok(true) => Ok(Some(number)),
            Ok(false) => Ok(None),
            Err(_) => Err(IoFault::Failed),
        }
    }

    /// The number of the first of some paths at which a file is given.
    fn first_given<F: Files>(
        &mut self,
        plan: &Plan,
        files: &mut F,
        tried: &[Path],
    ) -> Result<Option<u32>, IoFault>
        ensures effect { IoLooks (F.outside files.old) (F.outside files.new) result }
        ensures first { IfOk result (IsTried self.new tried.now) }
        ensures learns { Learns plan.now.steps plan.now.roots OfNone self.old self.new }
        ensures found { self.new.found ≡ self.old.found }
        ensures told { IfSome (F.outside files.old).disk
            (λ disk. StaysTrue plan.now.steps plan.now.roots disk.now self.old self.new) }
    {
        for path in tried {
            let given = self.given_at(plan, files, path)?;
            if given.is_some() {
                return Ok(given);
            }
        }
        Ok(None)
    }

    /// The places where one include of a file is looked for, in the directories of a list.
    fn places_of(
        &self,
        alloc: Global,
        list: u32,
        number: u32,
        at: usize,
    ) -> Result<PathList, OutOfMemory>
        requires list { IsList self.now list }
        requires number { IsNumber self.now number }
        requires read { (file : FileFacts) → file_at self.now number ≡ Some file → HasInclude file at }
        ensures { IfOk result
            (λ tried. (path : Items ℕ) (dirs : Items (Items ℕ)) (includes : Items Include) (include : Include)
            → IsLooking self.now list number path dirs includes → slice_get includes at ≡ Some include
            → tried ≡ places dirs path include) }
    {
        let include = include_at(self.includes(number), at);
        candidates(alloc, include, self.path(number), self.dirs(list))
    }

    /// The number of the file that one include of a file is found at, if it is found.
    fn find_include<F: Files>(
        &mut self,
        alloc: Global,
        plan: &Plan,
        files: &mut F,
        list: u32,
        number: u32,
        at: usize,
    ) -> Result<Option<u32>, IoFault>
        requires list { IsList self.old list }
        requires number { IsNumber self.old number }
        requires read { (file : FileFacts) → file_at self.old number ≡ Some file → HasInclude file at }
        ensures effect { IoLooks (F.outside files.old) (F.outside files.new) result }
        ensures first { IfOk result
            (λ target. (path : Items ℕ) (dirs : Items (Items ℕ)) (includes : Items Include) (include : Include)
            → IsLooking self.old list number path dirs includes → slice_get includes at ≡ Some include
            → IsTried self.new (places dirs path include) target) }
        ensures learns { Learns plan.now.steps plan.now.roots OfNone self.old self.new }
        ensures found { self.new.found ≡ self.old.found }
        ensures told { IfSome (F.outside files.old).disk
            (λ disk. StaysTrue plan.now.steps plan.now.roots disk.now self.old self.new) }
    {
        let tried = self.places_of(alloc, list, number, at)?;
        self.first_given(plan, files, tried.as_slice())
    }

    /// The numbers of the files that the includes of a file are found at.
    fn look_for<F: Files>(
        &mut self,
        alloc: Global,
        plan: &Plan,
        files: &mut F,
        list: u32,
        number: u32,
    ) -> Result<List<u32>, IoFault>
        requires list { IsList self.old list }
        requires number { IsNumber self.old number }
        requires read { (file : FileFacts) → file_at self.old number ≡ Some file → IsRead file }
        ensures effect { IoLooks (F.outside files.old) (F.outside files.new) result }
        ensures firsts { IfOk result (λ targets. (path : Items ℕ) (dirs : Items (Items ℕ)) (includes : Items Include)
            → IsLooking self.old list number path dirs includes → AreFirsts self.new dirs path includes targets) }
        ensures learns { Learns plan.now.steps plan.now.roots OfNone self.old self.new }
        ensures found { self.new.found ≡ self.old.found }
        ensures told { IfSome (F.outside files.old).disk
            (λ disk. StaysTrue plan.now.steps plan.now.roots disk.now self.old self.new) }
    {
        let count = self.includes(number).len();
        let mut targets = List::new(alloc);
        for at in 0..count {
            let target = self.find_include(alloc, plan, files, list, number, at)?;
            push_target(&mut targets, target)?;
        }
        Ok(targets)
    }

    /// Finds the files that a file includes, where they are looked for in the directories of a list. What the file includes is
    /// known. Where they were found before, the host is not asked. It is asked for stamps alone, of files outside the output
    /// roots that no step makes. After an error more may be known than before.
    pub fn find_includes<F: Files>(
        &mut self,
        alloc: Global,
        plan: &Plan,
        files: &mut F,
        list: u32,
        number: u32,
    ) -> Result<(), IoFault>
        requires list { IsList self.old list }
        requires number { IsNumber self.old number }
        requires read { (file : FileFacts) → file_at self.old number ≡ Some file → IsRead file }
        ensures effect { IoLooks (F.outside files.old) (F.outside files.new) result }
        ensures found { OnOk result (found_at self.new list number ≢ None) }
        ensures learns { Learns plan.now.steps plan.now.roots OfNone self.old self.new }
        ensures told { IfSome (F.outside files.old).disk
            (λ disk. StaysTrue plan.now.steps plan.now.roots disk.now self.old self.new) }
    {
        if self.found(list, number).is_some() {
            return Ok(());
        }
        let targets = self.look_for(alloc, plan, files, list, number)?;
        self.set_found(list, number, targets)?;
        Ok(())
    }
}
