//! What an update knows, beside its schedule.
ghost use Rattle.std.specs.Prelude.{◌≡◌, [], ◌∷◌, ℕ, List as Items, Bool, true, false, Some, None, IfOk};
ghost use Rattle.b2_plan.specs.declared.step.Step.{Step};
ghost use Rattle.b2_facts.specs.declared.file_facts.FileFacts.{FileFacts};
ghost use Rattle.b2_facts.specs.declared.file_facts.FileLook.TheVariants as seen;
ghost use Rattle.b2_facts.specs.Facts.{IsNumber, IsList, IsRead, file_at, found_at};
ghost use Rattle.b2_reach.specs.Files.{IsAtHand, IsMakerOf};
ghost use Rattle.b2_reach.specs.Sightings.{LearnsMore, IsReadOrGone, IsFoundOrGone};

use b2_facts::facts::Facts;
use b2_facts::scans::ScanAnswer;
use b2_facts::stop::{FilesStop, stop_of_read};
use b2_host::files::Files;
use b2_journal::journal::Journal;
use b2_log::line::LogLine;
use b2_paths::marks::Marks;
use b2_plan::plan::Plan;
use std::alloc::Global;

/// What an update knows: of files, and of the log.
pub struct Sights {
    /// What is known of files.
    pub facts: Facts,
    /// The lines of the log.
    pub journal: Journal,
    /// Marks on numbers of files, begun anew by each who needs them.
    pub marks: Marks,
    /// Whether judging is by digests: a file that is read gives its digest too.
    pub by_digest: bool,
}

/// By hand, so that dropping one is one call.
impl Drop for Sights {
    fn drop(self) {
        let Sights {
            facts,
            journal,
            marks,
            by_digest: _,
        } = self;
        drop(facts);
        drop(journal);
        drop(marks);
    }
}

impl Sights {
    /// Scans a file, and where it was read notes its line, if lines are noted. Answers whether what it includes is known: else it is
    /// gone.
    fn scan<F: Files>(
        &mut self,
        alloc: Global,
        files: &mut F,
        number: u32,
        notes: bool,
    ) -> Result<bool, FilesStop>
        requires number { IsNumber self.old.facts number }
        requires known { (file : FileFacts) × (file_at self.old.facts number ≡ Some file) × (file.scanned ≡ true) }
        ensures marks { self.new.marks ≡ self.old.marks }
        ensures read { IfOk result (λ known. (file : FileFacts) → file_at self.new.facts number ≡ Some file
            → IsReadOrGone file known) }
        ensures grows { (steps : Items Step) (roots : Items (Items ℕ))
            → ((file : FileFacts) → file_at self.old.facts number ≡ Some file
            → IsAtHand steps (IsMakerOf self.old.facts number) file)
            → LearnsMore notes steps roots (IsMakerOf self.old.facts number) (number ∷ []) self.old (F.outside files.old)
            self.new (F.outside files.new) result }
    {
        match self
            .facts
            .scan(alloc, files, self.journal.log(), number, self.by_digest)
        {
            Ok(ScanAnswer::Known) => Ok(true),
            Ok(ScanAnswer::Read(line)) => {
                if !notes {
                    return Ok(true);
                }
                self.journal.note(files, LogLine::Scan(line))?;
                Ok(true)
            }
            Ok(ScanAnswer::Gone) => Ok(self.facts.file(number).includes.is_some()),
            Err(fault) => Err(stop_of_read(fault, number)),
        }
    }

    /// Finds the files that a file includes, where they are looked for in the directories of a list.
    fn find<F: Files>(
        &mut self,
        alloc: Global,
        plan: &Plan,
        files: &mut F,
        list: u32,
        number: u32,
    ) -> Result<(), FilesStop>
        requires list { IsList self.old.facts list }
        requires number { IsNumber self.old.facts number }
        requires read { (file : FileFacts) → file_at self.old.facts number ≡ Some file → IsRead file }
        ensures marks { self.new.marks ≡ self.old.marks }
        ensures found { IfOk result (λ found. (targets : Items ℕ) × (found_at self.new.facts list number ≡ Some targets)) }
        ensures grows { (notes : Bool) → LearnsMore notes plan.now.steps plan.now.roots (IsMakerOf self.old.facts number)
            (number ∷ []) self.old (F.outside files.old) self.new (F.outside files.new) result }
    {
        self.facts.find_includes(alloc, plan, files, list, number)?;
        Ok(())
    }

    /// Scans a file that is at hand, and finds the files that it includes, unless it is gone. Where it was read its line is noted, if
    /// lines are.
    pub(crate) fn read<F: Files>(
        &mut self,
        alloc: Global,
        plan: &Plan,
        files: &mut F,
        list: u32,
        number: u32,
        notes: bool,
    ) -> Result<(), FilesStop>
        requires list { IsList self.old.facts list }
        requires number { IsNumber self.old.facts number }
        requires known { (file : FileFacts) × (file_at self.old.facts number ≡ Some file) × (file.scanned ≡ true) }
        requires at_hand { (file : FileFacts) → file_at self.old.facts number ≡ Some file
            → IsAtHand plan.now.steps (IsMakerOf self.old.facts number) file }
        ensures marks { self.new.marks ≡ self.old.marks }
        ensures found { IfOk result
            (λ found. (file : FileFacts) → file_at self.new.facts number ≡ Some file → IsFoundOrGone self.new.facts list number file) }
        ensures grows { LearnsMore notes plan.now.steps plan.now.roots (IsMakerOf self.old.facts number) (number ∷ []) self.old
            (F.outside files.old) self.new (F.outside files.new) result }
    {
        if self.scan(alloc, files, number, notes)? {
            self.find(alloc, plan, files, list, number)?;
        }
        Ok(())
    }
}
