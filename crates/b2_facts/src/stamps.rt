//! What is seen of files.
ghost use Rattle.std.specs.Prelude.{◌≡◌, ℕ, List, Some, IfOk, OnErr, IsTrue};
ghost use Rattle.std.specs.Option.{IfSome};
ghost use Rattle.b2_host.specs.Outside.{Looks};
ghost use Rattle.b2_plan.specs.declared.step.Step.{Step};
ghost use Rattle.b2_facts.specs.declared.file_facts.FileFacts.{FileFacts};
ghost use Rattle.b2_facts.specs.declared.file_facts.FileLook.TheVariants as seen;
ghost use Rattle.b2_facts.specs.Facts.{IsNumber, file_at, with_file};
ghost use Rattle.b2_facts.specs.Growth.{Learns, OfNone, OfOne};
ghost use Rattle.b2_facts.specs.Truth.{StaysTrue};
ghost use Rattle.b2_facts.specs.Asks.{seen_of, IsToldGiven};

use crate::facts::Facts;
use crate::file_facts::FileLook;
use b2_host::fault::Failed;
use b2_host::files::Files;

/// What is seen of a file by its stamp.
fn seen_of(stamp: Option<u64>) -> FileLook
    ensures { result ≡ seen_of stamp }
{
    match stamp {
        None => FileLook::Gone,
        Some(stamp) => FileLook::Stands(stamp),
    }
}

impl Facts {
    /// Asks the host for a stamp that was not asked for.
    fn ask_stamp<F: Files>(&mut self, files: &mut F, number: u32) -> Result<Option<u64>, Failed>
        requires number { IsNumber self.old number }
        requires unasked { (file : FileFacts) → file_at self.old number ≡ Some file → file.seen ≡ seen.Unasked }
        ensures effect { Looks (F.outside files.old) (F.outside files.new) result }
        ensures exact { IfOk result (λ stamp. (file : FileFacts) → file_at self.old number ≡ Some file
            → self.new ≡ with_file self.old number (record file { seen = seen_of stamp })) }
        ensures learns { (steps : List Step) (roots : List (List ℕ)) → Learns steps roots (OfOne number) self.old self.new }
        ensures told { IfSome (F.outside files.old).disk
            (λ disk. (steps : List Step) (roots : List (List ℕ)) → StaysTrue steps roots disk.now self.old self.new) }
        ensures err { OnErr result (self.new ≡ self.old) }
    {
        let stamp = files.stat(self.path(number))?;
        self.set_seen(number, seen_of(stamp));
        Ok(stamp)
    }

    /// The stamp of a file, or None where no file stands. The host is asked once: what was seen is answered again. After an
    /// error all is as before.
    pub fn stamp<F: Files>(&mut self, files: &mut F, number: u32) -> Result<Option<u64>, Failed>
        requires { IsNumber self.old number }
        ensures effect { Looks (F.outside files.old) (F.outside files.new) result }
        ensures exact { IfOk result (λ stamp. (file : FileFacts) → file_at self.old number ≡ Some file
            → self.new ≡ with_file self.old number (record file { seen = seen_of stamp })) }
        ensures learns { (steps : List Step) (roots : List (List ℕ)) → Learns steps roots (OfOne number) self.old self.new }
        ensures told { IfSome (F.outside files.old).disk
            (λ disk. (steps : List Step) (roots : List (List ℕ)) → StaysTrue steps roots disk.now self.old self.new) }
        ensures err { OnErr result (self.new ≡ self.old) }
    {
        match self.file(number).seen {
            FileLook::Gone => Ok(None),
            FileLook::Stands(stamp) => Ok(Some(stamp)),
            FileLook::Unasked => self.ask_stamp(files, number),
        }
    }

    /// Whether a file is given: a step makes it, or it stands outside the output roots. Only the stamp of a file that no step
    /// makes is asked for. After an error all is as before.
    pub fn is_given<F: Files>(&mut self, files: &mut F, number: u32) -> Result<bool, Failed>
        requires { IsNumber self.old number }
        ensures effect { Looks (F.outside files.old) (F.outside files.new) result }
        ensures given { IfOk result (λ given. (file : FileFacts) → file_at self.new number ≡ Some file → IsToldGiven file given) }
        ensures learns { (steps : List Step) (roots : List (List ℕ)) → Learns steps roots OfNone self.old self.new }
        ensures found { self.new.found ≡ self.old.found }
        ensures told { IfSome (F.outside files.old).disk
            (λ disk. (steps : List Step) (roots : List (List ℕ)) → StaysTrue steps roots disk.now self.old self.new) }
        ensures err { OnErr result (self.new ≡ self.old) }
    {
        let file = self.file(number);
        if file.maker.is_some() {
            return Ok(true);
        }
        if file.rooted {
            return Ok(false);
        }
        let stamp = self.stamp(files, number)?;
        Ok(stamp.is_some())
    }
}
