//! The digests of files.
ghost use Rattle.std.specs.Prelude.{◌≡◌, ℕ, List, Some, None, IfOk, IfErr, OnOk, OnErr};
ghost use Rattle.std.specs.Option.{IfSome, option_copied};
ghost use Rattle.b2_host.specs.Disks.{Folder, bytes_at};
ghost use Rattle.b2_plan.specs.declared.step.Step.{Step};
ghost use Rattle.b2_plan.specs.Sources.{Build};
ghost use Rattle.b2_log.specs.Good.{IsDigest};
ghost use Rattle.b2_facts.specs.declared.file_facts.FileFacts.{FileFacts};
ghost use Rattle.b2_facts.specs.Facts.{IsNumber, IsFile, path_at, file_at, with_file};
ghost use Rattle.b2_facts.specs.Growth.{Learns, OfOne, IncludesStay};
ghost use Rattle.b2_facts.specs.Truth.{AreTrue, StaysTrue, IsReadAs};
ghost use Rattle.b2_facts.specs.Digests.{digest_of};
ghost use Rattle.b2_facts.specs.Asks.{ReadsAtMost, IsTooBigFor};

use crate::facts::Facts;
use crate::fault::ReadFault;
use b2_base::fault::OutOfMemory;
use b2_base::hexadecimal::hexadecimal;
use b2_base::text::Text;
use b2_host::files::{Files, ReadAnswer};
use sha2::{Digest, Sha256};
use std::alloc::Global;

/// How many bytes of a file are digested at most.
pub const DIGEST_LIMIT: u64 = 268_435_456;

/// The digest of bytes: their SHA-256 as 64 lower-case hexadecimal digits.
pub fn digest_of(alloc: Global, bytes: &[u8]) -> Result<Text, OutOfMemory>
    ensures { IfOk result (λ digest. digest ≡ digest_of bytes.now) }
{
    let hash = Sha256::digest(bytes);
    let digits = hexadecimal(alloc, hash.as_slice())?;
    Ok(Text::from_string(digits))
}

impl Facts {
    /// Reads a file whose digest is not known.
    fn read_digest<F: Files>(
        &mut self,
        alloc: Global,
        files: &mut F,
        number: u32,
    ) -> Result<(), ReadFault>
        requires number { IsNumber self.old number }
        requires unknown { (file : FileFacts) → file_at self.old number ≡ Some file → file.digest ≡ None }
        ensures effect { (path : List ℕ) → path_at self.old number ≡ Some path
            → ReadsAtMost path (F.outside files.old) (F.outside files.new) result }
        ensures gone { OnOk result (IfSome (F.outside files.old).disk
            (λ disk. (path : List ℕ) (file : FileFacts) → IsFile self.new number path file
            → file.digest ≡ None → disk.now path ≡ None)) }
        ensures learns { (steps : List Step) (roots : List (List ℕ)) → Learns steps roots (OfOne number) self.old self.new }
        ensures includes { IncludesStay self.old self.new }
        ensures told { IfSome (F.outside files.old).disk
            (λ disk. (steps : List Step) (roots : List (List ℕ)) → StaysTrue steps roots disk.now self.old self.new) }
        ensures too_big { IfErr result (λ fault. IfSome (F.outside files.old).disk
            (λ disk. (path : List ℕ) → path_at self.old number ≡ Some path → IsTooBigFor 268435456 path disk.now fault)) }
        ensures err { OnErr result (self.new ≡ self.old) }
    {
        let answer = files.read(self.path(number), DIGEST_LIMIT)?;
        match answer {
            ReadAnswer::Bytes(bytes) => {
                let digest = digest_of(alloc, bytes.as_slice())?;
                self.put_digest(number, digest);
                Ok(())
            }
            ReadAnswer::Missing => Ok(()),
            ReadAnswer::TooBig { size } => Err(ReadFault::TooBig { size }),
        }
    }

    /// Finds the digest of a file: where it is not known the file is read whole, where it has at most 268,435,456 bytes. It
    /// stays unknown where no file stands. After an error all is as before.
    pub fn find_digest<F: Files>(
        &mut self,
        alloc: Global,
        files: &mut F,
        number: u32,
    ) -> Result<(), ReadFault>
        requires { IsNumber self.old number }
        ensures effect { (path : List ℕ) → path_at self.old number ≡ Some path
            → ReadsAtMost path (F.outside files.old) (F.outside files.new) result }
        ensures known { (file : FileFacts) (digest : List ℕ) → file_at self.old number ≡ Some file → file.digest ≡ Some digest
            → F.outside files.new ≡ F.outside files.old }
        ensures gone { OnOk result (IfSome (F.outside files.old).disk
            (λ disk. (path : List ℕ) (file : FileFacts) → IsFile self.new number path file
            → file.digest ≡ None → disk.now path ≡ None)) }
        ensures learns { (steps : List Step) (roots : List (List ℕ)) → Learns steps roots (OfOne number) self.old self.new }
        ensures includes { IncludesStay self.old self.new }
        ensures told { IfSome (F.outside files.old).disk
            (λ disk. (steps : List Step) (roots : List (List ℕ)) → StaysTrue steps roots disk.now self.old self.new) }
        ensures too_big { IfErr result (λ fault. IfSome (F.outside files.old).disk
            (λ disk. (path : List ℕ) → path_at self.old number ≡ Some path → IsTooBigFor 268435456 path disk.now fault)) }
        ensures err { OnErr result (self.new ≡ self.old) }
    {
        if self.file(number).digest.is_some() {
            return Ok(());
        }
        self.read_digest(alloc, files, number)
    }

    /// Tells the digest of a file whose digest is not known, as a true record has it for the present stamp of the file. Records
    /// need not be true where all steps are to run, so there no digest is told so.
    pub fn set_digest(&mut self, number: u32, digest: Text)
        requires number { IsNumber self.old number }
        requires unknown { (file : FileFacts) → file_at self.old number ≡ Some file → file.digest ≡ None }
        requires digits { IsDigest digest }
        ensures exact { (file : FileFacts) → file_at self.old number ≡ Some file
            → self.new ≡ with_file self.old number (record file { digest = Some digest }) }
        ensures learns { (steps : List Step) (roots : List (List ℕ)) → Learns steps roots (OfOne number) self.old self.new }
        ensures told { (b : Build) (now : Folder)
            → ((path : List ℕ) → path_at self.old number ≡ Some path → IsReadAs digest_of (bytes_at now path) (Some digest))
            → AreTrue b now self.old → AreTrue b now self.new }
    {
        self.put_digest(number, digest);
    }
}
