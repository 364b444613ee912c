//! What files include.
ghost use Rattle.std.specs.Prelude.{◌≡◌, ◌↔◌, ◌⊎◌, ℕ, List, true, Some, None, IfOk, IfErr, OnErr, OnOk};
ghost use Rattle.std.specs.Option.{IfSome};
ghost use Rattle.b2_host.specs.declared.files.ReadAnswer.{ReadAnswer};
ghost use Rattle.b2_host.specs.Disks.{ReadTold, Folder};
ghost use Rattle.b2_plan.specs.declared.step.Step.{Step};
ghost use Rattle.b2_plan.specs.Sources.{Build};
ghost use Rattle.jam_scan.specs.IncludeLines.{includes_of};
ghost use Rattle.b2_facts.specs.declared.file_facts.FileFacts.{FileFacts};
ghost use Rattle.b2_facts.specs.declared.file_facts.FileLook.TheVariants as seen;
ghost use Rattle.b2_facts.specs.Facts.{IsNumber, IsFile, path_at, file_at, with_file};
ghost use Rattle.b2_facts.specs.Growth.{Learns, OfOne};
ghost use Rattle.b2_facts.specs.Truth.{StaysTrue, StaysTrueOf, ScansTell};
ghost use Rattle.b2_facts.specs.Asks.{taken, with_bytes, IsToRead, Scans, ReadsForAnswer, IsScannedAs, IsReadAnswer, TakesDigest, IsTooBigFor};

use crate::digests::digest_of;
use crate::facts::Facts;
use crate::fault::ReadFault;
use b2_base::fault::OutOfMemory;
use b2_base::list::List;
use b2_base::path::Path;
use b2_base::text::Text;
use b2_host::files::{Files, ReadAnswer};
use b2_log::line::ScanLine;
use b2_log::log::Log;
use jam_scan::include::{Include, IncludeList};
use jam_scan::scan::includes;
use std::alloc::Global;

/// How many bytes of a file are scanned at most.
pub const SCAN_LIMIT: u64 = 16_777_216;

/// What a scan answers.
#[derive(Drop)]
pub enum ScanAnswer {
    /// What the file includes is known, and it was not read: it was known before, or the log tells.
    Known,
    /// The file was read, and this line is to be noted in the log before the next call on the host.
    Read(ScanLine),
    /// The file is gone. Where it was seen to stand, and was gone when it was read, it counts as one without includes.
    Gone,
}

/// The includes that a scan line tells.
fn includes_told(alloc: Global, told: &[(Text, bool)]) -> Result<IncludeList, OutOfMemory>
    ensures { IfOk result (λ made. made ≡ told.now) }
{
    let mut made = IncludeList::new(alloc);
    for (name, quoted) in told {
        made.push(Include::of_pair(name.copy()?, *quoted))?;
    }
    Ok(made)
}

/// The same includes as a scan line has them.
fn includes_noted(alloc: Global, includes: &[Include]) -> Result<List<(Text, bool)>, OutOfMemory>
    ensures { IfOk result (λ made. made ≡ includes.now) }
{
    let mut made = List::new(alloc);
    for include in includes {
        let (name, quoted) = include.pair();
        made.push((name.copy()?, quoted))?;
    }
    Ok(made)
}

/// The scan line of a file.
fn line_of(
    alloc: Global,
    path: &Path,
    stamp: u64,
    includes: &[Include],
) -> Result<ScanLine, OutOfMemory>
    ensures { IfOk result (λ line. line ≡ record { path = path.now; stamp = stamp; includes = includes.now }) }
{
    let includes = includes_noted(alloc, includes)?;
    let path = path.copy()?;
    Ok(ScanLine {
        path,
        stamp,
        includes,
    })
}

impl Facts {
    /// Keeps the includes that the log has for the present stamp of a file.
    fn keep_line(&mut self, alloc: Global, number: u32, line: &ScanLine) -> Result<(), OutOfMemory>
        requires { IsNumber self.old number }
        ensures ok { OnOk result ((file : FileFacts) → file_at self.old number ≡ Some file
            → self.new ≡ with_file self.old number (record file { includes = Some line.now.includes })) }
        ensures err { OnErr result (self.new ≡ self.old) }
    {
        let includes = includes_told(alloc, line.includes.as_slice())?;
        self.set_includes(number, includes);
        Ok(())
    }

    /// Keeps the digest of a file's bytes, where it is taken and was not known.
    fn keep_digest(
        &mut self,
        alloc: Global,
        number: u32,
        bytes: &[u8],
        by_digest: bool,
    ) -> Result<(), OutOfMemory>
        requires { IsNumber self.old number }
        ensures ok { OnOk result ((file : FileFacts) → file_at self.old number ≡ Some file
            → self.new ≡ with_file self.old number (record file { digest = taken by_digest bytes.now file.digest })) }
        ensures err { OnErr result (self.new ≡ self.old) }
    {
        if !by_digest || self.file(number).digest.is_some() {
            return Ok(());
        }
        let digest = digest_of(alloc, bytes)?;
        self.put_digest(number, digest);
        Ok(())
    }

    /// Keeps what the bytes of a file tell: its includes, and by digests its digest.
    fn keep_bytes(
        &mut self,
        alloc: Global,
        number: u32,
        stamp: u64,
        bytes: &[u8],
        by_digest: bool,
    ) -> Result<ScanLine, OutOfMemory>
        requires { IsNumber self.old number }
        ensures line { IfOk result (λ line. (path : List ℕ) → path_at self.old number ≡ Some path
            → line ≡ record { path = path; stamp = stamp; includes = includes_of bytes.now }) }
        ensures ok { OnOk result ((file : FileFacts) → file_at self.old number ≡ Some file
            → self.new ≡ with_file self.old number (with_bytes by_digest bytes.now file)) }
        ensures err { OnErr result (self.new ≡ self.old) }
    {
        let includes = includes(alloc, bytes)?;
        let line = line_of(alloc, self.path(number), stamp, includes.as_slice())?;
        self.keep_digest(alloc, number, bytes, by_digest)?;
        self.set_includes(number, includes);
        Ok(line)
    }

    /// Reads a file that was seen to stand, whose includes neither the facts nor the log tell. After an error all is as before.
    fn read_includes<F: Files>(
        &mut self,
        alloc: Global,
        files: &mut F,
        number: u32,
        stamp: u64,
        by_digest: bool,
    ) -> Result<ScanAnswer, ReadFault>
        requires number { IsNumber self.old number }
        requires unread { (file : FileFacts) → file_at self.old number ≡ Some file → IsToRead file stamp }
        ensures effect { (path : List ℕ) → path_at self.old number ≡ Some path
            → ReadsForAnswer path (F.outside files.old) (F.outside files.new) result }
        ensures answer { IfOk result (λ answer. (path : List ℕ) (file : FileFacts) → IsFile self.new number path file
            → IsReadAnswer (F.outside files.old).disk path file answer) }
        ensures digested { IfOk result (λ answer. (file : FileFacts) → file_at self.new number ≡ Some file
            → TakesDigest by_digest file answer) }
        ensures learns { (steps : List Step) (roots : List (List ℕ)) → Learns steps roots (OfOne number) self.old self.new }
        ensures told { IfSome (F.outside files.old).disk
            (λ disk. (steps : List Step) (roots : List (List ℕ)) → StaysTrue steps roots disk.now self.old self.new) }
        ensures too_big { IfErr result (λ fault. IfSome (F.outside files.old).disk
            (λ disk. (path : List ℕ) → path_at self.old number ≡ Some path → IsTooBigFor 16777216 path disk.now fault)) }
        ensures err { OnErr result (self.new ≡ self.old) }
    {
        let answer = files.read(self.path(number), SCAN_LIMIT)?;
        match answer {
            ReadAnswer::Bytes(bytes) => {
                let line = self.keep_bytes(alloc, number, stamp, bytes.as_slice(), by_digest)?;
                Ok(ScanAnswer::Read(line))
            }
            ReadAnswer::Missing => {
                self.set_includes(number, IncludeList::new(alloc));
                Ok(ScanAnswer::Gone)
            }
            ReadAnswer::TooBig { size } => Err(ReadFault::TooBig { size }),
        }
    }

    /// Finds what a file includes that was seen to stand, by the log or by a read.
    fn scan_standing<F: Files>(
        &mut self,
        alloc: Global,
        files: &mut F,
        log: &Log,
        number: u32,
        stamp: u64,
        by_digest: bool,
    ) -> Result<ScanAnswer, ReadFault>
        requires number { IsNumber self.old number }
        requires unread { (file : FileFacts) → file_at self.old number ≡ Some file → IsToRead file stamp }
        ensures effect { Scans self.new number log.now.lines (F.outside files.old) (F.outside files.new) result }
        ensures answer { IfOk result (λ answer. (path : List ℕ) (file : FileFacts) → IsFile self.new number path file
            → IsScannedAs (F.outside files.old).disk log.now.lines self.old number path file answer) }
        ensures digested { IfOk result (λ answer. (file : FileFacts) → file_at self.new number ≡ Some file
            → TakesDigest by_digest file answer) }
        ensures learns { (steps : List Step) (roots : List (List ℕ)) → Learns steps roots (OfOne number) self.old self.new }
        ensures told { IfSome (F.outside files.old).disk
            (λ disk. (steps : List Step) (roots : List (List ℕ)) (b : Build) → ScansTell b disk.now log.now.lines
            → StaysTrueOf steps roots disk.now self.old self.new b) }
        ensures too_big { IfErr result (λ fault. IfSome (F.outside files.old).disk
            (λ disk. (path : List ℕ) → path_at self.old number ≡ Some path → IsTooBigFor 16777216 path disk.now fault)) }
    {
        match log.scan(self.path(number), stamp) {
            None => self.read_includes(alloc, files, number, stamp, by_digest),
            Some(line) => {
                self.keep_line(alloc, number, line)?;
                Ok(ScanAnswer::Known)
            }
        }
    }

    /// Finds what a file includes, which is one that is scanned: what is known is answered; else its stamp is asked for, and
    /// what the log has at this stamp is taken; else it is read whole, once, where it has at most 16,777,216 bytes. Where
    /// judging is by digests a read gives its digest too. After an error more may be known than before.
    pub fn scan<F: Files>(
        &mut self,
        alloc: Global,
        files: &mut F,
        log: &Log,
        number: u32,
        by_digest: bool,
    ) -> Result<ScanAnswer, ReadFault>
        requires number { IsNumber self.old number }
        requires scanned { (file : FileFacts) → file_at self.old number ≡ Some file → file.scanned ≡ true }
        ensures effect { Scans self.new number log.now.lines (F.outside files.old) (F.outside files.new) result }
        ensures answer { IfOk result (λ answer. (path : List ℕ) (file : FileFacts) → IsFile self.new number path file
            → IsScannedAs (F.outside files.old).disk log.now.lines self.old number path file answer) }
        ensures digested { IfOk result (λ answer. (file : FileFacts) → file_at self.new number ≡ Some file
            → TakesDigest by_digest file answer) }
        ensures learns { (steps : List Step) (roots : List (List ℕ)) → Learns steps roots (OfOne number) self.old self.new }
        ensures told { IfSome (F.outside files.old).disk
            (λ disk. (steps : List Step) (roots : List (List ℕ)) (b : Build) → ScansTell b disk.now log.now.lines
            → StaysTrueOf steps roots disk.now self.old self.new b) }
        ensures too_big { IfErr result (λ fault. IfSome (F.outside files.old).disk
            (λ disk. (path : List ℕ) → path_at self.old number ≡ Some path → IsTooBigFor 16777216 path disk.now fault)) }
    {
        if self.file(number).includes.is_some() {
            return Ok(ScanAnswer::Known);
        }
        let seen = self.stamp(files, number)?;
        match seen {
            None => Ok(ScanAnswer::Gone),
            Some(stamp) => self.scan_standing(alloc, files, log, number, stamp, by_digest),
        }
    }
}
