//! The files of a host in memory.
ghost use Rattle.std.specs.Prelude.{◌≡◌, ℕ, ◌+◌, ◌≤◌, ◌<◌, List, [], map, IsTrue, IfSome, IfOk, OnOk, option_copied, vec_len, vec_capacity};
ghost use Rattle.std.specs.Option.{option_map};
ghost use Rattle.std.specs.FinMap as map_of;
ghost use Rattle.std.specs.List.Sorted.{IsStrictlySortedBy};
ghost use Rattle.std.specs.Ordering.{nat_cmp};
ghost use Rattle.std.specs.Cmp.Lexicographic.{slice_cmp};
ghost use Rattle.std.proofs.Props.{props};
ghost use Rattle.b2_base.specs.Segments.{texts};
ghost use Rattle.b2_host.specs.Disks.{bytes_at, StatTold, ReadTold, without};
ghost use Rattle.b2_host.specs.ChildProcesses.{read_at};
ghost use Rattle.b2_host.specs.FileCalls.{with_piece};
ghost use Rattle.b2_host.specs.Listings.{IsListed};
ghost use Rattle.b2_files.specs.Buffers.{buffers_of, bytes_in, is_within};
ghost use Rattle.b2_files.specs.Names.{AddsName, Gathered};
ghost use Rattle.b2_files.specs.Writes.{written, all_written};
ghost use Rattle.b2_files.specs.Stores.{place_of, all_known, all_within, write_of, writes_in, IsPlaced};

use crate::contents::{Content, Contents};
use crate::file_bytes::FileBytes;
use crate::names::name_in;
use crate::places::Places;
use crate::version::Version;
use b2_base::fault::OutOfMemory;
use b2_base::path::Path;
use b2_base::text::Text;
use b2_base::text_list::TextList;
use b2_host::files::ReadAnswer;
use std::alloc::Global;

/// All that ever stood, in order, and where the file of each path is among it.
pub struct Store {
    pub past: Vec<Version>,
    pub places: Places,
    pub contents: Contents,
    pub ghost placed: { IsPlaced (writes_in (buffers_of contents) past.items) places } by { Prim.hlevel props },
    ghost within: { IsTrue (all_within (buffers_of contents) past.items) },
}

/// By hand, so that dropping one is one call.
impl Drop for Store {
    fn drop(self) {
        let Store {
            past,
            places,
            contents,
        } = self;
        drop(past);
        drop(places);
        drop(contents);
    }
}

impl Store {
    ghost use Rattle.b2_files.specs.StoreDisks.{told, knows};

    /// Nothing stands, and nothing stood.
    pub fn new(alloc: Global) -> Store
        ensures past { result.past.items ≡ [] }
        ensures places { result.places ≡ map_of.from_entries [] }
    {
        Store {
            past: Vec::new(alloc),
            places: Places::new(alloc),
            contents: Contents::new(alloc),
        }
    }

    fn place(&self, path: &Path) -> Option<usize>
        ensures value { result ≡ place_of self.now.places path.now }
        ensures within { IfSome result (λ place. place < vec_len self.now.past) }
    {
        self.places.get(path)
    }

    /// The stamp of the file at a path.
    pub fn stamp(&self, path: &Path) -> Option<u64>
        ensures { StatTold path.now result (told self.now).now }
    {
        match self.place(path) {
            None => None,
            Some(place) => Some(place as u64 + 1),
        }
    }

    /// The bytes of the file at a path; none where a folder is there or nothing.
    pub fn bytes(&self, path: &Path) -> Option<&[u8]>
        ensures { option_copied result ≡ bytes_at (told self.now).now path.now }
    {
        match self.place(path) {
            None => None,
            Some(place) => Some(self.contents.bytes(&self.past[place].content)),
        }
    }

    /// The file at a path, for a child that is given it.
    pub fn held(&self, alloc: Global, path: &Path) -> Result<Option<FileBytes>, OutOfMemory>
        ensures { IfOk result (λ found. option_map write_of found ≡ read_at (told self.now).now path.now) }
    {
        match self.place(path) {
            None => Ok(None),
            Some(place) => {
                let version = &self.past[place];
                let bytes = self.contents.share(alloc, &version.content)?;
                let path = version.path.copy()?;
                Ok(Some(FileBytes { path, bytes }))
            }
        }
    }

    /// The bytes at a path, where they are no more than `most`.
    pub fn read(&self, alloc: Global, path: &Path, most: u64) -> Result<ReadAnswer, OutOfMemory>
        ensures { IfOk result (λ answer. ReadTold path.now most answer (told self.now).now) }
    {
        match self.bytes(path) {
            None => Ok(ReadAnswer::Missing),
            Some(bytes) => {
                let size = bytes.len() as u64;
                if size > most {
                    return Ok(ReadAnswer::TooBig { size });
                }
                let bytes = Vec::from_slice(alloc, bytes)?;
                Ok(ReadAnswer::Bytes(bytes))
            }
        }
    }

    /// The bytes at a path, or none, and a piece after them. What stands stays as it is.
    pub fn add(&mut self, alloc: Global, path: &Path, piece: &[u8]) -> Result<Content, OutOfMemory>
        ensures bytes { IfOk result (λ made. bytes_in (buffers_of self.new.contents) made ≡ with_piece path.now piece.now (told self.old)) }
        ensures within { IfOk result (λ made. IsTrue (is_within (buffers_of self.new.contents) made)) }
        ensures disk { told self.new ≡ told self.old }
        ensures places { self.new.places ≡ self.old.places }
        ensures len { vec_len self.new.past ≡ vec_len self.old.past }
        ensures room { vec_capacity self.new.past ≡ vec_capacity self.old.past }
    {
        match self.place(path) {
            None => Content::whole(alloc, piece),
            Some(place) => self.contents.add(alloc, &self.past[place].content, piece),
        }
    }

    /// Leaves no file at a path.
    pub fn remove(&mut self, path: &Path)
        ensures disk { told self.new ≡ without path.now (told self.old) }
        ensures known { (other : List ℕ) → knows self.new other ≡ knows self.old other }
        ensures len { vec_len self.new.past ≡ vec_len self.old.past }
        ensures room { vec_capacity self.new.past ≡ vec_capacity self.old.past }
    {
        self.places.set(path, None);
    }

    /// Takes room for so many entries more.
    fn make_room(&mut self, more: usize) -> Result<(), OutOfMemory>
        ensures ok { OnOk result (vec_len self.new.past + more ≤ vec_capacity self.new.past) }
        ensures room { vec_capacity self.old.past ≤ vec_capacity self.new.past }
        ensures past { self.new.past.items ≡ self.old.past.items }
        ensures len { vec_len self.new.past ≡ vec_len self.old.past }
        ensures places { self.new.places ≡ self.old.places }
        ensures contents { self.new.contents ≡ self.old.contents }
    {
        self.past.reserve(more)?;
        Ok(())
    }

    /// Makes a path known.
    fn know(&mut self, path: &Path) -> Result<(), OutOfMemory>
        ensures known { OnOk result (IsTrue (knows self.new path.now)) }
        ensures stays { (other : List ℕ) → IsTrue (knows self.old other) → IsTrue (knows self.new other) }
        ensures disk { told self.new ≡ told self.old }
        ensures contents { self.new.contents ≡ self.old.contents }
        ensures len { vec_len self.new.past ≡ vec_len self.old.past }
        ensures room { vec_capacity self.new.past ≡ vec_capacity self.old.past }
    {
        self.places.know(path)?;
        Ok(())
    }

    /// Makes the paths of some entries known.
    fn know_all(&mut self, entries: &[FileBytes]) -> Result<(), OutOfMemory>
        ensures known { OnOk result (IsTrue (all_known self.new.places entries.now)) }
        ensures stays { (other : List ℕ) → IsTrue (knows self.old other) → IsTrue (knows self.new other) }
        ensures disk { told self.new ≡ told self.old }
        ensures contents { self.new.contents ≡ self.old.contents }
        ensures len { vec_len self.new.past ≡ vec_len self.old.past }
        ensures room { vec_capacity self.new.past ≡ vec_capacity self.old.past }
    {
        for entry in entries {
            self.know(&entry.path)?;
        }
        Ok(())
    }

    /// Makes the paths of some entries known, and takes room for so many more.
    pub fn prepare(&mut self, entries: &[FileBytes], more: usize) -> Result<(), OutOfMemory>
        ensures known { OnOk result (IsTrue (all_known self.new.places entries.now)) }
        ensures ok { OnOk result (vec_len self.new.past + more ≤ vec_capacity self.new.past) }
        ensures stays { (other : List ℕ) → IsTrue (knows self.old other) → IsTrue (knows self.new other) }
        ensures disk { told self.new ≡ told self.old }
        ensures contents { self.new.contents ≡ self.old.contents }
        ensures len { vec_len self.new.past ≡ vec_len self.old.past }
        ensures room { vec_capacity self.old.past ≤ vec_capacity self.new.past }
    {
        self.know_all(entries)?;
        self.make_room(more)
    }

    /// Makes a path known, and takes room for so many entries more.
    pub fn prepare_one(&mut self, path: &Path, more: usize) -> Result<(), OutOfMemory>
        ensures known { OnOk result (IsTrue (knows self.new path.now)) }
        ensures ok { OnOk result (vec_len self.new.past + more ≤ vec_capacity self.new.past) }
        ensures stays { (other : List ℕ) → IsTrue (knows self.old other) → IsTrue (knows self.new other) }
        ensures disk { told self.new ≡ told self.old }
        ensures contents { self.new.contents ≡ self.old.contents }
        ensures len { vec_len self.new.past ≡ vec_len self.old.past }
        ensures room { vec_capacity self.old.past ≤ vec_capacity self.new.past }
    {
        self.know(path)?;
        self.make_room(more)
    }

    /// Puts a version, whose path is known, into room that was taken.
    pub fn put(&mut self, version: Version)
        requires known { IsTrue (knows self.old version.path) }
        requires within { IsTrue (is_within (buffers_of self.old.contents) version.content) }
        requires room { vec_len self.old.past < vec_capacity self.old.past }
        ensures disk { told self.new ≡ written version.path (bytes_in (buffers_of self.old.contents) version.content) (told self.old) }
        ensures known { (other : List ℕ) → knows self.new other ≡ knows self.old other }
        ensures len { vec_len self.new.past ≡ vec_len self.old.past + 1 }
        ensures room { vec_capacity self.new.past ≡ vec_capacity self.old.past }
    {
        let place = self.past.len();
        self.places.set(&version.path, Some(place));
        self.past.push_reserved(version);
    }

    /// Puts an entry, whose path is known, into room that was taken.
    fn put_entry(&mut self, entry: FileBytes)
        requires known { IsTrue (knows self.old entry.path) }
        requires room { vec_len self.old.past < vec_capacity self.old.past }
        ensures disk { told self.new ≡ written entry.path entry.bytes.value.items (told self.old) }
        ensures known { (other : List ℕ) → knows self.new other ≡ knows self.old other }
        ensures len { vec_len self.new.past ≡ vec_len self.old.past + 1 }
        ensures room { vec_capacity self.new.past ≡ vec_capacity self.old.past }
    {
        let FileBytes { path, bytes } = entry;
        let content = Content::Whole(bytes);
        self.put(Version { path, content });
    }

    /// Puts entries, whose paths are known, into room that was taken.
    pub fn put_all(&mut self, entries: Vec<FileBytes>)
        requires known { IsTrue (all_known self.old.places entries.items) }
        requires room { vec_len self.old.past + vec_len entries ≤ vec_capacity self.old.past }
        ensures disk { told self.new ≡ all_written (map write_of entries.items) (told self.old) }
        ensures known { (other : List ℕ) → knows self.new other ≡ knows self.old other }
        ensures len { vec_len self.new.past ≡ vec_len self.old.past + vec_len entries }
        ensures room { vec_capacity self.new.past ≡ vec_capacity self.old.past }
    {
        for entry in entries {
            self.put_entry(entry);
        }
    }

    /// Adds the name of a file that stands directly in a directory.
    fn list_one(
        &self,
        alloc: Global,
        names: &mut TextList,
        path: &Path,
        dir: &Path,
    ) -> Result<(), OutOfMemory>
        ensures { OnOk result (AddsName (told self.now).now dir.now path.now names.old names.new) }
    {
        if self.stamp(path).is_none() {
            return Ok(());
        }
        if let Some(name) = name_in(path, dir) {
            names.push(Text::new(alloc, name)?)?;
        }
        Ok(())
    }

    /// The names of those of some paths that are directly in a directory.
    fn list_names(
        &self,
        alloc: Global,
        paths: &[&Path],
        dir: &Path,
    ) -> Result<TextList, OutOfMemory>
        requires { IsStrictlySortedBy (slice_cmp nat_cmp) (texts paths.now) }
        ensures { IfOk result (Gathered (told self.now).now dir.now (texts paths.now) []) }
    {
        let mut names = TextList::new(alloc);
        for path in paths {
            self.list_one(alloc, &mut names, path, dir)?;
        }
        Ok(names)
    }

    /// The names of the files directly in a directory, in byte order.
    pub fn list(&self, alloc: Global, dir: &Path) -> Result<TextList, OutOfMemory>
        ensures { IfOk result (λ names. IsListed (told self.now).now dir.now names) }
    {
        let paths = self.places.known(alloc)?;
        self.list_names(alloc, paths.as_slice(), dir)
    }
}
