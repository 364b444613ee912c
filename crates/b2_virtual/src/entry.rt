//! The files that main targets give.
ghost use Rattle.std.specs.Prelude.{◌≡◌, [], ◌++◌, IfOk, OnOk};
ghost use Rattle.b2_virtual.specs.Supplies.{file_entry, is_of, is_header, is_library};

use crate::tails::source_tail;
use b2_base::fault::OutOfMemory;
use b2_base::list::List;
use b2_base::path::Path;
use b2_base::text::Text;
use b2_generators::types::Types;
use std::alloc::Global;

/// A file that a main target gives: its path, the name of its type, the tail that files converted from it get theirs from,
/// and whether a step makes it.
pub struct Entry {
    pub path: Path,
    pub file_type: Text,
    pub tail: Path,
    pub is_made: bool,
}

/// By hand, so that dropping one is one call.
impl Drop for Entry {
    fn drop(self) {
        let Entry {
            path,
            file_type,
            tail,
            is_made: _,
        } = self;
        drop(path);
        drop(file_type);
        drop(tail);
    }
}

/// Entries in order, seen as the list of them.
pub type EntryList = List<Entry>;

/// What a file or a main target gives: its entries, and the libraries that it carries on.
pub struct Supply {
    pub entries: EntryList,
    pub carried: EntryList,
}

/// By hand, so that dropping one is one call.
impl Drop for Supply {
    fn drop(self) {
        let Supply { entries, carried } = self;
        drop(entries);
        drop(carried);
    }
}

impl Entry {
    /// The same entry again.
    pub fn copy(&self) -> Result<Entry, OutOfMemory>
        ensures { IfOk result (λ made. made ≡ self.now) }
    {
        let path = self.path.copy()?;
        let file_type = self.file_type.copy()?;
        let tail = self.tail.copy()?;
        Ok(Entry {
            path,
            file_type,
            tail,
            is_made: self.is_made,
        })
    }

    /// Whether the file is of a type; takes no memory.
    pub fn is_of(&self, file_type: &str) -> bool
        ensures { result ≡ is_of file_type.now self.now }
    {
        file_type == self.file_type.as_str()
    }

    /// Whether the file is a header; takes no memory.
    pub fn is_header(&self) -> bool
        ensures { result ≡ is_header self.now }
    {
        self.is_of("H")
    }

    /// Whether the file is a library; takes no memory.
    pub fn is_library(&self) -> bool
        ensures { result ≡ is_library self.now }
    {
        self.is_of("STATIC_LIB") || self.is_of("SHARED_LIB")
    }
}

impl Supply {
    /// The same entries and carried libraries again.
    pub fn copy(&self, alloc: Global) -> Result<Supply, OutOfMemory>
        ensures { IfOk result (λ made. made ≡ self.now) }
    {
        let mut entries = EntryList::new(alloc);
        push_copies(&mut entries, self.entries.as_slice())?;
        let mut carried = EntryList::new(alloc);
        push_copies(&mut carried, self.carried.as_slice())?;
        Ok(Supply { entries, carried })
    }
}

/// The entry of a file that no step makes: its type is that of its path, and its tail is the path itself.
pub fn file_entry(alloc: Global, types: &Types, path: &Path) -> Result<Entry, OutOfMemory>
    ensures { IfOk result (λ made. made ≡ file_entry types.now.types path.now) }
{
    let file_type = Text::new(alloc, types.type_of(path))?;
    let tail = source_tail(alloc, path)?;
    Ok(Entry {
        path: path.copy()?,
        file_type,
        tail,
        is_made: false,
    })
}

/// Entries that carry no libraries on; takes no memory.
pub fn only(alloc: Global, entries: EntryList) -> Supply
    ensures { result ≡ record { entries = entries; carried = [] } }
{
    Supply {
        entries,
        carried: EntryList::new(alloc),
    }
}

/// Entries, then others.
pub fn joined(entries: EntryList, more: EntryList) -> Result<EntryList, OutOfMemory>
    ensures { IfOk result (λ made. made ≡ entries ++ more) }
{
    let mut made = entries.into_vec();
    made.append(&mut more.into_vec())?;
    Ok(EntryList::from_vec(made))
}

/// Adds copies of entries at the end.
pub fn push_copies(made: &mut EntryList, entries: &[Entry]) -> Result<(), OutOfMemory>
    ensures { OnOk result (made.new ≡ made.old ++ entries.now) }
{
    for entry in entries {
        made.push(entry.copy()?)?;
    }
    Ok(())
}
