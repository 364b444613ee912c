//! The current main target: its project, its properties, and what is supplied to it.
use crate::words::{file_in, pairs};
use b2_base::path::Path;
use b2_base::path_list::PathList;
use b2_base::text::Text;
use b2_generators::types::Types;
use b2_props::pair_list::PairList;
use b2_virtual::entry::{Entry, EntryList, Supply, file_entry};
use b2_virtual::tails::source_tail;
use std::alloc::Global;
use transcript::answer::Answer;
use transcript::case_fault::CaseFault;
use transcript::command::Word;
use transcript::words::{halves, own_path, own_text, path};

/// A project, by its directory, its module and its file.
#[derive(Drop)]
pub struct Project {
    pub dir: Path,
    pub owner: Text,
    pub file: Path,
}

/// What is supplied to a main target, and its properties.
#[derive(Drop)]
pub struct Needs {
    pub properties: PairList,
    pub sources: Vec<Supply>,
    pub parts: Vec<Supply>,
    pub order: PathList,
}

impl Needs {
    pub fn new(alloc: Global) -> Needs {
        Needs {
            properties: PairList::new(alloc),
            sources: Vec::new(alloc),
            parts: Vec::new(alloc),
            order: PathList::new(alloc),
        }
    }

    /// Puts pairs in the place of the properties.
    pub fn put_properties(&mut self, alloc: Global, words: &[Word]) -> Result<Answer, CaseFault> {
        self.properties = pairs(alloc, words)?;
        Ok(Answer::new(alloc))
    }

    /// Adds what a main target supplies that is no source: `ENTRIES : CARRIED`.
    pub fn add_part(
        &mut self,
        alloc: Global,
        types: &Types,
        words: &[Word],
    ) -> Result<Answer, CaseFault> {
        self.parts.push(target_supply(alloc, types, words)?)?;
        Ok(Answer::new(alloc))
    }

    /// Adds what a main target supplies that is a source: `ENTRIES : CARRIED`.
    pub fn add_source_target(
        &mut self,
        alloc: Global,
        types: &Types,
        words: &[Word],
    ) -> Result<Answer, CaseFault> {
        self.sources.push(target_supply(alloc, types, words)?)?;
        self.add_part(alloc, types, words)
    }

    /// Adds files as sources.
    pub fn add_files(
        &mut self,
        alloc: Global,
        types: &Types,
        words: &[Word],
    ) -> Result<Answer, CaseFault> {
        for word in words {
            self.sources.push(file_supply(alloc, types, word)?)?;
            self.parts.push(file_supply(alloc, types, word)?)?;
        }
        Ok(Answer::new(alloc))
    }
}

fn module_of(alloc: Global, dir: &Path) -> Result<Text, CaseFault> {
    let dir = dir.as_str();
    let name = format!(in alloc; "Jamfile<{dir}>")?;
    own_text(alloc, name.as_str())
}

/// The project in a directory.
pub fn project_in(alloc: Global, dir: &str) -> Result<Project, CaseFault> {
    let dir = own_path(alloc, dir)?;
    let owner = module_of(alloc, &dir)?;
    let file = file_in(alloc, dir.as_str())?;
    Ok(Project { dir, owner, file })
}

/// A file that a step made. Below `bin` its tail is the rest of its path.
fn made_entry(alloc: Global, types: &Types, word: &Word) -> Result<Entry, CaseFault> {
    let made = own_path(alloc, word.as_str()?)?;
    let tail = match made.as_str().strip_prefix("bin/") {
        Some(tail) => own_path(alloc, tail)?,
        None => source_tail(alloc, &made)?,
    };
    let file_type = own_text(alloc, types.type_of(&made))?;
    Ok(Entry {
        path: made,
        file_type,
        tail,
        is_made: true,
    })
}

fn made_entries(alloc: Global, types: &Types, words: &[Word]) -> Result<EntryList, CaseFault> {
    let mut made = EntryList::new(alloc);
    for word in words {
        made.push(made_entry(alloc, types, word)?)?;
    }
    Ok(made)
}

fn target_supply(alloc: Global, types: &Types, words: &[Word]) -> Result<Supply, CaseFault> {
    let (entries, carried) = halves(words);
    Ok(Supply {
        entries: made_entries(alloc, types, entries)?,
        carried: made_entries(alloc, types, carried)?,
    })
}

/// What a file supplies.
fn file_supply(alloc: Global, types: &Types, word: &Word) -> Result<Supply, CaseFault> {
    let path = path(alloc, word.as_str()?)?;
    let mut entries = EntryList::new(alloc);
    entries.push(file_entry(alloc, types, &path)?)?;
    Ok(Supply {
        entries,
        carried: EntryList::new(alloc),
    })
}
