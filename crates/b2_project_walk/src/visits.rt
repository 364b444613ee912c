//! The projects that were visited.
ghost use Rattle.std.specs.Prelude.{◌≡◌, ◌<◌, ◌^◌, ◌++◌, ◌∷◌, [], None, length, IfOk, OnOk, OnErr};
ghost use Rattle.std.specs.Option.{option_map, option_or};
ghost use Rattle.b2_project_walk.specs.Directories.{place_of, is_visited, last_visited, parent_of, visit_of, module_above, IsBefore, HaveParentsBefore};

use crate::directories::{module_name, way_to};
use b2_base::fault::OutOfMemory;
use b2_base::path::{Path, folder};
use b2_base::text_map::TextMap;
use b2_declared::visit::Visit;
use std::alloc::Global;
use std::marker::Model;

/// The projects that were visited, in order, seen as the list of them. Each is found by its directory, and stands after its parent.
pub struct Visits {
    visits: Vec<Visit>,
    places: TextMap<usize>,
}

/// By hand, so that dropping one is one call.
impl Drop for Visits {
    fn drop(self) {
        let Visits { visits, places } = self;
        drop(visits);
        drop(places);
    }
}

impl Model for Visits {
    ghost use Rattle.std.specs.Prelude.{List};
    ghost use Rattle.b2_declared.specs.declared.visit.Visit.{Visit as Visited};
    ghost use Rattle.b2_project_walk.specs.Indexing.{IsIndex};
    ghost use Rattle.b2_project_walk.specs.Directories.{HaveParentsBefore};

    ghost Value = { List Visited };

    ghost view = { λ v. v.visits.items };

    ghost invariant = { λ v. IsIndex v.places v.visits.items × HaveParentsBefore v.visits.items };
}

impl Visits {
    /// No project; takes no memory.
    pub fn new(alloc: Global) -> Visits
        ensures { result ≡ [] }
    {
        Visits {
            visits: Vec::new(alloc),
            places: TextMap::new(alloc),
        }
    }

    /// The projects, in order; takes no memory.
    pub fn as_slice(&self) -> &[Visit]
        ensures same { result.now ≡ self.now }
        ensures parents { HaveParentsBefore result.now }
    {
        self.visits.as_slice()
    }

    /// How many there are; takes no memory.
    pub fn len(&self) -> usize
        ensures { result ≡ length self.now }
    {
        self.visits.len()
    }

    /// There are fewer than 2^64.
    pub fn few(&self)
        ensures { length self.now < 2 ^ 64 }
    {
        let _count = self.len();
    }

    /// The place of a directory, if it was visited; takes no memory.
    fn place_of(&self, dir: &Path) -> Option<usize>
        ensures { result ≡ place_of dir.now self.now }
    {
        match self.places.get(dir.as_text()) {
            Some(place) => Some(*place),
            None => None,
        }
    }

    /// Whether a directory was visited; takes no memory.
    pub fn has(&self, dir: &Path) -> bool
        ensures { result ≡ is_visited dir.now self.now }
    {
        self.place_of(dir).is_some()
    }

    /// The place of the last of some directories that was visited, or this one; takes no memory.
    fn last_of(&self, first: Option<usize>, dirs: &[Path]) -> Option<usize>
        ensures { result ≡ option_or (last_visited self.now dirs.now) first }
    {
        let mut last = first;
        for dir in dirs {
            last = self.place_of(dir).or(last);
        }
        last
    }

    /// The place of the nearest project above a directory.
    fn parent_of(&self, alloc: Global, dir: &Path) -> Result<Option<usize>, OutOfMemory>
        ensures { IfOk result (λ place. place ≡ parent_of dir.now self.now) }
    {
        let folder = folder(alloc)?;
        let way = way_to(alloc, dir)?;
        Ok(self.last_of(self.place_of(&folder), way.as_slice()))
    }

    /// A further project: a directory that was not visited, with its file.
    pub fn visit_of(&self, alloc: Global, dir: &Path, file: Path) -> Result<Visit, OutOfMemory>
        ensures { IfOk result (λ visit. visit ≡ visit_of dir.now file self.now) }
    {
        Ok(Visit {
            dir: dir.copy()?,
            module: module_name(alloc, dir)?,
            parent: self.parent_of(alloc, dir)?,
            file,
        })
    }

    /// The project above another one, if there is one; takes no memory.
    pub fn above(&self, visit: &Visit) -> Option<&Visit>
        ensures { option_map (λ above. above.now.module) result ≡ module_above visit.now self.now }
    {
        match visit.parent {
            Some(place) => self.visits.get(place),
            None => None,
        }
    }

    /// Adds a project whose directory was not visited, and whose parent was. After an error all is as before.
    pub fn push(&mut self, visit: Visit) -> Result<(), OutOfMemory>
        requires new { place_of visit.dir self.old ≡ None }
        requires parent { IsBefore (length self.old) visit.parent }
        ensures ok { OnOk result (self.new ≡ self.old ++ visit ∷ []) }
        ensures err { OnErr result (self.new ≡ self.old) }
    {
        let dir = visit.dir.as_text().copy()?;
        let place = self.visits.len();
        self.visits.push(visit)?;
        match self.places.insert(dir, place) {
            Ok(_) => Ok(()),
            Err(_) => {
                let _visit = self.visits.pop();
                Err(OutOfMemory)
            }
        }
    }
}
