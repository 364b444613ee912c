//! Directories that were named.
ghost use Rattle.std.specs.Prelude.{◌≡◌, ◌≤◌, [], None, take, length, slice_get, option_map};
ghost use Rattle.b2_project_walk.specs.Directories.{first_new};

use crate::visits::Visits;
use b2_base::path::Path;
use b2_base::path_list::PathList;
use std::alloc::Global;

/// Directories in order of naming, and how many of the first ones were visited.
pub struct Queue {
    pub dirs: Vec<Path>,
    pub passed: usize,
}

/// By hand, so that dropping one is one call.
impl Drop for Queue {
    fn drop(self) {
        let Queue { dirs, passed: _ } = self;
        drop(dirs);
    }
}

impl Queue {
    /// No directory; takes no memory.
    pub fn new(alloc: Global) -> Queue
        ensures dirs { result.dirs.items ≡ [] }
        ensures passed { result.passed ≡ 0 }
    {
        Queue {
            dirs: Vec::new(alloc),
            passed: 0,
        }
    }

    /// Some directories, of which none was looked at; takes no memory.
    pub fn of(dirs: PathList) -> Queue
        ensures dirs { result.dirs.items ≡ dirs }
        ensures passed { result.passed ≡ 0 }
    {
        Queue {
            dirs: dirs.into_vec(),
            passed: 0,
        }
    }

    /// Passes the first directories that were visited; takes no memory.
    pub fn pass(&mut self, visits: &Visits)
        requires passed { first_new visits.now (take self.old.passed self.old.dirs.items) ≡ None }
        requires short { self.old.passed ≤ length self.old.dirs.items }
        ensures front { slice_get self.new.dirs.items self.new.passed ≡ first_new visits.now self.old.dirs.items }
        ensures dirs { self.new.dirs ≡ self.old.dirs }
        ensures passed { first_new visits.now (take self.new.passed self.new.dirs.items) ≡ None }
        ensures short { self.new.passed ≤ length self.new.dirs.items }
    {
        let mut passed = self.passed;
        while passed < self.dirs.len() && visits.has(&self.dirs[passed]) {
            passed += 1;
        }
        self.passed = passed;
    }

    /// The first directory that was not passed, if there is one; takes no memory.
    pub fn front(&self) -> Option<&Path>
        ensures { option_map (λ dir. dir.now) result ≡ slice_get self.now.dirs.items self.now.passed }
    {
        self.dirs.get(self.passed)
    }
}
