//! The place of the last line about each subject.
ghost use Rattle.std.specs.Prelude.{◌≡◌, ◌≢◌, Option, Some, None, if◌then◌else◌, IfOk, OnOk, OnErr};
ghost use Rattle.std.specs.BTreeMap.{get, Updates};
ghost use Rattle.b2_log.specs.declared.subject.Subject.{Subject};
ghost use Rattle.b2_log.specs.Finding.{subject_eq};
ghost use Rattle.b2_log.specs.Places.{place_in};

use crate::subject::Subject;
use b2_base::fault::OutOfMemory;
use b2_base::path::Path;
use std::alloc::Global;
use std::collections::BTreeMap;

/// The place of the last line about each subject, by outputs and by scanned paths.
#[derive(Drop)]
pub struct Latest {
    steps: BTreeMap<Vec<Path>, usize>,
    scans: BTreeMap<Path, usize>,
}

/// Gives a key that has a value the one that it had before, or none. Takes no memory.
fn restore<K: Ord + Drop>(map: &mut BTreeMap<K, usize>, key: K, before: Option<usize>)
    requires { get K.cmp map.old key ≢ None }
    ensures { Updates K.cmp map.old map.new key before }
{
    match before {
        None => {
            map.remove(&key);
        }
        Some(place) => match map.insert(key, place) {
            Ok(_) => {}
            Err(_) => unreachable!(),
        },
    }
}

impl Latest {
    /// No place for any subject.
    pub fn new(alloc: Global) -> Latest
        ensures { (subject : Subject) → place_in result subject ≡ None }
    {
        Latest {
            steps: BTreeMap::new(alloc),
            scans: BTreeMap::new(alloc),
        }
    }

    /// The place for the outputs of a step.
    pub fn of_outputs(&self, outs: &[Path]) -> Option<usize>
        ensures { result ≡ place_in self.now (Subject.Outputs outs.now) }
    {
        self.steps.get(outs).copied()
    }

    /// The place for a file that was scanned.
    pub fn of_scanned(&self, path: &Path) -> Option<usize>
        ensures { result ≡ place_in self.now (Subject.Scanned path.now) }
    {
        self.scans.get(path).copied()
    }

    /// Puts a place for a subject, and answers the one that it had before. After an error all is as before.
    pub fn put(&mut self, subject: Subject, place: usize) -> Result<Option<usize>, OutOfMemory>
        ensures ok { OnOk result ((other : Subject) → place_in self.new other ≡ (if subject_eq subject other then Some place else place_in self.old other)) }
        ensures before { IfOk result (λ before. before ≡ place_in self.old subject) }
        ensures err { OnErr result ((other : Subject) → place_in self.new other ≡ place_in self.old other) }
    {
        match subject {
            Subject::Outputs(outs) => Ok(self.steps.insert(outs.into_vec(), place)?),
            Subject::Scanned(path) => Ok(self.scans.insert(path, place)?),
        }
    }

    /// Gives a subject that has a place the one that it had before, or none. Takes no memory.
    pub fn restore(&mut self, subject: Subject, before: Option<usize>)
        requires { place_in self.old subject ≢ None }
        ensures { (other : Subject) → place_in self.new other ≡ (if subject_eq subject other then before else place_in self.old other) }
    {
        match subject {
            Subject::Outputs(outs) => restore(&mut self.steps, outs.into_vec(), before),
            Subject::Scanned(path) => restore(&mut self.scans, path, before),
        }
    }
}
