//! All that the files of a load declare.
ghost use Rattle.std.specs.Prelude.{◌≡◌, ◌<◌, ◌∷◌, [], ◌++◌, length, OnOk, OnErr};

use crate::ids::Ids;
use crate::place::{IndirectRule, Place, Target, TestCall};
use b2_base::fault::OutOfMemory;
use b2_base::list::List;
use b2_features::registry::Registry;
use b2_generators::types::Types;

/// All that the files of a load declare. A project, and the project of a main target, a test or a rule, is named by its
/// place among `places`, from 0; an indirect requirement by the place of its rule among `indirect`.
#[derive(Drop)]
pub struct Declared {
    /// The projects, in order of loading. A parent stands before its project, where it did among the visits.
    pub places: List<Place>,
    /// The main targets, in order of recording.
    pub targets: List<Target>,
    /// The tests, in order of recording.
    pub tests: List<TestCall>,
    /// The ids of projects, each with its directory from the folder. The first call that gives an id counts.
    pub ids: Ids,
    pub registry: Registry,
    pub types: Types,
    /// The rules of indirect requirements, in order of reading.
    pub indirect: List<IndirectRule>,
}

impl Declared {
    /// Adds a main target behind the others, and so behind those of its project. After an error all is as before.
    pub fn add_target(&mut self, target: Target) -> Result<(), OutOfMemory>
        requires { target.project < length self.old.places }
        ensures ok { OnOk result (self.new ≡ record self.old { targets = self.old.targets ++ target ∷ [] }) }
        ensures err { OnErr result (self.new ≡ self.old) }
    {
        self.targets.push(target)
    }
}
