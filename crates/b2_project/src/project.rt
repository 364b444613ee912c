//! A loaded project.
ghost use Rattle.std.specs.Prelude.{◌≡◌, ◌<◌, length, OnOk, OnErr};
ghost use Rattle.b2_project.specs.Targets.{with_target};

use b2_base::fault::OutOfMemory;
use b2_declared::place::Target;
use b2_declared::whole::Declared;
use jam_natives::natives::JamNatives;
use jam_scope::world::World;

/// All projects of a folder that were loaded: the world that their files left, what was recorded while they ran, and what
/// their calls declare.
#[derive(Drop)]
pub struct Project {
    pub world: World,
    pub natives: JamNatives,
    pub declared: Declared,
}

impl Project {
    /// Adds a main target behind the others, and so behind those of its project. After an error all is as before.
    pub fn add_target(&mut self, target: Target) -> Result<(), OutOfMemory>
        requires { target.project < length self.old.declared.places }
        ensures ok { OnOk result (self.new ≡ with_target self.old target) }
        ensures err { OnErr result (self.new ≡ self.old) }
    {
        self.declared.add_target(target)
    }
}
