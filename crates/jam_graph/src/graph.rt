//! The graph of a file.
use b2_base::list::List;
use b2_base::path::Path;
use b2_base::text::Text;
use b2_base::text_list::TextList;
use jam_scope::world::World;

/// A call of actions: their name and module, the targets and the sources of the call, and its line.
pub struct Act {
    pub name: Text,
    pub module: Text,
    pub targets: TextList,
    pub sources: TextList,
    pub line: u32,
}

/// By hand, so that dropping one is one call.
impl Drop for Act {
    fn drop(self) {
        let Act {
            name,
            module,
            targets,
            sources,
            line: _,
        } = self;
        drop(name);
        drop(module);
        drop(targets);
        drop(sources);
    }
}

impl Act {
    ghost use Rattle.std.specs.Prelude.{◌≡◌};

    /// The same act with other sources; takes no memory.
    pub fn with_sources(self, sources: TextList) -> Act
        ensures { result ≡ record self { sources = sources } }
    {
        let Act {
            name,
            module,
            targets,
            sources: before,
            line,
        } = self;
        drop(before);
        Act {
            name,
            module,
            targets,
            sources,
            line,
        }
    }
}

/// What the rules of a file declared, in order of the calls; within a call the first text of a pair varies slowest.
pub struct Graph {
    /// The file.
    pub path: Path,
    /// The world that it left.
    pub world: World,
    /// `all`, and each text of a call, at its first place.
    pub targets: TextList,
    pub depends: List<(Text, Text)>,
    pub includes: List<(Text, Text)>,
    pub always: TextList,
    /// `all` is the first.
    pub notfile: TextList,
    pub nocare: TextList,
    pub acts: List<Act>,
}

/// By hand, so that dropping one is one call.
impl Drop for Graph {
    fn drop(self) {
        let Graph {
            path,
            world,
            targets,
            depends,
            includes,
            always,
            notfile,
            nocare,
            acts,
        } = self;
        drop(path);
        drop(world);
        drop(targets);
        drop(depends);
        drop(includes);
        drop(always);
        drop(notfile);
        drop(nocare);
        drop(acts);
    }
}
