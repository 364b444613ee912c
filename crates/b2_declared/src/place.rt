//! The projects and the main targets of a load.
use b2_base::list::List;
use b2_base::path::Path;
use b2_base::path_list::PathList;
use b2_base::text::Text;
use b2_base::text_list::TextList;
use b2_declaring_calls::declaration::Kind;
use b2_props::pair_list::PairList;
use b2_props::requirement::Requirement;

/// A project: its directory and its file, from the folder, the name of its module, the place of its parent among the
/// projects, and what its file declares of it.
pub struct Place {
    pub dir: Path,
    pub file: Path,
    pub module: Text,
    pub parent: Option<usize>,
    pub requirements: List<Requirement>,
    pub usage: List<Requirement>,
    pub defaults: PairList,
    /// The directories that its `build-project` calls name, from the folder.
    pub builds: PathList,
    /// The names of its `explicit` calls.
    pub explicit: TextList,
}

/// By hand, so that dropping one is one call.
impl Drop for Place {
    fn drop(self) {
        let Place {
            dir,
            file,
            module,
            parent: _,
            requirements,
            usage,
            defaults,
            builds,
            explicit,
        } = self;
        drop(dir);
        drop(file);
        drop(module);
        drop(requirements);
        drop(usage);
        drop(defaults);
        drop(builds);
        drop(explicit);
    }
}

/// A main target: the place of its project, what its call says, and the line of the call.
pub struct Target {
    pub project: usize,
    pub name: Text,
    pub kind: Kind,
    pub sources: TextList,
    /// The rule of a `make`; empty for others.
    pub rule: Text,
    pub requirements: List<Requirement>,
    pub usage: List<Requirement>,
    pub defaults: PairList,
    pub line: u32,
}

/// By hand, so that dropping one is one call.
impl Drop for Target {
    fn drop(self) {
        let Target {
            project: _,
            name,
            kind: _,
            sources,
            rule,
            requirements,
            usage,
            defaults,
            line: _,
        } = self;
        drop(name);
        drop(sources);
        drop(rule);
        drop(requirements);
        drop(usage);
        drop(defaults);
    }
}

/// A call of a rule that declares a test: the place of its project, the rule, the name of the test, what the call says,
/// and its line.
pub struct TestCall {
    pub project: usize,
    pub rule: Text,
    pub name: Text,
    pub sources: TextList,
    pub requirements: List<Requirement>,
    pub line: u32,
}

/// By hand, so that dropping one is one call.
impl Drop for TestCall {
    fn drop(self) {
        let TestCall {
            project: _,
            rule,
            name,
            sources,
            requirements,
            line: _,
        } = self;
        drop(rule);
        drop(name);
        drop(sources);
        drop(requirements);
    }
}

/// The rule that answers an indirect requirement: the place of the project that requires it, the rule's name, and the line
/// of the call.
pub struct IndirectRule {
    pub project: usize,
    pub rule: Text,
    pub line: u32,
}

/// By hand, so that dropping one is one call.
impl Drop for IndirectRule {
    fn drop(self) {
        let IndirectRule {
            project: _,
            rule,
            line: _,
        } = self;
        drop(rule);
    }
}
