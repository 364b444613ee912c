//! What a call of a declaring rule declares.
use b2_base::list::List;
use b2_base::path::Path;
use b2_base::text::Text;
use b2_base::text_list::TextList;

/// The kind of a main target, which is the rule that declares it.
#[derive(Clone, Copy)]
pub enum Kind {
    Exe,
    Lib,
    Obj,
    Alias,
    Make,
    Install,
}

/// A rule that declares a test.
#[derive(Clone, Copy)]
pub enum TestRule {
    Compile,
    /// `compile-fail`
    CompileFail,
    Run,
    /// `run-fail`
    RunFail,
}

/// What the texts of a property list are.
#[derive(Clone, Copy)]
pub enum ListName {
    Requirements,
    /// `default-build`
    DefaultBuild,
    /// Usage requirements.
    Usage,
}

/// A list of property texts in a call, as they are written.
pub struct PropertyList {
    pub name: ListName,
    pub texts: TextList,
}

/// By hand, so that dropping one is one call.
impl Drop for PropertyList {
    fn drop(self) {
        let PropertyList { name: _, texts } = self;
        drop(texts);
    }
}

/// What a call of `exe`, `lib`, `obj`, `alias`, `make` or `install` declares.
pub struct MainTarget {
    pub kind: Kind,
    /// The name as it is written.
    pub name: Text,
    /// The sources, files and references.
    pub sources: TextList,
    /// The rule of a `make`, without its leading `@`; empty for other kinds.
    pub rule: Text,
    /// The property lists, in the order of the call.
    pub lists: List<PropertyList>,
}

/// By hand, so that dropping one is one call.
impl Drop for MainTarget {
    fn drop(self) {
        let MainTarget {
            kind: _,
            name,
            sources,
            rule,
            lists,
        } = self;
        drop(name);
        drop(sources);
        drop(rule);
        drop(lists);
    }
}

/// What a call of `compile`, `compile-fail`, `run` or `run-fail` declares.
pub struct Test {
    pub rule: TestRule,
    /// The name that is given, else the base of the first source.
    pub name: Text,
    /// The sources, files and references.
    pub sources: TextList,
    /// The list of requirements alone.
    pub lists: List<PropertyList>,
}

/// By hand, so that dropping one is one call.
impl Drop for Test {
    fn drop(self) {
        let Test {
            rule: _,
            name,
            sources,
            lists,
        } = self;
        drop(name);
        drop(sources);
        drop(lists);
    }
}

/// What a call of `project` says of its project. The output roots that it names were added when it ran.
pub struct Attributes {
    /// The id, which begins with a slash.
    pub id: Option<Text>,
    /// The property lists, in the order of the call; several may have one name.
    pub lists: List<PropertyList>,
}

/// By hand, so that dropping one is one call.
impl Drop for Attributes {
    fn drop(self) {
        let Attributes { id, lists } = self;
        drop(id);
        drop(lists);
    }
}

/// What a call of a declaring rule declares.
pub enum Declaration {
    /// `project`
    Project(Attributes),
    /// `exe`, `lib`, `obj`, `alias`, `make` and `install`
    Main(MainTarget),
    /// `explicit`: names of main targets.
    Explicit(TextList),
    /// `build-project`: a directory, relative to the owner's where it is not absolute.
    BuildProject(Path),
    /// `use-project`: an id, which begins with a slash, for a directory, relative to the owner's where it is not
    /// absolute.
    UseProject {
        id: Text,
        dir: Path,
    },
    /// `using gcc`, with the command of the compiler where one is given.
    Using {
        command: Option<Text>,
    },
    /// `feature.feature`
    Feature {
        name: Text,
        values: TextList,
        attributes: TextList,
    },
    /// `feature.compose`: a text `<feature>value` with the components of the value.
    Compose {
        property: Text,
        parts: TextList,
    },
    /// `type.register`: a type of files with its suffixes, each without the dot before it.
    FileType {
        name: Text,
        suffixes: TextList,
    },
    /// `generators.register-standard`: a generator with the types that it takes and gives.
    Generator {
        id: Text,
        sources: TextList,
        targets: TextList,
        requirements: TextList,
    },
    /// `import`, which does nothing.
    Import,
    /// `compile`, `compile-fail`, `run` and `run-fail`
    Test(Test),
}

// By hand, so that dropping a declaration is one call of this proved function: a derived drop would be taken apart at
// each exit, with a case for each kind of declaration.
impl Drop for Declaration {
    fn drop(self) {
        match self {
            Declaration::Project(_attributes) => {}
            Declaration::Main(_target) => {}
            Declaration::Explicit(_names) => {}
            Declaration::BuildProject(_dir) => {}
            Declaration::UseProject { id: _id, dir: _dir } => {}
            Declaration::Using { command: _command } => {}
            Declaration::Feature {
                name: _name,
                values: _values,
                attributes: _attributes,
            } => {}
            Declaration::Compose {
                property: _property,
                parts: _parts,
            } => {}
            Declaration::FileType {
                name: _name,
                suffixes: _suffixes,
            } => {}
            Declaration::Generator {
                id: _id,
                sources: _sources,
                targets: _targets,
                requirements: _requirements,
            } => {}
            Declaration::Import => {}
            Declaration::Test(_test) => {}
        }
    }
}
