//! The projects of a load and their declaring calls.
ghost use Rattle.std.specs.Prelude.{◌≡◌, ◌<◌, length};
ghost use Rattle.b2_declared.specs.DeclaringCalls.{visit_of};

use b2_base::path::Path;
use b2_base::text::Text;
use b2_declaring_calls::declaration::Declaration;

/// A project that was loaded: its directory and its file, from the folder, the name of its module, and the place of its
/// parent among the projects, where it has one.
pub struct Visit {
    pub dir: Path,
    pub file: Path,
    pub module: Text,
    pub parent: Option<usize>,
}

/// By hand, so that dropping one is one call.
impl Drop for Visit {
    fn drop(self) {
        let Visit {
            dir,
            file,
            module,
            parent: _,
        } = self;
        drop(dir);
        drop(file);
        drop(module);
    }
}

/// A recorded call of a declaring rule: the place of the project whose file made it, the rule, the line, what it declares
/// (nothing where the lists of the call have another shape than those of the rule), and whether the output roots that it
/// names were refused when it ran.
pub struct Call {
    pub project: usize,
    pub rule: Text,
    pub line: u32,
    pub declaration: Option<Declaration>,
    pub refused: bool,
}

/// By hand, so that dropping one is one call.
impl Drop for Call {
    fn drop(self) {
        let Call {
            project: _,
            rule,
            line: _,
            declaration,
            refused: _,
        } = self;
        drop(rule);
        drop(declaration);
    }
}

/// The project of a call; takes no memory.
pub(crate) fn visit_of<'a>(visits: &'a [Visit], call: &Call) -> &'a Visit
    requires { call.now.project < length visits.now }
    ensures { result.now ≡ visit_of visits.now call.now }
{
    &visits[call.project]
}
