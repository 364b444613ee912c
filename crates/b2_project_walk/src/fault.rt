//! Why a load is refused.
ghost use Rattle.std.specs.Prelude.{◌≡◌};
ghost use Rattle.b2_project_walk.specs.Faults.{of_eval, of_lex, of_syntax};

use b2_base::fault::OutOfMemory;
use b2_base::path::Path;
use b2_base::text::Text;
use b2_features::fault::FeatureFault;
use jam_effects::fault::EvalFault;
use jam_lexer::fault::LexFault;
use jam_parser::fault::SyntaxFault;

/// Why a load has no project. A walk answers neither `Declaration` nor `Feature`; these come where calls are carried out.
#[derive(Drop)]
pub enum LoadFault {
    /// Neither `Jamroot` nor `Jamroot.jam` stands in the folder.
    NoJamroot,
    /// The directory was named as one of a project, and has no project file, or does not lie in the folder.
    NoJamfile {
        dir: Path,
    },
    /// The project file has this many bytes, which are too many; or the build text of the toolset has, whose path is `gcc`, since its
    /// command is that long.
    TooBig {
        path: Path,
        size: u64,
    },
    /// The project file, or the build text of the toolset, has no tokens.
    Lex {
        path: Path,
        fault: LexFault,
    },
    /// The tokens of the project file, or of the build text, have no tree.
    Syntax {
        path: Path,
        fault: SyntaxFault,
    },
    /// The evaluation of a project file, or of the build text, did not come to its end.
    Eval(EvalFault),
    /// A recorded call is refused as a whole: its lists have another shape, or what it declares is there already or may not be.
    Declaration {
        path: Path,
        rule: Text,
        line: u32,
    },
    /// A feature, a value or a property text of a recorded call is refused.
    Feature {
        path: Path,
        line: u32,
        fault: FeatureFault,
    },
    /// A call of the host failed.
    Host,
    /// No memory was left.
    OutOfMemory,
}

impl From<OutOfMemory> for LoadFault {
    ghost use Rattle.std.specs.Prelude.{◌≡◌};
    ghost use Rattle.b2_project_walk.specs.declared.fault.LoadFault.TheVariants as faults;

    ghost from_gives = { λ _ fault. fault ≡ faults.OutOfMemory };

    fn from(_error: OutOfMemory) -> LoadFault {
        LoadFault::OutOfMemory
    }
}

/// The fault of a load whose evaluation had a fault.
pub fn eval_fault(fault: EvalFault) -> LoadFault
    ensures { result ≡ of_eval fault }
{
    match fault {
        EvalFault::Host => LoadFault::Host,
        EvalFault::OutOfMemory => LoadFault::OutOfMemory,
        EvalFault::At { path, line, cause } => {
            LoadFault::Eval(EvalFault::At { path, line, cause })
        }
    }
}

/// The fault of a load whose file has no tokens.
pub fn lex_fault(path: Path, fault: LexFault) -> LoadFault
    ensures { result ≡ of_lex path fault }
{
    if let LexFault::OutOfMemory = fault {
        return LoadFault::OutOfMemory;
    }
    LoadFault::Lex { path, fault }
}

/// The fault of a load whose file has no tree.
pub fn syntax_fault(path: Path, line: u32, found: Text) -> LoadFault
    ensures { result ≡ of_syntax path line found }
{
    LoadFault::Syntax {
        path,
        fault: SyntaxFault::At { line, found },
    }
}
