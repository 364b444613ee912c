//! Why a file has no graph, or targets in it no plan.
use b2_base::fault::OutOfMemory;
use b2_base::path::Path;
use b2_base::text::Text;
use jam_effects::fault::EvalFault;
use jam_lexer::fault::LexFault;
use jam_parser::fault::SyntaxFault;

/// Why a file has no graph, or targets in it no plan. The first that is so is answered: of the file `NoFile`, `TooBig`, `Lex`,
/// `Syntax` and `Eval`; then `NoTarget`; then for each step `TooManySteps`, `MixedNotFile`, `Eval` of a body, `LocationOutside` and
/// `PathClash`.
#[derive(Drop)]
pub enum JamFault {
    /// The file does not stand.
    NoFile { path: Path },
    /// It has more than 1,048,576 bytes.
    TooBig { path: Path, size: u64 },
    /// It has no tokens.
    Lex { path: Path, fault: LexFault },
    /// It has no tree.
    Syntax { path: Path, fault: SyntaxFault },
    /// It does not run to its end, or a body has no expansion.
    Eval(EvalFault),
    /// A word is no target.
    NoTarget { name: Text },
    /// Of a step's targets this is the first that is no file, and others are files.
    MixedNotFile { target: Text },
    /// An output cannot stand beside others.
    PathClash { path: Path },
    /// An output lies under no root.
    LocationOutside { path: Path },
    /// There is a step more than a plan may have: this many are too many.
    TooManySteps { count: u32 },
    /// A call of the host failed.
    Host,
    /// No memory was left.
    OutOfMemory,
}

impl From<OutOfMemory> for JamFault {
    ghost use Rattle.std.specs.Prelude.{◌≡◌};
    ghost use Rattle.jam_graph.specs.declared.fault.JamFault.TheVariants as faults;

    ghost from_gives = { λ _ fault. fault ≡ faults.OutOfMemory };

    fn from(_error: OutOfMemory) -> JamFault {
        JamFault::OutOfMemory
    }
}
