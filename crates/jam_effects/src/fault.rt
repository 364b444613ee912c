//! Why evaluation has no value.
use b2_base::expand_fault::ExpandFault;
use b2_base::fault::OutOfMemory;
use b2_base::path::Path;
use b2_base::text::Text;
use jam_lexer::fault::LexFault;
use jam_patterns::native_fault::NativeFault;

/// Why a statement is not evaluated to its end.
#[derive(Drop)]
pub enum EvalCause {
    /// No rule and no native rule has this name, and its actions, if it has some, recorded no call; or a step's name has no actions.
    UnknownRule { name: Text },
    /// The rule of this name cannot take its arguments, or some are left over.
    Arity { rule: Text },
    /// All turns were taken; there were this many.
    Turns { budget: u32 },
    /// 256 levels are open, and one more was to be opened.
    Depth,
    /// A word has no expansion, or a list is too large.
    Expand(ExpandFault),
    /// A native rule ended evaluation with this text.
    Exit { text: Text },
    /// A native rule refused.
    Native(NativeFault),
    /// No source file stands at this path.
    Include { path: Path },
    /// An included file has no tokens.
    Lex(LexFault),
    /// The tokens of an included file have no tree: the line and the text of the first one with which none goes on.
    Syntax { line: u32, found: Text },
    /// An included file has this many bytes, which are too many.
    TooBig { path: Path, size: u64 },
}

/// Why an evaluation has no value.
#[derive(Drop)]
pub enum EvalFault {
    /// A call of the host failed.
    Host,
    /// No memory was left.
    OutOfMemory,
    /// A statement was not evaluated to its end: the innermost one that was being run, by its file and line.
    At {
        path: Text,
        line: u32,
        cause: EvalCause,
    },
}

impl From<OutOfMemory> for EvalFault {
    ghost use Rattle.std.specs.Prelude.{◌≡◌};
    ghost use Rattle.jam_effects.specs.declared.fault.EvalFault.TheVariants as faults;

    ghost from_gives = { λ _ fault. fault ≡ faults.OutOfMemory };

    fn from(_error: OutOfMemory) -> EvalFault {
        EvalFault::OutOfMemory
    }
}
