//! Where evaluation is.
ghost use Rattle.std.specs.Prelude.{◌<◌, ◌-◌};
ghost use Rattle.jam_effects.specs.Causes.{cause_of, IsWhole, IsFault};
ghost use Rattle.jam_effects.specs.Spots.{spot_of};

use crate::fault::{EvalCause, EvalFault};
use b2_base::text::Text;

/// How many levels may be open at once.
pub const LEVELS: u32 = 256;

/// How deep conditions, and `on` in brackets, may be nested in one another. No source nests them deeper than 260; where a tree
/// does, the answer is out of memory.
pub const NESTED: u32 = 1000;

/// The statement that is being run, by its file and line, and how many levels more may be opened there.
#[derive(Clone, Copy)]
pub struct At<'a> {
    pub path: &'a Text,
    pub line: u32,
    pub levels: u32,
}

impl At<'_> {
    /// Out of memory where there is none for the path of the place.
    pub fn fault(&self, cause: EvalCause) -> EvalFault
        requires { IsWhole (cause_of cause) }
        ensures { IsFault (spot_of self.now) (cause_of cause) result }
    {
        match self.path.copy() {
            Ok(path) => EvalFault::At {
                path,
                line: self.line,
                cause,
            },
            Err(_) => {
                drop(cause);
                EvalFault::OutOfMemory
            }
        }
    }
}
