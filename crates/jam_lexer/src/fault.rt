//! Why bytes have no tokens.
ghost use Rattle.std.specs.Prelude.{◌≡◌};

use b2_base::fault::OutOfMemory;
use std::alloc::AllocFailed;
use thiserror::Error;

/// Why bytes have no tokens. Lines are counted from 1.
#[derive(Debug, Drop, Error)]
pub enum LexFault {
    /// The byte at this offset is zero, or no whole character in UTF-8 begins there.
    #[error("byte {at} is not text")]
    NotUtf8 { at: u32 },
    /// The quotes of a word that begins on this line are not closed.
    #[error("line {line}: open quote")]
    OpenQuote { line: u32 },
    /// The body that the `{` on this line opens is not closed.
    #[error("line {line}: open actions")]
    OpenActions { line: u32 },
    #[error("out of memory")]
    OutOfMemory,
}

impl From<OutOfMemory> for LexFault {
    ghost use Rattle.jam_lexer.specs.declared.fault.LexFault.TheVariants as faults;

    ghost from_gives = { λ _ fault. fault ≡ faults.OutOfMemory };

    fn from(_error: OutOfMemory) -> LexFault {
        LexFault::OutOfMemory
    }
}

impl<T: Drop> From<AllocFailed<T>> for LexFault {
    ghost use Rattle.jam_lexer.specs.declared.fault.LexFault.TheVariants as faults;

    ghost from_gives = { λ _ fault. fault ≡ faults.OutOfMemory };

    fn from(_error: AllocFailed<T>) -> LexFault {
        LexFault::OutOfMemory
    }
}
