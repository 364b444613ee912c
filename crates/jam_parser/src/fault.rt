//! Why tokens have no tree.

use b2_base::fault::OutOfMemory;
use b2_base::text::Text;

/// Why tokens have no tree.
#[derive(Drop)]
pub enum SyntaxFault {
    /// The tokens up to this one begin no tree, and those before it do. Where all tokens begin a tree and are none,
    /// `found` is empty.
    At {
        /// The line of the token, counted from 1; where `found` is empty that of the last token.
        line: u32,
        /// The text of the token.
        found: Text,
    },
    /// No memory was left.
    OutOfMemory,
}

impl From<OutOfMemory> for SyntaxFault {
    ghost use Rattle.std.specs.Prelude.{◌≡◌};
    ghost use Rattle.jam_parser.specs.declared.fault.SyntaxFault.TheVariants as faults;

    ghost from_gives = { λ _ fault. fault ≡ faults.OutOfMemory };

    fn from(_error: OutOfMemory) -> SyntaxFault {
        SyntaxFault::OutOfMemory
    }
}
