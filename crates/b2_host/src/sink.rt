//! A place to write to.
ghost use Rattle.b2_host.specs.Output.{Output, Prints};

use crate::fault::IoFault;

/// Takes bytes, in order.
pub trait Sink {
    /// All that the sink is to its callers.
    ghost output: { Self → Output };

    /// Writes a piece. A failed write leaves a prefix of its piece; where no memory was left, nothing was written.
    fn write(&mut self, piece: &[u8]) -> Result<(), IoFault>
        ensures { Prints piece.now (output self.old) (output self.new) result };
}
