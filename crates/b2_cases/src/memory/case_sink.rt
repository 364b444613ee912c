//! The sink of the cases.
ghost use Rattle.std.specs.Prelude.{◌≡◌, ◌++◌, ℕ, Some, true, take, is_err, IsErrOf};
ghost use Rattle.b2_host.specs.Faults.{IoFaultTold};

use b2_host::fault::IoFault;
use b2_host::sink::Sink;
use std::alloc::Global;

/// A write that fails: its number from now on, counted from 1, where 0 is none, and how many bytes of its piece stay.
#[derive(Clone, Copy)]
pub struct FailingWrite {
    pub number: u32,
    pub stays: usize,
}

/// Takes bytes in memory. One write may fail, in the middle of its piece too.
#[derive(Drop)]
pub struct CaseSink {
    bytes: Vec<u8>,
    failing: FailingWrite,
    faults: u64,
}

impl CaseSink {
    /// No bytes and no faults, and a write that is to fail.
    pub fn new(alloc: Global, failing: FailingWrite) -> CaseSink {
        CaseSink {
            bytes: Vec::new(alloc),
            failing,
            faults: 0,
        }
    }

    /// The bytes that were written.
    pub fn bytes(&self) -> &[u8] {
        self.bytes.as_slice()
    }

    /// Writes the first bytes of a piece, and fails.
    fn fail(&mut self, piece: &[u8]) -> Result<(), IoFault>
        ensures faults { IoFaultTold self.old.faults self.new.faults result }
        ensures failed { IsErrOf result IoFault.Failed → (count : ℕ) × (self.new.bytes.items ≡ self.old.bytes.items ++ take count piece.now) }
        ensures memory { IsErrOf result IoFault.OutOfMemory → self.new.bytes.items ≡ self.old.bytes.items }
        ensures fails { is_err result ≡ true }
    {
        let stays = self.failing.stays.min(piece.len());
        self.bytes.extend_from_slice(&piece[..stays])?;
        self.faults = self.faults.saturating_add(1);
        Err(IoFault::Failed)
    }
}

impl Sink for CaseSink {
    ghost output = { λ sink. record { written = Some sink.bytes.items; faults = sink.faults; may_fail = true } };

    fn write(&mut self, bytes: &[u8]) -> Result<(), IoFault> {
        let is_failing = self.failing.number == 1;
        self.failing.number = self.failing.number.saturating_sub(1);
        if is_failing {
            return self.fail(bytes);
        }
        self.bytes.extend_from_slice(bytes)?;
        Ok(())
    }
}
