//! A sink in memory, whose bytes are visible, and of which one write can be made to fail.
ghost use Rattle.std.specs.Prelude.{◌≡◌, ◌<◌, true, nat_lt, Some};
ghost use Rattle.b2_host.specs.Output.{Prints};

use crate::script::raise;
use b2_host::fault::IoFault;
use b2_host::sink::Sink;
use std::alloc::Global;

/// A sink that keeps all that is written to it, in order.
#[derive(Drop)]
pub struct MemorySink {
    bytes: Vec<u8>,
    failing: u32,
    faults: u64,
    may_fail: bool,
    ghost covered: { 0 < failing → may_fail ≡ true },
}

impl MemorySink {
    ghost use Rattle.b2_memory.specs.Sinks.{sink_output, failing_write, new_output};

    /// No bytes, no faults, and no write that may fail; takes no memory.
    pub fn new(alloc: Global) -> MemorySink
        ensures output { sink_output result ≡ new_output }
        ensures failing { failing_write result ≡ 0 }
    {
        MemorySink {
            bytes: Vec::new(alloc),
            failing: 0,
            faults: 0,
            may_fail: false,
        }
    }

    /// The bytes that were written.
    pub fn bytes(&self) -> &[u8]
        ensures { (sink_output self.now).written ≡ Some result.now }
    {
        self.bytes.as_slice()
    }

    /// How often a write failed.
    pub fn fault_count(&self) -> u64
        ensures { result ≡ (sink_output self.now).faults }
    {
        self.faults
    }

    /// Lets one write fail and leave no byte: the one with this number from now on, counted from 1. At 0 none fails, and
    /// none may. It takes the place of what was asked before.
    pub fn fail_at(&mut self, write: u32)
        ensures failing { failing_write self.new ≡ write }
        ensures output { sink_output self.new ≡ record (sink_output self.old) { may_fail = nat_lt 0 write } }
    {
        self.failing = write;
        self.may_fail = write > 0;
    }
}

impl Sink for MemorySink {
    ghost use Rattle.b2_memory.specs.Sinks.{sink_output, SinkWrites};

    ghost output = { sink_output };

    fn write(&mut self, piece: &[u8]) -> Result<(), IoFault>
        ensures effect { Prints piece.now (sink_output self.old) (sink_output self.new) result }
        ensures exact { SinkWrites piece.now self.old self.new result }
    {
        let failing = self.failing == 1;
        self.failing = self.failing.saturating_sub(1);
        if failing {
            self.faults = raise(self.faults);
            return Err(IoFault::Failed);
        }
        self.bytes.extend_from_slice(piece)?;
        Ok(())
    }
}
