//! The program's standard output.
ghost use Rattle.std.specs.Prelude.{◌≡◌, true, None};

use b2_host::fault::IoFault;
use b2_host::sink::Sink;
use std::io::Print;

/// Standard output, with the count of its faults. Its bytes are not visible.
#[derive(Drop)]
pub struct RealSink<R: Clone + Drop> {
    rt: R,
    faults: u64,
}

impl<R: Print + Clone + Drop> RealSink<R> {
    /// The sink over the runtime: nothing has failed.
    pub fn new(rt: R) -> RealSink<R>
        ensures { ⟦<RealSink<R> as Sink>⟧.output result ≡ record { written = None; faults = 0; may_fail = true } }
    {
        RealSink { rt, faults: 0 }
    }
}

impl<R: Print + Clone + Drop> Sink for RealSink<R> {
    ghost output = { λ sink. record { written = None; faults = sink.faults; may_fail = true } };

    fn write(&mut self, piece: &[u8]) -> Result<(), IoFault> {
        match self.rt.write_all(piece) {
            Ok(()) => Ok(()),
            Err(_error) => {
                self.faults = self.faults.saturating_add(1);
                Err(IoFault::Failed)
            }
        }
    }
}
