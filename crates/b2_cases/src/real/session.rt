//! The commands over the system.
use crate::real::child_commands::child_command;
use crate::real::program_commands::program;
use crate::real::system::System;
use b2_host_cases::host_calls::write;
use b2_realhost::real_host::RealHost;
use b2_realhost::real_sink::RealSink;
use std::alloc::Global;
use std::mem::ManuallyDrop;
use transcript::answer::Answer;
use transcript::case_fault::CaseFault;
use transcript::command::Command;
use transcript::session::Session;
use transcript::words::texts;

/// The runtime, over which a command of the program has a host and a sink of its own; the real host of the other commands, which
/// is never taken apart, and their sink.
#[derive(Drop)]
pub struct OnSystem<R: System> {
    rt: R,
    host: ManuallyDrop<RealHost<R>>,
    sink: RealSink<R>,
}

impl<R: System> OnSystem<R> {
    /// A host and a sink over the runtime.
    pub fn new(rt: R) -> OnSystem<R> {
        OnSystem {
            rt,
            host: ManuallyDrop::new(RealHost::new(rt)),
            sink: RealSink::new(rt),
        }
    }
}

impl<R: System> Session for OnSystem<R> {
    fn carry_out(&mut self, alloc: Global, command: &Command) -> Result<Answer, CaseFault> {
        let words = command.words();
        match command.name() {
            "b2" => program(alloc, self.rt, texts(alloc, words)?.as_slice()),
            "write" => write(alloc, &mut self.sink, words),
            _ => child_command(alloc, &mut *self.host, command),
        }
    }
}
