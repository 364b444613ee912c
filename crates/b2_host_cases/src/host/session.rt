//! The current map, host and sink.
use crate::answers::bytes_answer;
use crate::host::text_commands::text_command;
use crate::host_calls::write;
use b2_base::fault::OutOfMemory;
use b2_base::text::Text;
use b2_base::text_map::TextMap;
use b2_memory::memory::MemoryHost;
use b2_memory::memory_sink::MemorySink;
use std::alloc::Global;
use std::mem::ManuallyDrop;
use transcript::answer::Answer;
use transcript::case_fault::CaseFault;
use transcript::command::{Command, Word};
use transcript::session::Session;
use transcript::words::{both, no_words, number, only, own_text, text};

/// A map, a host and a sink, each as it was made. A map or a host that another one takes the place of stays until the process
/// ends, so that none is taken apart.
#[derive(Drop)]
pub struct HostSession {
    map: ManuallyDrop<TextMap<Text>>,
    host: ManuallyDrop<MemoryHost>,
    sink: MemorySink,
}

/// `insert TEXT VALUE`: gives a text a value in the map, and answers the one before.
fn insert(alloc: Global, map: &mut TextMap<Text>, words: &[Word]) -> Result<Answer, CaseFault> {
    let (name, value) = both(words)?;
    let name = text(alloc, name)?;
    let value = own_text(alloc, value)?;
    let before = ManuallyDrop::new(map.insert(ManuallyDrop::into_inner(name), value)?);
    match &*before {
        None => Answer::line(alloc, "none"),
        Some(before) => Answer::line(alloc, before.as_str()),
    }
}

/// `get TEXT`: the value of a text in the map.
fn get(alloc: Global, map: &TextMap<Text>, words: &[Word]) -> Result<Answer, CaseFault> {
    let name = text(alloc, only(words)?)?;
    match map.get(&name) {
        None => Answer::line(alloc, "none"),
        Some(value) => Answer::line(alloc, value.as_str()),
    }
}

/// `fail_at WRITE`: lets one write fail.
fn fail_at(alloc: Global, sink: &mut MemorySink, words: &[Word]) -> Result<Answer, CaseFault> {
    sink.fail_at(number(only(words)?)?);
    Ok(Answer::new(alloc))
}

impl HostSession {
    /// An empty map, a host without files or children, and a sink without bytes.
    pub fn new(alloc: Global) -> Result<HostSession, OutOfMemory> {
        Ok(HostSession {
            map: ManuallyDrop::new(TextMap::new(alloc)),
            host: ManuallyDrop::new(MemoryHost::new(alloc)?),
            sink: MemorySink::new(alloc),
        })
    }

    fn renew(&mut self, alloc: Global, words: &[Word]) -> Result<Answer, CaseFault> {
        no_words(words)?;
        *self = HostSession::new(alloc)?;
        Ok(Answer::new(alloc))
    }
}

/// Carries out a command on the sink, or another one that asks for no more than a host. `bytes` shows what was written, and
/// `sink_faults` how often a write failed.
fn sink_command(
    alloc: Global,
    sink: &mut MemorySink,
    host: &mut MemoryHost,
    command: &Command,
) -> Result<Answer, CaseFault> {
    match command.name() {
        "write" => write(alloc, sink, command.words()),
        "fail_at" => fail_at(alloc, sink, command.words()),
        "bytes" => bytes_answer(alloc, sink.bytes()),
        "sink_faults" => Answer::number(alloc, sink.fault_count()),
        _ => text_command(alloc, host, command),
    }
}

impl Session for HostSession {
    fn carry_out(&mut self, alloc: Global, command: &Command) -> Result<Answer, CaseFault> {
        match command.name() {
            "new" => self.renew(alloc, command.words()),
            "insert" => insert(alloc, &mut *self.map, command.words()),
            "get" => get(alloc, &*self.map, command.words()),
            _ => sink_command(alloc, &mut self.sink, &mut *self.host, command),
        }
    }
}
