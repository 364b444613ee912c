//! The current world with its native rules and files.
use crate::world::marking::marking_command;
use b2_base::fault::OutOfMemory;
use b2_memory::memory::MemoryHost;
use jam_natives::natives::JamNatives;
use jam_scope::mark::Mark;
use jam_scope::world::World;
use std::alloc::Global;
use std::mem::ManuallyDrop;
use transcript::answer::Answer;
use transcript::case_fault::CaseFault;
use transcript::command::{Command, Word};
use transcript::session::Session;
use transcript::words::no_words;

/// A world, the marks that were made of it, the newest last, the native rules with what they keep, and a host in memory.
#[derive(Drop)]
pub struct Scene {
    pub host: ManuallyDrop<MemoryHost>,
    pub natives: ManuallyDrop<JamNatives>,
    pub marks: Vec<Mark>,
    pub world: ManuallyDrop<World>,
}

impl Scene {
    /// A new world without a mark, nothing kept, and no files.
    pub fn new(alloc: Global) -> Result<Scene, OutOfMemory> {
        let host = ManuallyDrop::new(MemoryHost::new(alloc)?);
        let world = ManuallyDrop::new(World::new(alloc)?);
        Ok(Scene {
            host,
            natives: ManuallyDrop::new(JamNatives::new(alloc)),
            marks: Vec::new(alloc),
            world,
        })
    }

    fn renew(&mut self, alloc: Global, words: &[Word]) -> Result<Answer, CaseFault> {
        no_words(words)?;
        *self = Scene::new(alloc)?;
        Ok(Answer::new(alloc))
    }
}

impl Session for Scene {
    fn carry_out(&mut self, alloc: Global, command: &Command) -> Result<Answer, CaseFault> {
        match command.name() {
            "new" => self.renew(alloc, command.words()),
            _ => marking_command(alloc, self, command),
        }
    }
}
