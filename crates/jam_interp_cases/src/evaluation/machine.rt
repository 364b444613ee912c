//! What evaluation works on.
use b2_base::fault::OutOfMemory;
use b2_memory::memory::MemoryHost;
use jam_natives::natives::JamNatives;
use jam_scope::world::World;
use std::alloc::Global;
use std::mem::ManuallyDrop;

/// A world with its natives and files.
#[derive(Drop)]
pub struct Machine {
    pub world: ManuallyDrop<World>,
    pub natives: ManuallyDrop<JamNatives>,
    pub host: ManuallyDrop<MemoryHost>,
    /// How many lines of ECHO were shown.
    pub shown: usize,
}

impl Machine {
    /// An empty world over no files.
    pub fn new(alloc: Global) -> Result<Machine, OutOfMemory> {
        let world = ManuallyDrop::new(World::new(alloc)?);
        let host = ManuallyDrop::new(MemoryHost::new(alloc)?);
        Ok(Machine {
            world,
            natives: ManuallyDrop::new(JamNatives::new(alloc)),
            host,
            shown: 0,
        })
    }
}
