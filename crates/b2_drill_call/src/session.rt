//! The session of a drill.
ghost use Rattle.std.specs.Prelude.{◌≡◌, ◌<◌, ◌≤◌, OnOk, IfOk};
ghost use Rattle.std.specs.List.{list_all};
ghost use Rattle.b2_memory.specs.Hosts.{memory_of, told_outside};
ghost use Rattle.b2_memory.specs.Memories.{new_memory};
ghost use Rattle.b2_drill_call.specs.Drilled.{is_well, HasAnswered, IsDrilled, GoesWithoutFaults};

use b2_base::fault::OutOfMemory;
use b2_drill::drill::drill_events;
use b2_drill_laws::laws::drills_go_well;
use b2_memory::memory::MemoryHost;
use b2_memory::memory_sink::MemorySink;
use b2_sessions::session::run_session;
use b2_top::answer::Answer;
use std::alloc::Global;

/// Whether each answer has the status 0, which only Ok has. Takes no memory, but stack for each of them.
fn are_well(answers: &[Answer]) -> bool
    ensures { result ≡ list_all is_well answers.now }
{
    match answers {
        [] => true,
        [first, more @ ..] => first.status() == 0 && are_well(more),
    }
}

/// Runs the events of a drill, whose updates write to a sink of their own, in memory. Gives the answers of its updates.
fn run_events(alloc: Global, n: u32, host: &mut MemoryHost) -> Result<Vec<Answer>, OutOfMemory>
    requires some { 0 < n }
    requires new { memory_of host.old ≡ new_memory }
    ensures answered { IfOk result (λ given. HasAnswered n (told_outside host.old) given.items (told_outside host.new)) }
    ensures gone { n ≤ 2000 → GoesWithoutFaults n (told_outside host.old) (told_outside host.new) }
{
    drills_go_well();
    let events = drill_events(alloc, n)?;
    let mut out = MemorySink::new(alloc);
    match run_session(alloc, host, events.as_slice(), &mut out) {
        Ok(answers) => Ok(answers),
        Err(_fault) => Err(OutOfMemory),
    }
}

/// Runs a drill. Where an update answers out of memory, so does this.
pub(crate) fn run_well(alloc: Global, n: u32, host: &mut MemoryHost) -> Result<(), OutOfMemory>
    requires some { 0 < n }
    requires new { memory_of host.old ≡ new_memory }
    ensures drilled { OnOk result (IsDrilled n (told_outside host.old) (told_outside host.new)) }
    ensures gone { n ≤ 2000 → GoesWithoutFaults n (told_outside host.old) (told_outside host.new) }
{
    let answers = run_events(alloc, n, host)?;
    if are_well(answers.as_slice()) {
        Ok(())
    } else {
        Err(OutOfMemory)
    }
}
