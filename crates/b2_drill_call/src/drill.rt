//! The drill command.
ghost use Rattle.std.specs.Prelude.{◌≡◌, ◌<◌, ◌≤◌, Some, None, IfSome};
ghost use Rattle.b2_host.specs.Outside.{Outside};
ghost use Rattle.b2_host.specs.OutputLaws.{OutKeeps};
ghost use Rattle.b2_memory.specs.Hosts.{memory_of, told_outside};
ghost use Rattle.b2_memory.specs.Memories.{new_memory};
ghost use Rattle.b2_update.specs.Moments.{moment};
ghost use Rattle.b2_top.specs.Endings.{IsUsageOrCutShort};
ghost use Rattle.b2_drill_call.specs.Asked.{drill_of};
ghost use Rattle.b2_drill_call.specs.Drilled.{AnswersDrill, GoesWithoutFaults, HasDrilled};

use crate::asked::drill_of;
use crate::session::run_well;
use crate::summary::tell_summary;
use b2_base::text::Text;
use b2_command_line::fault::WordsFault;
use b2_host::sink::Sink;
use b2_memory::memory::MemoryHost;
use b2_top::answer::Answer;
use b2_top::tell::tell_usage;
use std::alloc::Global;

/// Runs the drill of a project with so many targets.
fn drill<S: Sink>(alloc: Global, n: u32, host: &mut MemoryHost, out: &mut S) -> Answer
    requires some { 0 < n }
    requires new { memory_of host.old ≡ new_memory }
    ensures ends { HasDrilled n (moment (told_outside host.old) (S.output out.old)) (moment (told_outside host.new) (S.output out.new)) result }
    ensures gone { n ≤ 2000 → GoesWithoutFaults n (told_outside host.old) (told_outside host.new) }
    ensures out_keeps { OutKeeps (S.output out.old) (S.output out.new) }
{
    match run_well(alloc, n, host) {
        Ok(()) => tell_summary(alloc, n, host.events(), out),
        Err(_error) => Answer::OutOfMemory,
    }
}

/// Runs the drill that the words ask for, over a host as `MemoryHost::new` gives it: a project of so many targets is written
/// there and updated, some sources are edited with an update after each, and a last update finds nothing changed. Then one line
/// sums it up.
///
/// Each update of the drill answers Ok or out of memory. Where one answers out of memory, so does the drill.
pub fn run_drill<S: Sink>(
    alloc: Global,
    words: &[Text],
    host: &mut MemoryHost,
    out: &mut S,
) -> Answer
    requires new { memory_of host.old ≡ new_memory }
    // After Ok each update of the drill has answered Ok, and exactly its summary was written. Usage comes only where the words
    // are not `--drill=N` with N from 1 to 2,000, with the usage line; SinkFault only where a write failed. Failed, Refused and
    // HostFault never come.
    ensures ends { AnswersDrill words.now (moment (told_outside host.old) (S.output out.old)) (moment (told_outside host.new) (S.output out.new)) result }
    // Words that ask for no drill get the usage line, unless the sink fails or memory runs out, and the host stays.
    ensures usage { drill_of words.now ≡ None → IsUsageOrCutShort result }
    ensures alone { drill_of words.now ≡ None → told_outside host.new ≡ told_outside host.old }
    // Whatever the answer, what was run is the beginning of the drill, and each update in it answered Ok or out of memory.
    ensures gone { IfSome (drill_of words.now) (λ n. GoesWithoutFaults n (told_outside host.old) (told_outside host.new)) }
    ensures out_keeps { OutKeeps (S.output out.old) (S.output out.new) }
{
    match drill_of(alloc, words) {
        Ok(n) => drill(alloc, n, host, out),
        Err(WordsFault::Usage) => tell_usage(out),
        Err(WordsFault::OutOfMemory) => Answer::OutOfMemory,
    }
}

/// Runs the drill that the words ask for over a host in memory of its own.
pub fn drill_in_memory<S: Sink>(alloc: Global, words: &[Text], out: &mut S) -> Answer
    ensures ends { (last : Outside) × AnswersDrill words.now (moment new_memory.outside (S.output out.old)) (moment last (S.output out.new)) result }
    ensures usage { drill_of words.now ≡ None → IsUsageOrCutShort result }
    ensures out_keeps { OutKeeps (S.output out.old) (S.output out.new) }
{
    match MemoryHost::new(alloc) {
        Ok(mut host) => run_drill(alloc, words, &mut host, out),
        Err(_error) => Answer::OutOfMemory,
    }
}
