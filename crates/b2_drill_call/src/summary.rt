//! The line that sums up a drill.
ghost use Rattle.std.specs.Prelude.{◌≡◌, IfOk, string_bytes};
ghost use Rattle.std.specs.List.{count_by};
ghost use Rattle.b2_runs.specs.Events.{is_start};
ghost use Rattle.b2_top.specs.Writing.{Says};
ghost use Rattle.b2_drill_call.specs.Drilled.{summary_line};

use b2_base::fault::OutOfMemory;
use b2_host::children::ChildEvent;
use b2_host::sink::Sink;
use b2_top::answer::Answer;
use b2_top::lines::write_made;
use b2_top::tell::unwritten;
use std::alloc::Global;

fn count_starts(events: &[ChildEvent]) -> usize
    ensures { result ≡ count_by is_start events.now }
{
    events
        .iter()
        .filter(|event| matches!(event, ChildEvent::Start(_)))
        .count()
}

fn summary_line(alloc: Global, n: u32, events: &[ChildEvent]) -> Result<String, OutOfMemory>
    ensures { IfOk result (λ line. string_bytes line ≡ summary_line n (count_by is_start events.now)) }
{
    let starts = count_starts(events);
    Ok(format!(in alloc; "drill {n}: updates 7, starts {starts}, status 0\n")?)
}

/// Writes the summary of a drill in which each update answered Ok, where these events of children came.
pub(crate) fn tell_summary<S: Sink>(
    alloc: Global,
    n: u32,
    events: &[ChildEvent],
    out: &mut S,
) -> Answer
    ensures { Says Answer.Ok (summary_line n (count_by is_start events.now)) (S.output out.old) (S.output out.new) result }
{
    match write_made(summary_line(alloc, n, events), out) {
        Ok(()) => Answer::Ok,
        Err(fault) => unwritten(fault),
    }
}
