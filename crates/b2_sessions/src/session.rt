//! A session: events, one after another.
ghost use Rattle.std.specs.Prelude.{◌≡◌, [], false, length, IfOk, IfErr, OnOk};
ghost use Rattle.std.specs.List.{count_by, list_any};
ghost use Rattle.b2_memory.specs.Hosts.{told_outside, memory_of};
ghost use Rattle.b2_memory.specs.Scripts.{AreAmong, risks_of};
ghost use Rattle.b2_sessions.specs.Courses.{moment_of, NoWaitIsToFail, IsReady, IsSessionOf, HasPassed, TrueLogStays, EndsClean};
ghost use Rattle.b2_sessions.specs.Events.{writes_log, gives_answer};
ghost use Rattle.b2_sessions.specs.Results.{StopsBy, Ran, RanWhole};
ghost use Rattle.b2_sessions.specs.Scenes.{scene_of, WereRun};

use crate::fault::SessionFault;
use crate::happen::{run_event, writes_log};
use b2_drill::event::Event;
use b2_host::sink::Sink;
use b2_memory::memory::MemoryHost;
use b2_top::answer::Answer;
use std::alloc::Global;

/// Runs events in order, and adds the answers that they give.
fn run_all<S: Sink>(
    alloc: Global,
    host: &mut MemoryHost,
    events: &[Event],
    out: &mut S,
    answers: &mut Vec<Answer>,
) -> Result<(), SessionFault>
    requires idle { (told_outside host.old).children.running ≡ [] }
    requires calm { NoWaitIsToFail host.old }
    requires no_answers { answers.old.items ≡ [] }
    ensures ran { Ran events.now (scene_of host.old (S.output out.old)) answers.new.items
        (scene_of host.new (S.output out.new)) result }
    ensures ready { IsReady (told_outside host.new) }
{
    host.renew_risks();
    for (index, event) in events.iter().enumerate() {
        if writes_log(event) {
            return Err(SessionFault::LogEdit { index });
        }
        run_event(alloc, event, host, out, answers)?;
    }
    Ok(())
}

/// Runs events in order, of which all that is promised follows.
fn session<S: Sink>(
    alloc: Global,
    host: &mut MemoryHost,
    events: &[Event],
    out: &mut S,
) -> Result<Vec<Answer>, SessionFault>
    requires idle { (told_outside host.old).children.running ≡ [] }
    requires calm { NoWaitIsToFail host.old }
    ensures ran { RanWhole events.now (scene_of host.old (S.output out.old))
        (scene_of host.new (S.output out.new)) result }
    ensures ready { IsReady (told_outside host.new) }
{
    let mut answers = Vec::new(alloc);
    run_all(alloc, host, events, out, &mut answers)?;
    Ok(answers)
}

/// Runs events in order over a host and a sink, and gives the answers of its updates and stops. An edit writes or deletes a
/// file; an update is a call of the build command; a stop is such a call after which, or within which, all calls of the
/// host fail, and then the host is opened again. A call that runs out of memory answers so, and the session goes on.
pub fn run_session<S: Sink>(
    alloc: Global,
    host: &mut MemoryHost,
    events: &[Event],
    out: &mut S,
) -> Result<Vec<Answer>, SessionFault>
    requires idle { (told_outside host.old).children.running ≡ [] }
    // A wait that was listed to fail and has failed is not listed any more.
    requires calm { NoWaitIsToFail host.old }

    // All events were run one after another, with the answers in order, and no edit in them writes the log. This says exactly
    // what an edit did to the host, and what a stop told it before its call and did after it.
    ensures ran { IfOk result (λ answers. WereRun events.now (scene_of host.old (S.output out.old)) answers.items
        (scene_of host.new (S.output out.new))) }
    // So they were a session, as it is defined for any host.
    ensures session { IfOk result (λ answers. IsSessionOf events.now (moment_of host.old (S.output out.old)) answers.items
        (moment_of host.new (S.output out.new))) }
    ensures one_each { IfOk result (λ answers. length answers.items ≡ count_by gives_answer events.now) }
    ensures no_log_edit { OnOk result (list_any writes_log events.now ≡ false) }
    // An edit that writes the log is not run, and the events before it were. Where the session itself is out of memory, some
    // first events were.
    ensures stopped { IfErr result (StopsBy events.now (scene_of host.old (S.output out.old))
        (scene_of host.new (S.output out.new))) }
    // Whatever the result, another session may follow.
    ensures idle { (told_outside host.new).children.running ≡ [] }
    ensures calm { NoWaitIsToFail host.new }
    // No more may go wrong than what was listed at the beginning.
    ensures risks { AreAmong (told_outside host.new).risks (risks_of (memory_of host.old).listed) }
    ensures passed { HasPassed (moment_of host.old (S.output out.old)) (moment_of host.new (S.output out.new)) }
    // A true log stays true, whatever the result, where digests tell contents apart that an event judges by.
    ensures true_log { TrueLogStays events.now (moment_of host.old (S.output out.old))
        (moment_of host.new (S.output out.new)) }
    // After a last update that answered Ok each requested file has the bytes of the clean build of the present sources.
    ensures clean { IfOk result (λ answers. EndsClean events.now answers.items (moment_of host.old (S.output out.old))
        (moment_of host.new (S.output out.new))) }
{
    session(alloc, host, events, out)
}
