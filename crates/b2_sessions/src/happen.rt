//! One event of a session.
ghost use Rattle.std.specs.Prelude.{◌≡◌};
ghost use Rattle.b2_memory.specs.Hosts.{told_outside};
ghost use Rattle.b2_sessions.specs.Courses.{IsReady, HasHappenedOrNot};
ghost use Rattle.b2_sessions.specs.Events.{writes_log};
ghost use Rattle.b2_sessions.specs.Scenes.{scene_of};

use crate::change::{edit, stop, update};
use b2_base::fault::OutOfMemory;
use b2_drill::event::Event;
use b2_host::sink::Sink;
use b2_memory::memory::MemoryHost;
use b2_top::answer::Answer;
use std::alloc::Global;

/// Whether the event would write the log. Takes no memory.
pub fn writes_log(event: &Event) -> bool
    ensures { result ≡ writes_log event.now }
{
    match event {
        Event::Edit { path, bytes } => bytes.is_some() && path.as_str() == "bin/b2.log",
        Event::Update { words: _ } => false,
        Event::Stop {
            words: _,
            calls: _,
            tear: _,
        } => false,
    }
}

/// Runs an event, and adds the answer that it gives. The room for an answer is taken first:
/// where no memory is left nothing changes.
pub fn run_event<S: Sink>(
    alloc: Global,
    event: &Event,
    host: &mut MemoryHost,
    out: &mut S,
    answers: &mut Vec<Answer>,
) -> Result<(), OutOfMemory>
    requires { IsReady (told_outside host.old) }
    ensures happened { HasHappenedOrNot event.now (scene_of host.old (S.output out.old))
        (scene_of host.new (S.output out.new)) answers.old.items answers.new.items result }
    ensures ready { IsReady (told_outside host.new) }
{
    answers.reserve(1)?;
    match event {
        Event::Edit { path, bytes } => edit(path, bytes, host),
        Event::Update { words } => {
            update(alloc, words.as_slice(), host, out, answers);
            Ok(())
        }
        Event::Stop { words, calls, tear } => {
            let limits = (*calls, *tear);
            stop(alloc, words.as_slice(), limits, host, out, answers);
            Ok(())
        }
    }
}
