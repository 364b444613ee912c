//! What an event of each kind does to a host in memory.
ghost use Rattle.std.specs.Prelude.{◌≡◌, ◌<◌, OnOk, OnErr, vec_len, vec_capacity};
ghost use Rattle.b2_drill.specs.declared.event.Event.TheVariants.{Update as by_update, Stop as by_stop};
ghost use Rattle.b2_memory.specs.Hosts.{told_outside, memory_of};
ghost use Rattle.b2_memory.specs.Memories.{with_edit};
ghost use Rattle.b2_sessions.specs.Courses.{IsReady, OneMore};
ghost use Rattle.b2_sessions.specs.Scenes.{scene_of, IsStopped};

use crate::call::call;
use b2_base::fault::OutOfMemory;
use b2_base::list::List;
use b2_base::path::Path;
use b2_base::text::Text;
use b2_host::sink::Sink;
use b2_memory::memory::MemoryHost;
use b2_top::answer::Answer;
use std::alloc::Global;

/// Writes these bytes to a file, or deletes it where there are none. Where no memory is left nothing changes.
pub fn edit(path: &Path, bytes: &Option<List<u8>>, host: &mut MemoryHost) -> Result<(), OutOfMemory>
    requires { IsReady (told_outside host.old) }
    ensures ok { OnOk result (memory_of host.new ≡ with_edit path.now bytes.now (memory_of host.old)) }
    ensures err { OnErr result (memory_of host.new ≡ memory_of host.old) }
    ensures ready { IsReady (told_outside host.new) }
{
    match bytes {
        None => host.edit(path, None),
        Some(bytes) => host.edit(path, Some(bytes.as_slice())),
    }
}

/// Makes an update, and adds its answer, for which room was taken.
pub fn update<S: Sink>(
    alloc: Global,
    words: &[Text],
    host: &mut MemoryHost,
    out: &mut S,
    answers: &mut Vec<Answer>,
)
    requires ready { IsReady (told_outside host.old) }
    requires room { vec_len answers.old < vec_capacity answers.old }
    ensures more { OneMore (by_update words.now) (scene_of host.old (S.output out.old))
        (scene_of host.new (S.output out.new)) answers.old.items answers.new.items }
    ensures ready { IsReady (told_outside host.new) }
{
    let answer = call(alloc, words, host, out);
    answers.push_reserved(answer);
}

/// Makes an update that stops: after so many calls of the host each call fails, and a write that fails leaves so many
/// bytes of its piece. Then the host is opened again.
fn stopped<S: Sink>(
    alloc: Global,
    words: &[Text],
    limits: (u32, u32),
    host: &mut MemoryHost,
    out: &mut S,
) -> Answer
    requires { IsReady (told_outside host.old) }
    ensures stopped { IsStopped words.now limits.0 limits.1 result (scene_of host.old (S.output out.old))
        (scene_of host.new (S.output out.new)) }
    ensures ready { IsReady (told_outside host.new) }
{
    let (calls, tear) = limits;
    host.fuse(calls);
    host.tear(tear);
    let answer = call(alloc, words, host, out);
    host.reopen();
    answer
}

/// Makes such an update, and adds its answer, for which room was taken.
pub fn stop<S: Sink>(
    alloc: Global,
    words: &[Text],
    limits: (u32, u32),
    host: &mut MemoryHost,
    out: &mut S,
    answers: &mut Vec<Answer>,
)
    requires ready { IsReady (told_outside host.old) }
    requires room { vec_len answers.old < vec_capacity answers.old }
    ensures more { OneMore (by_stop words.now limits.0 limits.1) (scene_of host.old (S.output out.old))
        (scene_of host.new (S.output out.new)) answers.old.items answers.new.items }
    ensures ready { IsReady (told_outside host.new) }
{
    let answer = stopped(alloc, words, limits, host, out);
    answers.push_reserved(answer);
}
