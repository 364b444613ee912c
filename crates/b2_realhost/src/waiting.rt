//! Waits for one of several child processes.
ghost use Rattle.std.specs.Prelude.{◌≡◌, ◌<◌, IfOk, IfSome, vec_len};

use std::process::Child;
use std::rt::Clock;
use std::sync::Wait;
use std::time::Duration;
use std::{io, thread};

/// The pause after the first round of questions.
const SHORTEST_PAUSE_MICROS: u64 = 100;

/// The pause grows to this, and no further.
const LONGEST_PAUSE_MICROS: u64 = 1000;

/// The place of a process that has ended, and whether it ended with status 0; `None` where all of them run.
fn ended(processes: &mut Vec<Child>) -> io::Result<Option<(usize, bool)>>
    ensures len { vec_len processes.new ≡ vec_len processes.old }
    ensures place { IfOk result (λ found. IfSome found (λ end. end.0 < vec_len processes.old)) }
{
    for place in 0..processes.len() {
        let process = &mut processes[place];
        if let Some(status) = process.try_wait()? {
            return Ok(Some((place, status.success())));
        }
    }
    Ok(None)
}

/// The next pause: a quarter longer, up to the longest.
fn longer(micros: u64) -> u64 {
    micros.saturating_add(micros / 4).min(LONGEST_PAUSE_MICROS)
}

/// Asks all processes in turn, with pauses that grow.
fn ask_until_ended<R: Wait + Clock>(rt: &R, processes: &mut Vec<Child>) -> io::Result<(usize, bool)>
    ensures len { vec_len processes.new ≡ vec_len processes.old }
    ensures place { IfOk result (λ end. end.0 < vec_len processes.old) }
{
    let mut micros = SHORTEST_PAUSE_MICROS;
    for _ in rt.forever() {
        if let Some(end) = ended(processes)? {
            return Ok(end);
        }
        thread::sleep(rt, Duration::from_micros(micros));
        micros = longer(micros);
    }
    unreachable!()
}

/// Waits until a process has ended: its place, and whether it ended with status 0. A single one is waited for, which
/// takes no time of the processor.
pub fn wait_any<R: Wait + Clock>(rt: &R, processes: &mut Vec<Child>) -> io::Result<(usize, bool)>
    requires { 0 < vec_len processes.old }
    ensures len { vec_len processes.new ≡ vec_len processes.old }
    ensures place { IfOk result (λ end. end.0 < vec_len processes.old) }
{
    if processes.len() > 1 {
        return ask_until_ended(rt, processes);
    }
    let process = &mut processes[0];
    let status = process.wait()?;
    Ok((0, status.success()))
}
