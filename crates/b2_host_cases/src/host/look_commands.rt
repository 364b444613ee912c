//! Commands that look at the host in memory.
use crate::answers::push_ended;
use crate::host_calls::file_command;
use b2_base::path::Path;
use b2_host::children::ChildEvent;
use b2_memory::memory::MemoryHost;
use b2_memory::memory_job::MemoryJob;
use std::alloc::Global;
use transcript::answer::Answer;
use transcript::case_fault::CaseFault;
use transcript::command::Command;

fn push_event(answer: &mut Answer, event: ChildEvent) {
    match event {
        ChildEvent::Start(step) => {
            answer.put("Start ");
            answer.put_number(step as u64);
            answer.end_line();
        }
        ChildEvent::Done(step, well) => {
            answer.put("Done ");
            push_ended(answer, step, well);
        }
    }
}

/// `events`: what happened to the children.
fn events(alloc: Global, host: &MemoryHost) -> Result<Answer, CaseFault> {
    let mut answer = Answer::new(alloc);
    for event in host.events() {
        push_event(&mut answer, *event);
    }
    Ok(answer)
}

/// Adds a path and what the file there holds, and ends the line.
fn push_contents(answer: &mut Answer, path: &Path, bytes: &[u8]) {
    answer.put(path.as_str());
    answer.put(" \"");
    answer.put_bytes(bytes);
    answer.push_line("\"");
}

/// Shows a file with the stamp that it has or had.
fn push_file(answer: &mut Answer, stamp: u64, path: &Path, bytes: &[u8]) {
    answer.put_number(stamp);
    answer.put(" ");
    push_contents(answer, path, bytes);
}

/// `files`: the files that stand, in order of stamps.
fn files(alloc: Global, host: &MemoryHost) -> Result<Answer, CaseFault> {
    let mut answer = Answer::new(alloc);
    for (place, version) in host.past().iter().enumerate() {
        let stamp = place as u64 + 1;
        if host.stamp_of(&version.path) == Some(stamp) {
            push_file(&mut answer, stamp, &version.path, host.bytes_of(version));
        }
    }
    Ok(answer)
}

/// `past`: the files that stood or stand, in order of stamps.
fn past(alloc: Global, host: &MemoryHost) -> Result<Answer, CaseFault> {
    let mut answer = Answer::new(alloc);
    for (place, version) in host.past().iter().enumerate() {
        let stamp = place as u64 + 1;
        push_file(&mut answer, stamp, &version.path, host.bytes_of(version));
    }
    Ok(answer)
}

/// Adds what a start gave, as the words of a `start`.
fn put_job(answer: &mut Answer, job: &MemoryJob) {
    answer.put_number(job.step as u64);
    answer.put(" \"");
    answer.put(job.text.as_str());
    answer.put("\"");
    answer.put_paths(job.ins.as_slice());
    answer.put(" >");
    answer.put_paths(job.outs.as_slice());
}

/// `running`: the children that run, in order of start, each with how it is to end.
fn running(alloc: Global, host: &MemoryHost) -> Result<Answer, CaseFault> {
    let mut answer = Answer::new(alloc);
    for child in host.running() {
        put_job(&mut answer, child.job.as_ref());
        answer.push_line(if child.well { ", well" } else { ", badly" });
    }
    Ok(answer)
}

/// Shows what a start gave, and below it the inputs that stood then, with their bytes.
fn push_given(answer: &mut Answer, job: &MemoryJob) {
    put_job(answer, job);
    answer.end_line();
    for entry in &job.held {
        answer.put("held ");
        push_contents(answer, &entry.path, entry.bytes.as_ref().as_slice());
    }
}

/// `given`: what each start gave.
fn given(alloc: Global, host: &MemoryHost) -> Result<Answer, CaseFault> {
    let mut answer = Answer::new(alloc);
    for job in host.given() {
        push_given(&mut answer, job.as_ref());
    }
    Ok(answer)
}

/// `faults`: how often a call failed, and how often a wait did.
fn faults(alloc: Global, host: &MemoryHost) -> Result<Answer, CaseFault> {
    let mut answer = Answer::new(alloc);
    answer.put_number(host.fault_count());
    answer.put(", waits ");
    answer.put_number(host.failed_wait_count());
    answer.end_line();
    Ok(answer)
}

/// Carries out a command that looks at the files of the host, or one on files. `reads` shows the paths of the reads that were
/// answered.
fn look_at_files(
    alloc: Global,
    host: &mut MemoryHost,
    command: &Command,
) -> Result<Answer, CaseFault> {
    match command.name() {
        "files" => files(alloc, host),
        "past" => past(alloc, host),
        "reads" => Answer::paths(alloc, host.reads()),
        _ => file_command(alloc, host, command),
    }
}

/// Carries out a command that looks at the host, or one on files.
pub fn look_command(
    alloc: Global,
    host: &mut MemoryHost,
    command: &Command,
) -> Result<Answer, CaseFault> {
    match command.name() {
        "events" => events(alloc, host),
        "running" => running(alloc, host),
        "given" => given(alloc, host),
        "faults" => faults(alloc, host),
        _ => look_at_files(alloc, host, command),
    }
}
