//! Answers of the program and of its host, as lines.
use crate::memory::case_host::Calls;
use b2_endings::failed_lists::FailedLists;
use b2_files::version::Version;
use b2_host::children::ChildEvent;
use b2_host::log_file::log_file;
use b2_memory::memory::MemoryHost;
use b2_memory::memory_job::MemoryJob;
use b2_top::answer::Answer as Ended;
use std::alloc::Global;
use std::mem::ManuallyDrop;
use std::rc::Rc;
use transcript::answer::Answer;
use transcript::case_fault::CaseFault;

/// Adds numbers, each after a space.
fn put_numbers(answer: &mut Answer, numbers: &[u32]) {
    for number in numbers {
        answer.put_space();
        answer.put_number(u64::from(*number));
    }
}

/// Adds what an update that failed names.
fn push_lists(answer: &mut Answer, lists: &FailedLists) {
    answer.put("Failed: failed");
    put_numbers(answer, lists.failed.as_slice());
    answer.put(", skipped");
    put_numbers(answer, lists.skipped.as_slice());
    answer.put(", missing");
    answer.put_paths(lists.missing.as_slice());
    answer.end_line();
}

/// What was printed, and how the program ended.
pub fn end_shown(alloc: Global, ended: &Ended, printed: &[u8]) -> Result<Answer, CaseFault> {
    let printed = ManuallyDrop::new(String::from_utf8_lossy(alloc, printed)?);
    let mut answer = Answer::new(alloc);
    answer.push_text(printed.as_str());
    if !printed.is_empty() && !printed.ends_with('\n') {
        answer.push_line("(without a line feed)");
    }
    answer.put("status ");
    answer.put_number(u64::from(ended.status()));
    answer.end_line();
    if let Ended::Failed(lists) = ended {
        push_lists(&mut answer, lists);
    }
    Ok(answer)
}

fn push_event(answer: &mut Answer, event: ChildEvent) {
    let (word, step, end) = match event {
        ChildEvent::Start(step) => ("Start ", step, ""),
        ChildEvent::Done(step, true) => ("Done ", step, ""),
        ChildEvent::Done(step, false) => ("Done ", step, " badly"),
    };
    answer.put(word);
    answer.put_number(u64::from(step));
    answer.push_line(end);
}

/// What happened to child processes.
pub fn events_shown(alloc: Global, events: &[ChildEvent]) -> Result<Answer, CaseFault> {
    let mut answer = Answer::new(alloc);
    for event in events {
        push_event(&mut answer, *event);
    }
    Ok(answer)
}

/// The text of each child process, by the number of its step.
pub fn starts_shown(alloc: Global, given: &[Rc<MemoryJob>]) -> Result<Answer, CaseFault> {
    let mut answer = Answer::new(alloc);
    for job in given {
        answer.put_number(u64::from(job.as_ref().step));
        answer.put(": ");
        answer.push_line(job.as_ref().text.as_str());
    }
    Ok(answer)
}

/// Adds a file that was written with a stamp, if it stands.
fn push_file(answer: &mut Answer, host: &MemoryHost, version: &Version, stamp: u64) {
    match host.stamp_of(&version.path) {
        Some(standing) if standing == stamp => {
            answer.put(version.path.as_str());
            answer.put(", stamp ");
            answer.put_number(stamp);
            answer.put(": ");
            answer.put_bytes(host.bytes_of(version));
            answer.end_line();
        }
        _ => {}
    }
}

/// Adds each line of a text as a line of its own, with its control bytes shown.
fn push_lines(answer: &mut Answer, text: &str) {
    for line in text.lines() {
        answer.put(line);
        answer.end_line();
    }
    if !text.is_empty() && !text.ends_with('\n') {
        answer.push_line("(without a line feed)");
    }
}

/// Adds the lines of a log.
fn push_log(alloc: Global, answer: &mut Answer, bytes: &[u8]) -> Result<(), CaseFault> {
    let text = ManuallyDrop::new(String::from_utf8_lossy(alloc, bytes)?);
    push_lines(answer, text.as_str());
    Ok(())
}

/// The lines of the log; none where it does not stand.
pub fn log_shown(alloc: Global, host: &MemoryHost) -> Result<Answer, CaseFault> {
    let mut answer = Answer::new(alloc);
    let path = ManuallyDrop::new(log_file(alloc)?);
    let Some(stamp) = host.stamp_of(&path) else {
        return Ok(answer);
    };
    if let Some(version) = host.past().get((stamp as usize).saturating_sub(1)) {
        push_log(alloc, &mut answer, host.bytes_of(version))?;
    }
    Ok(answer)
}

/// What stands, in order of stamps.
pub fn files_shown(alloc: Global, host: &MemoryHost) -> Result<Answer, CaseFault> {
    let mut answer = Answer::new(alloc);
    for (place, version) in host.past().iter().enumerate() {
        let stamp = (place + 1) as u64;
        push_file(&mut answer, host, version, stamp);
    }
    Ok(answer)
}

fn put_count(answer: &mut Answer, word: &str, count: u64) {
    answer.put(word);
    answer.put_number(count);
}

/// How often each call was made.
pub fn calls_shown(alloc: Global, calls: Calls) -> Result<Answer, CaseFault> {
    let mut answer = Answer::new(alloc);
    put_count(&mut answer, "stat ", calls.stat);
    put_count(&mut answer, ", read ", calls.read);
    put_count(&mut answer, ", list ", calls.list);
    put_count(&mut answer, ", append ", calls.append);
    put_count(&mut answer, ", replace ", calls.replace);
    put_count(&mut answer, ", remove ", calls.remove);
    put_count(&mut answer, ", start ", calls.start);
    put_count(&mut answer, ", wait ", calls.wait);
    answer.end_line();
    Ok(answer)
}
