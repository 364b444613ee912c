//! Sessions and drills, each over a host in memory of its own.
//!
//! `run_session`: each line of the text is an event: `edit PATH TEXT`, where `\n` stands for a line feed,
//! `delete PATH`, `update WORD ..`, or `stop CALLS TEAR WORD ..`. The answer is what was printed, and then the statuses of the answers, or why the session stopped.
//!
//! `run_drill WORD ..`: what was printed, and the status.
use b2_base::list::List;
use b2_base::text_list::TextList;
use b2_drill::event::{Event, EventList};
use b2_drill_call::drill::run_drill;
use b2_memory::memory::MemoryHost;
use b2_memory::memory_sink::MemorySink;
use b2_sessions::fault::SessionFault;
use b2_sessions::session::run_session;
use b2_top::answer::Answer as Ended;
use std::alloc::Global;
use std::mem::ManuallyDrop;
use transcript::answer::Answer;
use transcript::case_fault::CaseFault;
use transcript::command::Command;
use transcript::words::{no_words, number, own_path, own_text, texts};

/// The words of a line, which single spaces divide.
fn words_in(alloc: Global, line: &str) -> Result<TextList, CaseFault> {
    let mut words = TextList::new(alloc);
    for word in line.split(' ') {
        if !word.is_empty() {
            words.push(own_text(alloc, word)?)?;
        }
    }
    Ok(words)
}

/// A file that is written, whose name the text follows.
fn edit_of(alloc: Global, line: &str) -> Result<Event, CaseFault> {
    let (name, text) = line.split_once(' ').unwrap_or((line, ""));
    let path = own_path(alloc, name)?;
    let text = text.replace(alloc, "\\n", "\n")?;
    let bytes = Vec::from_slice(alloc, text.as_bytes())?;
    Ok(Event::Edit {
        path,
        bytes: Some(List::from_vec(bytes)),
    })
}

/// An update that is stopped.
fn stop_of(alloc: Global, line: &str) -> Result<Event, CaseFault> {
    let Some((calls, rest)) = line.split_once(' ') else {
        return Err(CaseFault::WrongWords);
    };
    let (tear, words) = rest.split_once(' ').unwrap_or((rest, ""));
    let (calls, tear) = (number(calls)?, number(tear)?);
    Ok(Event::Stop {
        words: words_in(alloc, words)?,
        calls,
        tear,
    })
}

/// The event of a line.
fn event_of(alloc: Global, line: &str) -> Result<Event, CaseFault> {
    let (name, rest) = line.split_once(' ').unwrap_or((line, ""));
    match name {
        "edit" => edit_of(alloc, rest),
        "delete" => Ok(Event::Edit {
            path: own_path(alloc, rest)?,
            bytes: None,
        }),
        "update" => Ok(Event::Update {
            words: words_in(alloc, rest)?,
        }),
        "stop" => stop_of(alloc, rest),
        _ => Err(CaseFault::WrongWords),
    }
}

/// The events of all lines.
fn events_of(alloc: Global, lines: &str) -> Result<ManuallyDrop<EventList>, CaseFault> {
    let mut events = ManuallyDrop::new(EventList::new(alloc));
    for line in lines.lines() {
        events.push(event_of(alloc, line)?)?;
    }
    Ok(events)
}

/// Adds what was printed.
fn push_printed(alloc: Global, answer: &mut Answer, out: &MemorySink) -> Result<(), CaseFault> {
    let printed = ManuallyDrop::new(String::from_utf8_lossy(alloc, out.bytes())?);
    answer.push_text(printed.as_str());
    Ok(())
}

/// Adds the statuses of answers.
fn push_statuses(answer: &mut Answer, ended: &[Ended]) {
    answer.put("statuses");
    for one in ended {
        answer.put_space();
        answer.put_number(u64::from(one.status()));
    }
    answer.end_line();
}

/// Carries out `run_session`.
pub fn session(alloc: Global, command: &Command) -> Result<Answer, CaseFault> {
    no_words(command.words())?;
    let events = events_of(alloc, command.text())?;
    let mut host = MemoryHost::new(alloc)?;
    let mut out = MemorySink::new(alloc);
    let result = ManuallyDrop::new(run_session(alloc, &mut host, events.as_slice(), &mut out));
    let mut answer = Answer::new(alloc);
    push_printed(alloc, &mut answer, &out)?;
    match &*result {
        Ok(ended) => push_statuses(&mut answer, ended.as_slice()),
        Err(SessionFault::LogEdit { index }) => {
            answer.put_between("LogEdit ", *index as u64, "");
            answer.end_line();
        }
        Err(SessionFault::OutOfMemory) => answer.push_line("OutOfMemory"),
    }
    Ok(answer)
}

/// Carries out `run_drill`.
pub fn drill(alloc: Global, command: &Command) -> Result<Answer, CaseFault> {
    let words = texts(alloc, command.words())?;
    let mut host = MemoryHost::new(alloc)?;
    let mut out = MemorySink::new(alloc);
    let ended = ManuallyDrop::new(run_drill(alloc, words.as_slice(), &mut host, &mut out));
    let mut answer = Answer::new(alloc);
    push_printed(alloc, &mut answer, &out)?;
    answer.put("status ");
    answer.put_number(u64::from(ended.status()));
    answer.end_line();
    Ok(answer)
}
