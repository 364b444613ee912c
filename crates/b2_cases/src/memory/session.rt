//! The commands over a host in memory.
use crate::memory::case_host::CaseHost;
use crate::memory::case_sink::{CaseSink, FailingWrite};
use crate::memory::claims::claim;
use crate::memory::sessions::{drill, session};
use crate::memory::shown::{
    calls_shown, end_shown, events_shown, files_shown, log_shown, starts_shown,
};
use crate::memory::stops::{failures, stops};
use b2_base::fault::OutOfMemory;
use b2_base::text::Text;
use b2_memory::memory::CallKind;
use b2_top::clean::clean_b2;
use b2_top::explain::explain_b2;
use b2_top::jam::run_jam;
use b2_top::mode::{Mode, mode_of};
use b2_top::run::run_b2;
use b2_top::show::show_b2;
use std::alloc::Global;
use std::mem::ManuallyDrop;
use transcript::answer::Answer;
use transcript::case_fault::CaseFault;
use transcript::command::{Command, Word};
use transcript::session::Session;
use transcript::words::{first, no_words, number, only, own_path, path, texts};

/// No write fails.
const NO_FAULT: FailingWrite = FailingWrite {
    number: 0,
    stays: 0,
};

/// A host, and what is to fail in the next run of the program over it. The host that another one takes the place of stays until
/// the process ends.
#[derive(Drop)]
pub struct InMemory {
    host: ManuallyDrop<CaseHost>,
    failing: FailingWrite,
}

/// The kind of a call that looks, or else of one that changes something.
fn kind_of(name: &str) -> Result<CallKind, CaseFault> {
    match name {
        "stat" => Ok(CallKind::Stat),
        "read" => Ok(CallKind::Read),
        "list" => Ok(CallKind::List),
        _ => changing_kind_of(name),
    }
}

fn changing_kind_of(name: &str) -> Result<CallKind, CaseFault> {
    match name {
        "append" => Ok(CallKind::Append),
        "replace" => Ok(CallKind::Replace),
        "remove" => Ok(CallKind::Remove),
        "start" => Ok(CallKind::Start),
        "wait" => Ok(CallKind::Wait),
        _ => Err(CaseFault::WrongWords),
    }
}

/// A text so many times.
fn repeated(alloc: Global, text: &str, times: u32) -> Result<String, CaseFault> {
    Ok(text.repeat(alloc, times as usize)?)
}

/// The answer where a child process is left, beside which no further run may begin.
fn child_left(alloc: Global) -> Result<Answer, CaseFault> {
    Answer::line(alloc, "a child process is left")
}

/// What the program is called for.
fn mode_shown(alloc: Global, words: &[Text]) -> Result<Answer, CaseFault> {
    let mode = match mode_of(words) {
        Mode::Build => "Build",
        Mode::Look => "Look",
        Mode::Explain => "Explain",
        Mode::Clean => "Clean",
        Mode::Drill => "Drill",
        Mode::Jam => "Jam",
    };
    Answer::line(alloc, mode)
}

/// Writes bytes to a path of the host, or deletes the file there.
fn change(
    alloc: Global,
    host: &mut CaseHost,
    name: &str,
    bytes: Option<&[u8]>,
) -> Result<Answer, CaseFault> {
    let path = path(alloc, name)?;
    if host.is_idle() {
        Answer::done(alloc, host.edit(&path, bytes))
    } else {
        child_left(alloc)
    }
}

/// Writes a text to a path of the host, so many times.
fn change_by_many(
    alloc: Global,
    host: &mut CaseHost,
    name: &Word,
    text: &Word,
    times: &Word,
) -> Result<Answer, CaseFault> {
    let (name, times) = (name.as_str()?, number(times.as_str()?)?);
    let text = repeated(alloc, text.as_str()?, times)?;
    change(alloc, host, name, Some(text.as_bytes()))
}

/// `edit PATH`: the text of the command becomes the file. `edit PATH BYTES`: those bytes do.
/// `edit PATH TEXT TIMES`: the text does, so many times.
fn edit(alloc: Global, host: &mut CaseHost, command: &Command) -> Result<Answer, CaseFault> {
    match command.words() {
        [name] => change(alloc, host, name.as_str()?, Some(command.text().as_bytes())),
        [name, bytes] => change(alloc, host, name.as_str()?, Some(bytes.bytes())),
        [name, text, times] => change_by_many(alloc, host, name, text, times),
        _ => Err(CaseFault::WrongWords),
    }
}

/// `fail_calls KIND N ..`: the N-th calls of the kind from now on fail.
fn fail_calls(alloc: Global, host: &mut CaseHost, words: &[Word]) -> Result<Answer, CaseFault> {
    let (kind, numbers) = first(words)?;
    let kind = kind_of(kind)?;
    for word in numbers {
        host.fail_call(kind, number(word.as_str()?)?)?;
    }
    Ok(Answer::new(alloc))
}

/// `child_fails N ..`: the N-th child processes that start from now on end badly.
fn child_fails(alloc: Global, host: &mut CaseHost, words: &[Word]) -> Result<Answer, CaseFault> {
    for word in words {
        host.child_fails(number(word.as_str()?)?)?;
    }
    Ok(Answer::new(alloc))
}

/// `order N ..`: which of the child processes that run the next waits give.
fn order(alloc: Global, host: &mut CaseHost, words: &[Word]) -> Result<Answer, CaseFault> {
    for word in words {
        host.pick(number(word.as_str()?)?)?;
    }
    Ok(Answer::new(alloc))
}

/// `leave_out PATH ..`: from now on child processes leave nothing at these paths.
fn leave_out(alloc: Global, host: &mut CaseHost, words: &[Word]) -> Result<Answer, CaseFault> {
    for word in words {
        host.leave_out(own_path(alloc, word.as_str()?)?)?;
    }
    Ok(Answer::new(alloc))
}

/// Carries out a command that says how calls fail. `tear BYTES`: a write that fails leaves so many bytes of its piece.
/// `fuse CALLS`: after so many more calls every call fails. `reopen`: the child processes that run end, and calls succeed again.
fn fuse_command(
    alloc: Global,
    host: &mut CaseHost,
    command: &Command,
) -> Result<Answer, CaseFault> {
    let words = command.words();
    match command.name() {
        "tear" => host.tear(number(only(words)?)?),
        "fuse" => host.fuse(number(only(words)?)?),
        "reopen" => {
            no_words(words)?;
            host.reopen();
        }
        _ => return Err(CaseFault::UnknownCommand),
    }
    Ok(Answer::new(alloc))
}

/// Carries out a command that prepares a host for a run. After `leave_nothing` child processes leave nothing at their outputs.
fn prepare_command(
    alloc: Global,
    host: &mut CaseHost,
    command: &Command,
) -> Result<Answer, CaseFault> {
    let words = command.words();
    match command.name() {
        "edit" => edit(alloc, host, command),
        "delete" => change(alloc, host, only(words)?, None),
        "fail_calls" => fail_calls(alloc, host, words),
        "child_fails" => child_fails(alloc, host, words),
        "order" => order(alloc, host, words),
        "leave_out" => leave_out(alloc, host, words),
        "leave_nothing" => {
            host.leave_nothing();
            Ok(Answer::new(alloc))
        }
        _ => fuse_command(alloc, host, command),
    }
}

/// Carries out a command that looks at what a run left, or else one that prepares a host for a run.
fn look_command(
    alloc: Global,
    host: &mut CaseHost,
    command: &Command,
) -> Result<Answer, CaseFault> {
    match command.name() {
        "files" => files_shown(alloc, host.memory()),
        "events" => events_shown(alloc, host.memory().events()),
        "starts" => starts_shown(alloc, host.memory().given()),
        "log" => log_shown(alloc, host.memory()),
        "reads" => Answer::paths(alloc, host.memory().reads()),
        "calls" => calls_shown(alloc, host.calls()),
        "waits" => Answer::number(alloc, host.calls().wait),
        "faults" => Answer::number(alloc, host.memory().fault_count()),
        _ => prepare_command(alloc, host, command),
    }
}

/// The write that is to fail by the words of `fail_at`.
fn failing_write(words: &[Word]) -> Result<FailingWrite, CaseFault> {
    match words {
        [write] => Ok(FailingWrite {
            number: number(write.as_str()?)?,
            stays: 0,
        }),
        [write, stays] => Ok(FailingWrite {
            number: number(write.as_str()?)?,
            stays: number(stays.as_str()?)? as usize,
        }),
        _ => Err(CaseFault::WrongWords),
    }
}

/// A sink of which this write fails; none does in the run after it.
fn take_sink(alloc: Global, failing: &mut FailingWrite) -> CaseSink {
    let out = CaseSink::new(alloc, *failing);
    *failing = NO_FAULT;
    out
}

/// A build with these words.
fn build(
    alloc: Global,
    words: &[Text],
    host: &mut CaseHost,
    failing: &mut FailingWrite,
) -> Result<Answer, CaseFault> {
    if !host.is_idle() {
        return child_left(alloc);
    }
    let mut out = take_sink(alloc, failing);
    let ended = ManuallyDrop::new(run_b2(alloc, words, host, &mut out));
    end_shown(alloc, &ended, out.bytes())
}

/// A build of a Jam file with these words.
fn jam_build(
    alloc: Global,
    words: &[Text],
    host: &mut CaseHost,
    failing: &mut FailingWrite,
) -> Result<Answer, CaseFault> {
    if !host.is_idle() {
        return child_left(alloc);
    }
    let mut out = take_sink(alloc, failing);
    let ended = ManuallyDrop::new(run_jam(alloc, words, host, &mut out));
    end_shown(alloc, &ended, out.bytes())
}

/// An explanation with these words.
fn explanation(
    alloc: Global,
    words: &[Text],
    host: &mut CaseHost,
    failing: &mut FailingWrite,
) -> Result<Answer, CaseFault> {
    let mut out = take_sink(alloc, failing);
    let ended = ManuallyDrop::new(explain_b2(alloc, words, host, &mut out));
    end_shown(alloc, &ended, out.bytes())
}

/// Cleaning with these words.
fn cleaning(
    alloc: Global,
    words: &[Text],
    host: &mut CaseHost,
    failing: &mut FailingWrite,
) -> Result<Answer, CaseFault> {
    let mut out = take_sink(alloc, failing);
    let ended = ManuallyDrop::new(clean_b2(alloc, words, host, &mut out));
    end_shown(alloc, &ended, out.bytes())
}

/// A look with these words.
fn look(
    alloc: Global,
    words: &[Text],
    host: &mut CaseHost,
    failing: &mut FailingWrite,
) -> Result<Answer, CaseFault> {
    let mut out = take_sink(alloc, failing);
    let ended = ManuallyDrop::new(show_b2(alloc, words, host, &mut out));
    end_shown(alloc, &ended, out.bytes())
}

impl InMemory {
    /// An empty host, over which nothing is to fail.
    pub fn new(alloc: Global) -> Result<InMemory, OutOfMemory> {
        Ok(InMemory {
            host: ManuallyDrop::new(CaseHost::new(alloc)?),
            failing: NO_FAULT,
        })
    }

    /// `new_host`: an empty host takes the place of the current one.
    fn renew(&mut self, alloc: Global) -> Result<Answer, CaseFault> {
        *self = InMemory::new(alloc)?;
        Ok(Answer::new(alloc))
    }

    /// `fail_at N`: the N-th write of the next run fails and leaves nothing. `fail_at N BYTES`: it leaves so many bytes.
    fn fail_at(&mut self, alloc: Global, words: &[Word]) -> Result<Answer, CaseFault> {
        self.failing = failing_write(words)?;
        Ok(Answer::new(alloc))
    }

    /// Carries out a command that explains or cleans, or else another one.
    fn still_command(&mut self, alloc: Global, command: &Command) -> Result<Answer, CaseFault> {
        let words = command.words();
        match command.name() {
            "explain_b2" => explanation(
                alloc,
                texts(alloc, words)?.as_slice(),
                &mut self.host,
                &mut self.failing,
            ),
            "clean_b2" => cleaning(
                alloc,
                texts(alloc, words)?.as_slice(),
                &mut self.host,
                &mut self.failing,
            ),
            "check" => claim(alloc, words, false, &mut self.host),
            "check_all" => claim(alloc, words, true, &mut self.host),
            _ => self.other_command(alloc, command),
        }
    }

    /// Carries out a command over hosts of its own, or else one on the current host.
    fn other_command(&mut self, alloc: Global, command: &Command) -> Result<Answer, CaseFault> {
        match command.name() {
            "run_session" => session(alloc, command),
            "run_drill" => drill(alloc, command),
            "stops" => stops(alloc, command),
            "failures" => failures(alloc, command),
            _ => look_command(alloc, &mut self.host, command),
        }
    }
}

impl Session for InMemory {
    fn carry_out(&mut self, alloc: Global, command: &Command) -> Result<Answer, CaseFault> {
        let words = command.words();
        match command.name() {
            "new_host" => self.renew(alloc),
            "run_b2" => build(
                alloc,
                texts(alloc, words)?.as_slice(),
                &mut self.host,
                &mut self.failing,
            ),
            "run_jam" => jam_build(
                alloc,
                texts(alloc, words)?.as_slice(),
                &mut self.host,
                &mut self.failing,
            ),
            "show_b2" => look(
                alloc,
                texts(alloc, words)?.as_slice(),
                &mut self.host,
                &mut self.failing,
            ),
            "mode_of" => mode_shown(alloc, texts(alloc, words)?.as_slice()),
            "fail_at" => self.fail_at(alloc, words),
            _ => self.still_command(alloc, command),
        }
    }
}
