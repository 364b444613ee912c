//! The commands by their names.
use crate::faults::push_refusal;
use crate::graph::shown;
use crate::plan::plan;
use b2_base::fault::OutOfMemory;
use b2_base::path::Path;
use b2_base::text::Text;
use b2_memory::memory::MemoryHost;
use b2_project_cases::host::{edit, fail_calls};
use jam_effects::turns::Turns;
use jam_graph::fault::JamFault;
use jam_graph::graph::Graph;
use jam_graph::load::{JamLoaded, jam_load};
use jam_interp_cases::evaluation::session::set_turns;
use std::alloc::Global;
use std::mem::ManuallyDrop;
use transcript::answer::Answer;
use transcript::case_fault::CaseFault;
use transcript::command::{Command, Word};
use transcript::session::Session;
use transcript::words::{only, path};

/// What was loaded. What takes its place lets it be, until the process ends.
#[derive(Drop)]
struct Kept {
    file: ManuallyDrop<Path>,
    graph: ManuallyDrop<Graph>,
}

/// The files, how many turns each load has, and the graph that was loaded last.
#[derive(Drop)]
pub struct Graphs {
    host: ManuallyDrop<MemoryHost>,
    budget: u32,
    last: Option<Box<Kept>>,
}

/// The lines of ECHO.
fn echoed(alloc: Global, echoes: &[Text]) -> Answer {
    let mut answer = Answer::new(alloc);
    for echo in echoes {
        answer.push_line(echo.as_str());
    }
    answer
}

/// Adds the line of a refusal.
fn refused(mut answer: Answer, fault: JamFault) -> Answer {
    let fault = ManuallyDrop::new(fault);
    push_refusal(&mut answer, &fault);
    answer
}

/// Keeps what was loaded, and adds the last line of the answer.
fn end(
    alloc: Global,
    mut answer: Answer,
    file: ManuallyDrop<Path>,
    ended: Result<Graph, JamFault>,
    last: &mut Option<Box<Kept>>,
) -> Result<Answer, CaseFault> {
    match ended {
        Ok(graph) => {
            let graph = ManuallyDrop::new(graph);
            *last = Some(Box::new(alloc, Kept { file, graph })?);
            answer.push_line("ok");
            Ok(answer)
        }
        Err(fault) => Ok(refused(answer, fault)),
    }
}

/// Loads a file again, and shows the plan of targets in it.
fn planned(
    alloc: Global,
    host: &mut MemoryHost,
    budget: u32,
    file: &Path,
    words: &[Word],
) -> Result<Answer, CaseFault> {
    let mut turns = Turns::new(budget);
    let JamLoaded {
        echoes,
        result: ended,
    } = jam_load(alloc, host, file, &mut turns);
    let _echoes = ManuallyDrop::new(echoes);
    match ended {
        Ok(graph) => {
            let mut graph = ManuallyDrop::new(graph);
            plan(alloc, &mut graph, host, words)
        }
        Err(fault) => Ok(refused(Answer::new(alloc), fault)),
    }
}

impl Graphs {
    /// No files, and nothing loaded.
    pub fn new(alloc: Global) -> Result<Graphs, OutOfMemory> {
        Ok(Graphs {
            host: ManuallyDrop::new(MemoryHost::new(alloc)?),
            budget: 1_000_000,
            last: None,
        })
    }

    fn renew(&mut self, alloc: Global) -> Result<Answer, CaseFault> {
        *self = Graphs::new(alloc)?;
        Ok(Answer::new(alloc))
    }

    fn load(&mut self, alloc: Global, words: &[Word]) -> Result<Answer, CaseFault> {
        let file = path(alloc, only(words)?)?;
        let mut turns = Turns::new(self.budget);
        let JamLoaded {
            echoes,
            result: ended,
        } = jam_load(alloc, &mut *self.host, &file, &mut turns);
        let echoes = ManuallyDrop::new(echoes);
        let answer = echoed(alloc, echoes.as_slice());
        end(alloc, answer, file, ended, &mut self.last)
    }

    /// Shows something of the graph that was loaded last.
    fn look(&mut self, alloc: Global, command: &Command) -> Result<Answer, CaseFault> {
        let Some(kept) = &self.last else {
            return Err(CaseFault::WrongWords);
        };
        match command.name() {
            "graph" => shown(alloc, &kept.graph),
            "jam_plan" => planned(
                alloc,
                &mut self.host,
                self.budget,
                &kept.file,
                command.words(),
            ),
            _ => Err(CaseFault::UnknownCommand),
        }
    }
}

impl Session for Graphs {
    fn carry_out(&mut self, alloc: Global, command: &Command) -> Result<Answer, CaseFault> {
        let words = command.words();
        match command.name() {
            "new" => self.renew(alloc),
            "edit" => edit(alloc, &mut self.host, command),
            "turns" => set_turns(alloc, &mut self.budget, words),
            "fail_calls" => fail_calls(alloc, &mut self.host, words),
            "jam_load" => self.load(alloc, words),
            _ => self.look(alloc, command),
        }
    }
}
