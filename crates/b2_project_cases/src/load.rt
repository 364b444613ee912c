//! Loading.
use crate::faults::put_refusal;
use b2_base::text::Text;
use b2_memory::memory::MemoryHost;
use b2_project::load::{LoadFault, Loaded, load as load_projects};
use b2_project::project::Project;
use jam_effects::turns::Turns;
use std::alloc::Global;
use std::mem::ManuallyDrop;
use transcript::answer::Answer;
use transcript::case_fault::CaseFault;

/// What was loaded. What takes its place lets it be, until the process ends: a crate that takes it apart proves the drop of all
/// that it holds, which costs more than the proof of its commands.
pub type Kept = ManuallyDrop<Project>;

/// Keeps what was loaded, in place of what was loaded before.
fn keep(alloc: Global, project: Project, last: &mut Option<Box<Kept>>) -> Result<(), CaseFault> {
    *last = Some(Box::new(alloc, ManuallyDrop::new(project))?);
    Ok(())
}

/// The lines of ECHO.
fn echoed(alloc: Global, echoes: &[Text]) -> Answer {
    let mut answer = Answer::new(alloc);
    for echo in echoes {
        answer.push_line(echo.as_str());
    }
    answer
}

fn push_refusal(answer: &mut Answer, fault: &LoadFault) {
    answer.put("b2: ");
    put_refusal(answer, fault);
    answer.end_line();
}

/// Keeps what was loaded, and adds the last line of the answer.
fn end(
    alloc: Global,
    mut answer: Answer,
    ended: Result<Project, LoadFault>,
    last: &mut Option<Box<Kept>>,
) -> Result<Answer, CaseFault> {
    match ended {
        Ok(project) => {
            keep(alloc, project, last)?;
            answer.push_line("ok");
        }
        Err(fault) => {
            let fault = ManuallyDrop::new(fault);
            push_refusal(&mut answer, &fault);
        }
    }
    Ok(answer)
}

/// Loads the projects of a folder, and shows what came of it.
pub fn load(
    alloc: Global,
    host: &mut MemoryHost,
    words: &[Text],
    turns: &mut Turns,
    last: &mut Option<Box<Kept>>,
) -> Result<Answer, CaseFault> {
    let Loaded {
        echoes,
        result: ended,
    } = load_projects(alloc, host, words, turns);
    let echoes = ManuallyDrop::new(echoes);
    end(alloc, echoed(alloc, echoes.as_slice()), ended, last)
}
