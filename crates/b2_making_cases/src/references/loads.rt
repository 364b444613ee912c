//! A load: projects and their declaring calls.
ghost use Rattle.std.specs.Prelude.{◌≡◌, ◌<◌, true, All, length};

use crate::words::file_in;
use b2_base::path::Path;
use b2_base::text::Text;
use b2_base::text_list::TextList;
use b2_declared::visit::{Call, Visit};
use b2_declaring_calls::reading::declaration;
use std::alloc::Global;
use transcript::answer::Answer;
use transcript::case_fault::CaseFault;
use transcript::command::Word;
use transcript::words::{first, lists, number, own_path, own_text};

/// The projects that were visited, and the calls that their files made.
#[derive(Drop)]
pub struct Load {
    pub visits: Vec<Visit>,
    pub calls: Vec<Call>,
}

/// Whether each call is one of a project that is there.
pub fn are_placed(visits: &[Visit], calls: &[Call]) -> bool
    ensures { result ≡ true → All (λ call. call.project < length visits.now) calls.now }
{
    calls.iter().all(|call| call.project < visits.len())
}

/// A word as the place of a project.
pub fn place(word: &str) -> Result<usize, CaseFault> {
    Ok(number(word)? as usize)
}

/// A project of a directory, with the file `Jamfile` there.
fn visit(alloc: Global, dir: Path, parent: Option<usize>) -> Result<Visit, CaseFault> {
    let file = file_in(alloc, dir.as_str())?;
    let module = Text::new(alloc, "")?;
    Ok(Visit {
        dir,
        file,
        module,
        parent,
    })
}

impl Load {
    pub fn new(alloc: Global) -> Load {
        Load {
            visits: Vec::new(alloc),
            calls: Vec::new(alloc),
        }
    }

    fn add_project(
        &mut self,
        alloc: Global,
        dir: &str,
        parent: Option<usize>,
    ) -> Result<Answer, CaseFault> {
        let number = self.visits.len();
        let dir = own_path(alloc, dir)?;
        self.visits.push(visit(alloc, dir, parent)?)?;
        Answer::number(alloc, number as u64)
    }

    /// Adds a project in a directory, with the place of its parent where it has one.
    pub fn project(&mut self, alloc: Global, words: &[Word]) -> Result<Answer, CaseFault> {
        match words {
            [dir] => self.add_project(alloc, dir.as_str()?, None),
            [dir, parent] => {
                let parent = place(parent.as_str()?)?;
                self.add_project(alloc, dir.as_str()?, Some(parent))
            }
            _ => Err(CaseFault::WrongWords),
        }
    }

    fn add_call(
        &mut self,
        alloc: Global,
        project: usize,
        rule: Text,
        lists: &[TextList],
    ) -> Result<Answer, CaseFault> {
        let declaration = declaration(alloc, rule.as_str(), lists)?;
        let answer = if declaration.is_some() { "ok" } else { "none" };
        self.calls.push(Call {
            project,
            rule,
            line: 1,
            declaration,
            refused: false,
        })?;
        Answer::line(alloc, answer)
    }

    /// Adds a call.
    pub fn call(&mut self, alloc: Global, words: &[Word]) -> Result<Answer, CaseFault> {
        let (project, words) = first(words)?;
        let project = place(project)?;
        let (rule, words) = first(words)?;
        let lists = lists(alloc, words)?;
        let rule = own_text(alloc, rule)?;
        self.add_call(alloc, project, rule, lists.as_slice())
    }
}
