//! Calls of declaring rules, and what comes of them.
use crate::declarations::shown::push_declaration;
use b2_declaring_calls::declaration::Declaration;
use b2_declaring_calls::naming::named_directories;
use b2_declaring_calls::reading::{declaration, is_refused};
use std::alloc::Global;
use std::mem::ManuallyDrop;
use transcript::answer::Answer;
use transcript::case_fault::CaseFault;
use transcript::command::{Command, Word};
use transcript::session::Session;
use transcript::words::{first, lists, path};

/// What the call of a rule with lists declares.
fn called(alloc: Global, words: &[Word]) -> Result<ManuallyDrop<Option<Declaration>>, CaseFault> {
    let (rule, words) = first(words)?;
    let lists = lists(alloc, words)?;
    Ok(ManuallyDrop::new(declaration(alloc, rule, lists.as_slice())?))
}

fn told(alloc: Global, question: &str, declaration: &Declaration) -> Result<Answer, CaseFault> {
    match question {
        "declaration" => {
            let mut answer = Answer::new(alloc);
            push_declaration(&mut answer, declaration);
            Ok(answer)
        }
        _ => Answer::truth(alloc, is_refused(alloc, declaration)?),
    }
}

fn told_of_call(alloc: Global, question: &str, words: &[Word]) -> Result<Answer, CaseFault> {
    let called = called(alloc, words)?;
    match &*called {
        None => Answer::line(alloc, "none"),
        Some(declaration) => told(alloc, question, declaration),
    }
}

fn directories_of_call(alloc: Global, words: &[Word]) -> Result<Answer, CaseFault> {
    let (dir, call) = first(words)?;
    let owner = path(alloc, dir)?;
    let called = called(alloc, call)?;
    let Some(declaration) = &*called else {
        return Answer::line(alloc, "none");
    };
    let named = ManuallyDrop::new(named_directories(alloc, &owner, declaration)?);
    Answer::paths(alloc, named.as_slice())
}

/// The part holds nothing.
#[derive(Drop)]
pub struct Declarations;

impl Session for Declarations {
    fn carry_out(&mut self, alloc: Global, command: &Command) -> Result<Answer, CaseFault> {
        let words = command.words();
        match command.name() {
            "declaration" | "is_refused" => told_of_call(alloc, command.name(), words),
            "named_directories" => directories_of_call(alloc, words),
            _ => Err(CaseFault::UnknownCommand),
        }
    }
}
