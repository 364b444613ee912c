//! Commands on the expansion of words and of bodies of actions.
//!
//! - `set NAME : ELEMENTS`: the variable stands for the elements.
//! - `add_expansion NAME WORD`: the elements of the word are added to those of the variable.
//! - `expand WORD`: the elements of the word, each on a line.
//! - `expand_size WORD`: how many elements the word has, and how many bytes these have together.
//! - `expand_body BODY`: the text of the body, on one line; without a word the body is the text below the command.
//! - `expand_body_size BODY`: how many bytes that text has.

use crate::faults::put_expand_fault;
use b2_base::expand_fault::ExpandFault;
use b2_base::look::Look;
use b2_base::text::Text;
use b2_base::text_list::{TextList, copy_texts, push_copies};
use jam_expand::body::expand_body;
use jam_expand::expand::expand;
use std::alloc::Global;
use std::collections::BTreeMap;
use std::mem::ManuallyDrop;
use transcript::answer::Answer;
use transcript::case_fault::CaseFault;
use transcript::command::{Command, Word};
use transcript::words::{both, only, own_texts, text};

/// The variables that were set, each with its texts; every other one has none.
#[derive(Drop)]
pub struct Variables {
    lists: BTreeMap<String, TextList>,
}

impl Variables {
    /// No variable.
    pub fn new(alloc: Global) -> Variables {
        Variables {
            lists: BTreeMap::new(alloc),
        }
    }

    fn set(&mut self, alloc: Global, name: &str, texts: TextList) -> Result<(), CaseFault> {
        self.lists.insert(String::from_str(alloc, name)?, texts)?;
        Ok(())
    }

    /// Adds texts to those of a variable.
    fn add(&mut self, alloc: Global, name: &str, texts: &[Text]) -> Result<(), CaseFault> {
        let mut longer = copy_texts(alloc, self.look(name))?;
        push_copies(&mut longer, texts)?;
        self.set(alloc, name, longer)
    }
}

impl Look for Variables {
    ghost use Rattle.std.specs.BTreeMap.{get_by_text};
    ghost use Rattle.jam_cases.specs.Variables.{texts_of};

    ghost answer = { λ variables name. texts_of (get_by_text variables.lists name) };

    fn look(&self, name: &str) -> &[Text] {
        match self.lists.get(name) {
            Some(texts) => texts.as_slice(),
            None => &[],
        }
    }
}

fn answer_set(
    alloc: Global,
    variables: &mut Variables,
    words: &[Word],
) -> Result<Answer, CaseFault> {
    let [name, colon, elements @ ..] = words else {
        return Err(CaseFault::WrongWords);
    };
    if colon.as_str()? != ":" {
        return Err(CaseFault::WrongWords);
    }
    variables.set(alloc, name.as_str()?, own_texts(alloc, elements)?)?;
    Ok(Answer::new(alloc))
}

fn fault_answer(alloc: Global, fault: ExpandFault) -> Result<Answer, CaseFault> {
    let fault = ManuallyDrop::new(fault);
    let mut answer = Answer::new(alloc);
    put_expand_fault(&mut answer, &fault);
    answer.end_line();
    Ok(answer)
}

fn answer_add_expansion(
    alloc: Global,
    variables: &mut Variables,
    words: &[Word],
) -> Result<Answer, CaseFault> {
    let (name, word) = both(words)?;
    let word = text(alloc, word)?;
    match expand(alloc, word.as_str(), variables) {
        Ok(elements) => {
            variables.add(alloc, name, elements.as_slice())?;
            Ok(Answer::new(alloc))
        }
        Err(fault) => fault_answer(alloc, fault),
    }
}

fn answer_expand(
    alloc: Global,
    variables: &Variables,
    words: &[Word],
) -> Result<Answer, CaseFault> {
    let word = text(alloc, only(words)?)?;
    match expand(alloc, word.as_str(), variables) {
        Ok(elements) => {
            let elements = ManuallyDrop::new(elements);
            Answer::texts(alloc, elements.as_slice())
        }
        Err(fault) => fault_answer(alloc, fault),
    }
}

fn size_answer(alloc: Global, elements: &[Text]) -> Result<Answer, CaseFault> {
    let mut bytes = 0usize;
    for element in elements {
        bytes = bytes.saturating_add(element.as_str().len());
    }
    let mut answer = Answer::new(alloc);
    answer.put("elements ");
    answer.put_number(elements.len() as u64);
    answer.put(", bytes ");
    answer.put_number(bytes as u64);
    answer.end_line();
    Ok(answer)
}

fn answer_expand_size(
    alloc: Global,
    variables: &Variables,
    words: &[Word],
) -> Result<Answer, CaseFault> {
    let word = text(alloc, only(words)?)?;
    match expand(alloc, word.as_str(), variables) {
        Ok(elements) => size_answer(alloc, elements.as_slice()),
        Err(fault) => fault_answer(alloc, fault),
    }
}

/// The body that a command has: its one word, or its text.
fn body_of(alloc: Global, command: &Command) -> Result<ManuallyDrop<Text>, CaseFault> {
    match command.words() {
        [] => text(alloc, command.text()),
        words => text(alloc, only(words)?),
    }
}

fn answer_expand_body(
    alloc: Global,
    variables: &Variables,
    command: &Command,
) -> Result<Answer, CaseFault> {
    let body = body_of(alloc, command)?;
    match expand_body(alloc, body.as_str(), variables) {
        Ok(text) => {
            let text = ManuallyDrop::new(text);
            Answer::line(alloc, text.as_str())
        }
        Err(fault) => fault_answer(alloc, fault),
    }
}

fn bytes_answer(alloc: Global, text: &str) -> Result<Answer, CaseFault> {
    let mut answer = Answer::new(alloc);
    answer.put("bytes ");
    answer.put_number(text.len() as u64);
    answer.end_line();
    Ok(answer)
}

fn answer_expand_body_size(
    alloc: Global,
    variables: &Variables,
    command: &Command,
) -> Result<Answer, CaseFault> {
    let body = body_of(alloc, command)?;
    match expand_body(alloc, body.as_str(), variables) {
        Ok(text) => bytes_answer(alloc, text.as_str()),
        Err(fault) => fault_answer(alloc, fault),
    }
}

/// Carries out a command on bodies of actions.
fn body_command(
    alloc: Global,
    command: &Command,
    variables: &Variables,
) -> Result<Answer, CaseFault> {
    match command.name() {
        "expand_body" => answer_expand_body(alloc, variables, command),
        "expand_body_size" => answer_expand_body_size(alloc, variables, command),
        _ => Err(CaseFault::UnknownCommand),
    }
}

/// Carries out a command on expansion.
pub fn expansion_command(
    alloc: Global,
    command: &Command,
    variables: &mut Variables,
) -> Result<Answer, CaseFault> {
    let words = command.words();
    match command.name() {
        "set" => answer_set(alloc, variables, words),
        "add_expansion" => answer_add_expansion(alloc, variables, words),
        "expand" => answer_expand(alloc, variables, words),
        "expand_size" => answer_expand_size(alloc, variables, words),
        _ => body_command(alloc, command, variables),
    }
}
