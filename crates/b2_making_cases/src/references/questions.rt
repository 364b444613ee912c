//! Questions about what a load declares.
ghost use Rattle.std.specs.Prelude.{◌<◌, All, length};

use crate::references::loads::{Load, are_placed, place};
use crate::references::shown::{meaning, number_or_none, numbers, pieces, places, sets, targets};
use crate::words::pairs;
use b2_base::text::Text;
use b2_declared::fault::DeclaringFault;
use b2_declared::outcome::declared;
use b2_declared::whole::Declared;
use b2_props::refinement::set_of;
use b2_props::request::{Request, read_request};
use b2_props::request_fault::RequestFault;
use b2_references::default_sets::sets_for;
use b2_references::index::Index;
use b2_references::meaning::Meaning;
use b2_references::name::TargetName;
use b2_references::projects::project_meaning;
use b2_references::references::{source_meaning, value_meaning, word_meaning};
use b2_references::requests::asked;
use std::alloc::Global;
use std::mem::ManuallyDrop;
use transcript::answer::Answer;
use transcript::case_fault::CaseFault;
use transcript::command::Word;
use transcript::words::{both, first, only, own_text, path, text, texts};

fn meaning_of_source(alloc: Global, index: &Index, words: &[Word]) -> Result<Meaning, CaseFault> {
    let (at, source) = both(words)?;
    let at = place(at)?;
    let source = text(alloc, source)?;
    Ok(source_meaning(alloc, index, at, &source)?)
}

fn meaning_of_value(alloc: Global, index: &Index, words: &[Word]) -> Result<Meaning, CaseFault> {
    let value = text(alloc, only(words)?)?;
    Ok(value_meaning(alloc, index, &value)?)
}

fn meaning_of_word(alloc: Global, index: &Index, words: &[Word]) -> Result<Meaning, CaseFault> {
    let word = text(alloc, only(words)?)?;
    Ok(word_meaning(alloc, index, &word)?)
}

fn meaning_of_project(alloc: Global, index: &Index, words: &[Word]) -> Result<Meaning, CaseFault> {
    Ok(project_meaning(alloc, index, place(only(words)?)?)?)
}

fn shown(
    alloc: Global,
    index: &Index,
    found: Result<Meaning, CaseFault>,
) -> Result<Answer, CaseFault> {
    let found = ManuallyDrop::new(found?);
    meaning(alloc, index, &found)
}

/// The place and the name of a main target.
fn target_at(alloc: Global, words: &[Word]) -> Result<(usize, ManuallyDrop<Text>), CaseFault> {
    let (at, name) = both(words)?;
    Ok((place(at)?, text(alloc, name)?))
}

/// What the index tells of a main target.
fn told_of_target(
    alloc: Global,
    index: &Index,
    question: &str,
    words: &[Word],
) -> Result<Answer, CaseFault> {
    match question {
        "numbers" => {
            let (at, name) = target_at(alloc, words)?;
            numbers(alloc, index.numbers(at, &name))
        }
        "alternatives" => {
            let (at, name) = target_at(alloc, words)?;
            let found = ManuallyDrop::new(index.alternatives(at, &name)?);
            targets(alloc, found.as_slice())
        }
        "default_build" => {
            let (at, name) = target_at(alloc, words)?;
            Answer::properties(alloc, index.default_build(at, &name)?)
        }
        "target_text" => {
            let (at, name) = target_at(alloc, words)?;
            let written = ManuallyDrop::new(index.target_text(at, &name)?);
            Answer::line(alloc, written.as_str())
        }
        _ => Err(CaseFault::UnknownCommand),
    }
}

/// The sets that a set stands for.
fn sets_line(alloc: Global, index: &Index, words: &[Word]) -> Result<Answer, CaseFault> {
    let (at, words) = first(words)?;
    let at = place(at)?;
    let (name, words) = first(words)?;
    let pairs = ManuallyDrop::new(pairs(alloc, words)?);
    let name = ManuallyDrop::new(TargetName::new(at, own_text(alloc, name)?));
    let registry = &index.declared().registry;
    let set = ManuallyDrop::new(set_of(alloc, registry, pairs.as_slice())?);
    let found = ManuallyDrop::new(sets_for(alloc, index, &set, &name)?);
    sets(alloc, &found)
}

/// What the sets and the targets of a request ask for.
fn asked_of(alloc: Global, index: &Index, request: &Request) -> Result<Answer, CaseFault> {
    let found = ManuallyDrop::new(asked(
        alloc,
        index,
        request.sets.as_slice(),
        request.targets.as_slice(),
    )?);
    pieces(alloc, index, found.as_slice())
}

fn asked_lines(alloc: Global, index: &Index, words: &[Word]) -> Result<Answer, CaseFault> {
    let words = texts(alloc, words)?;
    let registry = &index.declared().registry;
    let read = ManuallyDrop::new(read_request(alloc, registry, words.as_slice()));
    match &*read {
        Ok(request) => asked_of(alloc, index, request),
        Err(RequestFault::OutOfMemory) => Err(CaseFault::OutOfMemory),
        Err(_fault) => Answer::line(alloc, "refused"),
    }
}

/// What the index tells of projects and requests, or else of a main target.
fn told_of_index(
    alloc: Global,
    index: &Index,
    question: &str,
    words: &[Word],
) -> Result<Answer, CaseFault> {
    match question {
        "place_at" => {
            let dir = path(alloc, only(words)?)?;
            number_or_none(alloc, index.place_at(&dir))
        }
        "place_with" => number_or_none(alloc, index.place_with(only(words)?)),
        "lineage" => {
            let found = ManuallyDrop::new(index.lineage(place(only(words)?)?)?);
            places(alloc, found.as_slice())
        }
        "sets_for" => sets_line(alloc, index, words),
        "asked" => asked_lines(alloc, index, words),
        _ => told_of_target(alloc, index, question, words),
    }
}

/// What a text or a project names, or else what the index tells.
fn told(alloc: Global, index: &Index, question: &str, words: &[Word]) -> Result<Answer, CaseFault> {
    match question {
        "source_meaning" => shown(alloc, index, meaning_of_source(alloc, index, words)),
        "value_meaning" => shown(alloc, index, meaning_of_value(alloc, index, words)),
        "word_meaning" => shown(alloc, index, meaning_of_word(alloc, index, words)),
        "project_meaning" => shown(alloc, index, meaning_of_project(alloc, index, words)),
        _ => told_of_index(alloc, index, question, words),
    }
}

/// The answer of a question over what is declared.
fn told_over(
    alloc: Global,
    declared: &Declared,
    question: &str,
    words: &[Word],
) -> Result<Answer, CaseFault>
    requires { All (λ t. t.project < length declared.now.places) declared.now.targets }
{
    let index = ManuallyDrop::new(Index::new(alloc, declared)?);
    told(alloc, &index, question, words)
}

fn refused(alloc: Global, fault: DeclaringFault) -> Result<Answer, CaseFault> {
    let is_refused = !matches!(fault, DeclaringFault::OutOfMemory);
    drop(fault);
    if is_refused {
        Answer::line(alloc, "refused")
    } else {
        Err(CaseFault::OutOfMemory)
    }
}

/// The answer of a question over what the calls of a load declare.
pub fn answered(
    alloc: Global,
    load: &Load,
    question: &str,
    words: &[Word],
) -> Result<Answer, CaseFault> {
    if !are_placed(load.visits.as_slice(), load.calls.as_slice()) {
        return Err(CaseFault::WrongWords);
    }
    match declared(alloc, load.visits.as_slice(), load.calls.as_slice()) {
        Ok(declared) => {
            let answer = told_over(alloc, &declared, question, words);
            drop(declared);
            answer
        }
        Err(fault) => refused(alloc, fault),
    }
}
