//! How answers are shown.
use b2_base::text::Text;
use b2_declared::place::{Place, Target};
use b2_props::request::PropsList;
use b2_references::asked::AskedPiece;
use b2_references::index::Index;
use b2_references::meaning::Meaning;
use b2_references::name::TargetName;
use std::alloc::Global;
use std::mem::ManuallyDrop;
use transcript::answer::Answer;
use transcript::case_fault::CaseFault;

pub fn number_or_none(alloc: Global, found: Option<usize>) -> Result<Answer, CaseFault> {
    match found {
        Some(found) => Answer::number(alloc, found as u64),
        None => Answer::line(alloc, "none"),
    }
}

pub fn numbers(alloc: Global, numbers: &[usize]) -> Result<Answer, CaseFault> {
    let mut answer = Answer::new(alloc);
    for number in numbers {
        answer.put_number(*number as u64);
        answer.end_line();
    }
    Ok(answer)
}

/// The sources of each alternative.
pub fn targets(alloc: Global, targets: &[&Target]) -> Result<Answer, CaseFault> {
    let mut answer = Answer::new(alloc);
    for target in targets {
        answer.put_words(target.sources.as_slice());
        answer.end_line();
    }
    Ok(answer)
}

/// The directory of each project.
pub fn places(alloc: Global, places: &[&Place]) -> Result<Answer, CaseFault> {
    let mut answer = Answer::new(alloc);
    for place in places {
        answer.push_line(place.dir.as_str());
    }
    Ok(answer)
}

pub fn sets(alloc: Global, sets: &PropsList) -> Result<Answer, CaseFault> {
    let mut answer = Answer::new(alloc);
    for set in sets.as_slice() {
        answer.put_properties(set.pairs());
        answer.end_line();
    }
    Ok(answer)
}

/// Adds a main target as it is written.
fn put_target(answer: &mut Answer, index: &Index, name: &TargetName) {
    let written = ManuallyDrop::new(index.target_text(name.project(), name.name()));
    match &*written {
        Ok(text) => answer.put(text.as_str()),
        Err(_fault) => answer.cut(),
    }
}

/// Adds a line for each main target, and one where there is none.
fn push_targets(answer: &mut Answer, index: &Index, names: &[TargetName]) {
    if names.is_empty() {
        answer.push_line("no targets");
    }
    for name in names {
        put_target(answer, index, name);
        answer.end_line();
    }
}

/// What a text names.
pub fn meaning(alloc: Global, index: &Index, meaning: &Meaning) -> Result<Answer, CaseFault> {
    let mut answer = Answer::new(alloc);
    match meaning {
        Meaning::File { path } => answer.push_words("file", path.as_str()),
        Meaning::Targets { names } => push_targets(&mut answer, index, names.as_slice()),
        Meaning::Nothing => answer.push_line("nothing"),
    }
    Ok(answer)
}

fn push_piece(answer: &mut Answer, index: &Index, piece: &AskedPiece) {
    match piece {
        AskedPiece::Main { name, set } => {
            put_target(answer, index, name);
            answer.put_properties(set.pairs());
        }
        AskedPiece::NoTarget { word } => {
            answer.put("no target");
            answer.put_word(word.as_str());
        }
    }
    answer.end_line();
}

/// What a request asks for.
pub fn pieces(alloc: Global, index: &Index, pieces: &[AskedPiece]) -> Result<Answer, CaseFault> {
    let mut answer = Answer::new(alloc);
    for piece in pieces {
        push_piece(&mut answer, index, piece);
    }
    Ok(answer)
}
