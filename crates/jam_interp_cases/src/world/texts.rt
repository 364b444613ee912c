//! Commands on texts.
use crate::world::paths::path_command;
use b2_base::shape::has_shape;
use b2_base::text_list::{first_of, list_at};
use jam_natives::native::{is_declaring, native_of, shape_of};
use jam_natives::pattern_match::match_all;
use jam_natives::texts::{after_start, line_of, sorted, without_repeats};
use jam_patterns::refusal::PatternFault;
use std::alloc::Global;
use std::mem::ManuallyDrop;
use transcript::answer::Answer;
use transcript::case_fault::CaseFault;
use transcript::command::{Command, Word};
use transcript::words::{lists, only, texts};

fn line(alloc: Global, words: &[Word]) -> Result<Answer, CaseFault> {
    let given = texts(alloc, words)?;
    let line = ManuallyDrop::new(line_of(alloc, given.as_slice())?);
    Answer::line(alloc, line.as_str())
}

fn sort(alloc: Global, words: &[Word]) -> Result<Answer, CaseFault> {
    let given = texts(alloc, words)?;
    let sorted = ManuallyDrop::new(sorted(alloc, given.as_slice())?);
    Answer::texts(alloc, sorted.as_slice())
}

fn once(alloc: Global, words: &[Word]) -> Result<Answer, CaseFault> {
    let given = texts(alloc, words)?;
    let left = ManuallyDrop::new(without_repeats(alloc, given.as_slice())?);
    Answer::texts(alloc, left.as_slice())
}

fn after(alloc: Global, words: &[Word]) -> Result<Answer, CaseFault> {
    let given = lists(alloc, words)?;
    let given = given.as_slice();
    let start = first_of(list_at(given, 0));
    let found = ManuallyDrop::new(after_start(alloc, start, list_at(given, 1))?);
    Answer::texts(alloc, found.as_slice())
}

fn matched(alloc: Global, words: &[Word]) -> Result<Answer, CaseFault> {
    let given = lists(alloc, words)?;
    let given = given.as_slice();
    let found = ManuallyDrop::new(match_all(alloc, list_at(given, 0), list_at(given, 1)));
    match &*found {
        Ok(groups) => Answer::texts(alloc, groups.as_slice()),
        Err(PatternFault::Refused(refusal)) => {
            let why = if refusal.syntax() {
                "no pattern"
            } else {
                "refused pattern"
            };
            Answer::words(alloc, why, refusal.text())
        }
        Err(PatternFault::OutOfMemory) => Err(CaseFault::OutOfMemory),
    }
}

fn shape(alloc: Global, words: &[Word]) -> Result<Answer, CaseFault> {
    let Some((name, others)) = words.split_first() else {
        return Err(CaseFault::WrongWords);
    };
    let given = lists(alloc, others)?;
    let Some(native) = native_of(name.as_str()?) else {
        return Answer::line(alloc, "no native rule");
    };
    let fits = has_shape(shape_of(native), given.as_slice());
    Answer::line(alloc, if fits { "taken" } else { "wrong lists" })
}

/// Carries out a command on the name and the lists of a call, or another one.
fn native_command(alloc: Global, command: &Command) -> Result<Answer, CaseFault> {
    let words = command.words();
    match command.name() {
        "shape" => shape(alloc, words),
        "is_declaring" => Answer::yes_or_no(alloc, is_declaring(only(words)?)),
        _ => path_command(alloc, command),
    }
}

/// Carries out a command on texts, or another one.
pub fn text_command(alloc: Global, command: &Command) -> Result<Answer, CaseFault> {
    let words = command.words();
    match command.name() {
        "line_of" => line(alloc, words),
        "sorted" => sort(alloc, words),
        "without_repeats" => once(alloc, words),
        "after_start" => after(alloc, words),
        "match_all" => matched(alloc, words),
        _ => native_command(alloc, command),
    }
}
