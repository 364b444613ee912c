//! Commands that show paths.
ghost use Rattle.std.specs.Prelude.{IfSome};
ghost use Rattle.std.specs.Option.{option_copied};
ghost use Rattle.b2_base.specs.Bytes.{HasNoZero};

use crate::outputs::shown::path_answer;
use crate::words::plain;
use b2_base::fault::OutOfMemory;
use b2_base::path::Path;
use b2_plan::roots::is_in_roots;
use b2_virtual::paths::{location_path, named_tail, output_path};
use b2_virtual::tails::{converted_tail, source_tail};
use std::alloc::Global;
use std::mem::ManuallyDrop;
use transcript::answer::Answer;
use transcript::case_fault::CaseFault;
use transcript::command::{Command, Word};
use transcript::words::{both, first, halves, only, path, paths};

fn shown(alloc: Global, made: Result<Path, OutOfMemory>) -> Result<Answer, CaseFault> {
    let made = ManuallyDrop::new(made?);
    Answer::line(alloc, made.as_str())
}

fn show_converted(alloc: Global, tail: &str, suffix: Option<&str>) -> Result<Answer, CaseFault>
    requires { IfSome (option_copied suffix) HasNoZero }
{
    let tail = path(alloc, tail)?;
    shown(alloc, converted_tail(alloc, &tail, suffix))
}

fn show_converted_tail(alloc: Global, words: &[Word]) -> Result<Answer, CaseFault> {
    match words {
        [tail] => show_converted(alloc, tail.as_str()?, None),
        [tail, suffix] => show_converted(alloc, tail.as_str()?, Some(plain(suffix.as_str()?)?)),
        _ => Err(CaseFault::WrongWords),
    }
}

fn show_named_tail(alloc: Global, words: &[Word]) -> Result<Answer, CaseFault> {
    let (dir, name) = both(words)?;
    let name = plain(name)?;
    let dir = path(alloc, dir)?;
    shown(alloc, named_tail(alloc, &dir, name))
}

fn show_output_path(alloc: Global, words: &[Word]) -> Result<Answer, CaseFault> {
    let (elements, tail) = both(words)?;
    let elements = plain(elements)?;
    let tail = path(alloc, tail)?;
    shown(alloc, output_path(alloc, elements, &tail))
}

fn show_location(alloc: Global, roots: &[Path], words: &[Word]) -> Result<Answer, CaseFault> {
    let (dir, words) = first(words)?;
    let (location, name) = both(words)?;
    let location = plain(location)?;
    let name = plain(name)?;
    let dir = path(alloc, dir)?;
    let made = ManuallyDrop::new(location_path(alloc, roots, &dir, location, name));
    path_answer(alloc, &made)
}

fn show_location_path(alloc: Global, words: &[Word]) -> Result<Answer, CaseFault> {
    let (words, roots) = halves(words);
    let roots = paths(alloc, roots)?;
    show_location(alloc, roots.as_slice(), words)
}

fn show_is_in_roots(alloc: Global, words: &[Word]) -> Result<Answer, CaseFault> {
    let (words, roots) = halves(words);
    let path = path(alloc, only(words)?)?;
    let roots = paths(alloc, roots)?;
    Answer::truth(alloc, is_in_roots(roots.as_slice(), &path))
}

/// Carries out a command on the places of outputs.
fn place_command(alloc: Global, command: &Command) -> Result<Answer, CaseFault> {
    let words = command.words();
    match command.name() {
        "output_path" => show_output_path(alloc, words),
        "location_path" => show_location_path(alloc, words),
        "is_in_roots" => show_is_in_roots(alloc, words),
        _ => Err(CaseFault::UnknownCommand),
    }
}

/// Carries out a command on tails, or else one on the places of outputs.
pub fn path_command(alloc: Global, command: &Command) -> Result<Answer, CaseFault> {
    let words = command.words();
    match command.name() {
        "source_tail" => {
            let path = path(alloc, only(words)?)?;
            shown(alloc, source_tail(alloc, &path))
        }
        "converted_tail" => show_converted_tail(alloc, words),
        "named_tail" => show_named_tail(alloc, words),
        _ => place_command(alloc, command),
    }
}
