//! The commands that call types and generators.
use crate::pairs::pairs;
use crate::shown::{push_lists, text_or_none, told};
use b2_generators::generator::Generator;
use b2_generators::types::Types;
use std::alloc::Global;
use transcript::answer::Answer;
use transcript::case_fault::CaseFault;
use transcript::command::{Command, Word};
use transcript::words::{first, halves, only, own_text, own_texts, path, text, texts};

fn register_type(alloc: Global, types: &mut Types, words: &[Word]) -> Result<Answer, CaseFault> {
    let (name, words) = first(words)?;
    let name = text(alloc, name)?;
    let suffixes = texts(alloc, words)?;
    told(
        alloc,
        types.register_type(name.as_str(), suffixes.as_slice()),
    )
}

/// The generator `ID SOURCES : TARGETS : REQUIRED`.
fn generator(alloc: Global, words: &[Word]) -> Result<Generator, CaseFault> {
    let (id, words) = first(words)?;
    let (sources, words) = halves(words);
    let (targets, required) = halves(words);
    Ok(Generator {
        id: own_text(alloc, id)?,
        sources: own_texts(alloc, sources)?,
        targets: own_texts(alloc, targets)?,
        required: pairs(alloc, required)?,
    })
}

fn register(alloc: Global, types: &mut Types, words: &[Word]) -> Result<Answer, CaseFault> {
    let generator = generator(alloc, words)?;
    told(alloc, types.register(generator))
}

fn type_of(alloc: Global, types: &Types, words: &[Word]) -> Result<Answer, CaseFault> {
    let path = path(alloc, only(words)?)?;
    Answer::line(alloc, types.type_of(&path))
}

fn generator_line(alloc: Global, generator: &Generator) -> Result<Answer, CaseFault> {
    let mut answer = Answer::new(alloc);
    push_lists(
        &mut answer,
        generator.id.as_str(),
        generator.sources.as_slice(),
        generator.targets.as_slice(),
    );
    Ok(answer)
}

fn found(alloc: Global, found: Option<&Generator>) -> Result<Answer, CaseFault> {
    match found {
        Some(generator) => generator_line(alloc, generator),
        None => Answer::line(alloc, "none"),
    }
}

/// Carries out a command that calls types or generators.
pub fn type_command(
    alloc: Global,
    types: &mut Types,
    command: &Command,
) -> Result<Answer, CaseFault> {
    let words = command.words();
    match command.name() {
        "register_type" => register_type(alloc, types, words),
        "register" => register(alloc, types, words),
        "type_of" => type_of(alloc, types, words),
        "suffix_of" => text_or_none(alloc, types.suffix_of(only(words)?)),
        "generator" => found(alloc, types.generator(only(words)?)),
        _ => Err(CaseFault::UnknownCommand),
    }
}
