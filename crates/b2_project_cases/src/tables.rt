//! What a load declares in the tables of features, types and generators, and the directories of its ids.
use crate::shown::push_pair_list;
use b2_declared::ids::Ids;
use b2_features::feature::Feature;
use b2_features::registry::Registry;
use b2_generators::generator::Generator;
use b2_generators::types::Types;
use std::alloc::Global;
use transcript::answer::Answer;
use transcript::case_fault::CaseFault;
use transcript::command::Word;
use transcript::words::{both, path};

fn push_dir(answer: &mut Answer, ids: &Ids, id: &str) {
    match ids.dir_of(id) {
        Some(dir) => answer.push_line(dir.as_str()),
        None => answer.push_line("none"),
    }
}

/// The directories of ids.
pub fn dirs(alloc: Global, ids: &Ids, words: &[Word]) -> Result<Answer, CaseFault> {
    let mut answer = Answer::new(alloc);
    for word in words {
        push_dir(&mut answer, ids, word.as_str()?);
    }
    Ok(answer)
}

/// Adds a feature as it was declared: `NAME VALUES : ATTRIBUTES`.
fn push_declared(answer: &mut Answer, feature: &Feature) {
    answer.put(feature.name.as_str());
    answer.put_texts(feature.values.as_slice());
    answer.put(" :");
    answer.put_texts(feature.attributes.as_slice());
    answer.end_line();
}

fn push_feature(answer: &mut Answer, registry: &Registry, name: &str) {
    match registry.find(name) {
        Some(feature) => push_declared(answer, feature),
        None => answer.push_line("none"),
    }
}

/// Features of names.
pub fn features(alloc: Global, registry: &Registry, words: &[Word]) -> Result<Answer, CaseFault> {
    let mut answer = Answer::new(alloc);
    for word in words {
        push_feature(&mut answer, registry, word.as_str()?);
    }
    Ok(answer)
}

fn push_parts(answer: &mut Answer, registry: &Registry, feature: &str, value: &str) {
    answer.put("parts");
    if let Some(feature) = registry.find(feature) {
        if let Some(parts) = feature.parts_of(value) {
            answer.put_properties(parts);
        }
    }
    answer.end_line();
}

/// What a value of a feature, which stand in two words, is composed of.
pub fn parts_of(alloc: Global, registry: &Registry, words: &[Word]) -> Result<Answer, CaseFault> {
    let (feature, value) = both(words)?;
    let mut answer = Answer::new(alloc);
    push_parts(&mut answer, registry, feature, value);
    Ok(answer)
}

fn push_type(
    alloc: Global,
    answer: &mut Answer,
    types: &Types,
    file: &str,
) -> Result<(), CaseFault> {
    let path = path(alloc, file)?;
    answer.push_line(types.type_of(&path));
    Ok(())
}

fn push_suffix(answer: &mut Answer, types: &Types, name: &str) {
    match types.suffix_of(name) {
        Some(suffix) => answer.push_line(suffix),
        None => answer.push_line("none"),
    }
}

/// Adds a generator: `ID SOURCES : TARGETS`, and what it requires on a line of its own.
fn push_generator_lines(answer: &mut Answer, generator: &Generator) {
    answer.put(generator.id.as_str());
    answer.put_words(generator.sources.as_slice());
    answer.put(" :");
    answer.put_words(generator.targets.as_slice());
    answer.end_line();
    push_pair_list(answer, "requirements", generator.required.as_slice());
}

fn push_generator(answer: &mut Answer, types: &Types, id: &str) {
    match types.generator(id) {
        Some(generator) => push_generator_lines(answer, generator),
        None => answer.push_line("none"),
    }
}

/// Adds what the command of this name shows of one word.
fn push_looked_up(
    alloc: Global,
    answer: &mut Answer,
    types: &Types,
    command: &str,
    word: &str,
) -> Result<(), CaseFault> {
    match command {
        "type_of" => push_type(alloc, answer, types, word)?,
        "suffix_of" => push_suffix(answer, types, word),
        _ => push_generator(answer, types, word),
    }
    Ok(())
}

/// The types of files, the first suffixes of types, or the generators of ids.
pub fn look_up(
    alloc: Global,
    types: &Types,
    command: &str,
    words: &[Word],
) -> Result<Answer, CaseFault> {
    let mut answer = Answer::new(alloc);
    for word in words {
        push_looked_up(alloc, &mut answer, types, command, word.as_str()?)?;
    }
    Ok(answer)
}
