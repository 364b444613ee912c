//! The commands that declare features, types and generators.
use crate::words::{pairs, plain};
use b2_features::fault::FeatureFault;
use b2_features::registry::Registry;
use b2_gcc::features::declare_features;
use b2_gcc::types::{declare_generators, declare_types};
use b2_generators::generator::Generator;
use b2_generators::types::Types;
use std::alloc::Global;
use transcript::answer::Answer;
use transcript::case_fault::CaseFault;
use transcript::command::Word;
use transcript::words::{first, halves, no_words, own_text, own_texts, texts};

/// No lines where a declaration was taken.
fn taken(alloc: Global, is_taken: bool) -> Result<Answer, CaseFault> {
    if is_taken {
        Ok(Answer::new(alloc))
    } else {
        Err(CaseFault::WrongWords)
    }
}

/// Whether a declaration of features was taken.
fn is_taken(declared: Result<(), FeatureFault>) -> bool {
    let is_taken = declared.is_ok();
    drop(declared);
    is_taken
}

fn declare_gcc(
    alloc: Global,
    registry: &mut Registry,
    types: &mut Types,
    words: &[Word],
) -> Result<Answer, CaseFault> {
    no_words(words)?;
    if !is_taken(declare_features(alloc, registry)) {
        return Err(CaseFault::WrongWords);
    }
    let has_types = declare_types(alloc, types)?;
    let has_generators = declare_generators(alloc, types)?;
    taken(alloc, has_types && has_generators)
}

fn feature(alloc: Global, registry: &mut Registry, words: &[Word]) -> Result<Answer, CaseFault> {
    let (name, words) = first(words)?;
    let name = plain(name)?;
    let (values, attributes) = halves(words);
    let values = texts(alloc, values)?;
    let attributes = texts(alloc, attributes)?;
    let added = registry.feature(name, values.as_slice(), attributes.as_slice());
    taken(alloc, is_taken(added))
}

fn file_type(alloc: Global, types: &mut Types, words: &[Word]) -> Result<Answer, CaseFault> {
    let (name, suffixes) = first(words)?;
    let suffixes = texts(alloc, suffixes)?;
    taken(
        alloc,
        types.register_type(plain(name)?, suffixes.as_slice())?,
    )
}

fn generator(alloc: Global, types: &mut Types, words: &[Word]) -> Result<Answer, CaseFault> {
    let (id, words) = first(words)?;
    let (sources, words) = halves(words);
    let (targets, required) = halves(words);
    let generator = Generator {
        id: own_text(alloc, id)?,
        sources: own_texts(alloc, sources)?,
        targets: own_texts(alloc, targets)?,
        required: pairs(alloc, required)?,
    };
    taken(alloc, types.register(generator)?)
}

/// Carries out a command that declares.
pub fn declare(
    alloc: Global,
    registry: &mut Registry,
    types: &mut Types,
    name: &str,
    words: &[Word],
) -> Result<Answer, CaseFault> {
    match name {
        "gcc" => declare_gcc(alloc, registry, types, words),
        "feature" => feature(alloc, registry, words),
        "type" => file_type(alloc, types, words),
        "generator" => generator(alloc, types, words),
        _ => Err(CaseFault::UnknownCommand),
    }
}
