//! Declarations of features, which both parts make, and refusals.
use crate::pairs::{lent_pair, lent_pairs};
use crate::shown::ok;
use b2_base::text::Text;
use b2_features::fault::FeatureFault;
use b2_features::registry::Registry;
use b2_gcc::features::declare_features;
use std::alloc::Global;
use std::mem::ManuallyDrop;
use transcript::answer::Answer;
use transcript::case_fault::CaseFault;
use transcript::command::Word;
use transcript::words::{first, halves, no_words, text, texts};

/// Adds a refusal with the word that it names.
pub fn push_refusal(answer: &mut Answer, kind: &str, word: &Text) {
    answer.put(kind);
    answer.put(": ");
    answer.push_line(word.as_str());
}

fn push_fault(answer: &mut Answer, fault: &FeatureFault) {
    match fault {
        FeatureFault::Twice { word } => push_refusal(answer, "there twice", word),
        FeatureFault::Unknown { word } => push_refusal(answer, "unknown", word),
        FeatureFault::BadValue { word } => push_refusal(answer, "bad value", word),
        FeatureFault::ComposeConflict { word } => push_refusal(answer, "conflict", word),
        FeatureFault::OutOfMemory => answer.cut(),
    }
}

/// The line of a fault of the registry: its kind, then its word.
pub fn refused(alloc: Global, fault: FeatureFault) -> Result<Answer, CaseFault> {
    let fault = ManuallyDrop::new(fault);
    let mut answer = Answer::new(alloc);
    push_fault(&mut answer, &fault);
    Ok(answer)
}

fn outcome(alloc: Global, outcome: Result<(), FeatureFault>) -> Result<Answer, CaseFault> {
    match outcome {
        Ok(()) => ok(alloc),
        Err(fault) => refused(alloc, fault),
    }
}

/// Declares `NAME VALUES : ATTRIBUTES`.
pub fn feature(
    alloc: Global,
    registry: &mut Registry,
    words: &[Word],
) -> Result<Answer, CaseFault> {
    let (name, words) = first(words)?;
    let (values, attributes) = halves(words);
    let name = text(alloc, name)?;
    let values = texts(alloc, values)?;
    let attributes = texts(alloc, attributes)?;
    outcome(
        alloc,
        registry.feature(name.as_str(), values.as_slice(), attributes.as_slice()),
    )
}

/// Composes `PROPERTY COMPONENTS`.
pub fn compose(
    alloc: Global,
    registry: &mut Registry,
    words: &[Word],
) -> Result<Answer, CaseFault> {
    let (composite, words) = first(words)?;
    let composite = lent_pair(alloc, composite)?;
    let parts = lent_pairs(alloc, words)?;
    outcome(
        alloc,
        registry.compose(composite.0.as_str(), composite.1.as_str(), parts.as_slice()),
    )
}

/// Declares the features of the gcc toolset.
pub fn declare_toolset(
    alloc: Global,
    registry: &mut Registry,
    words: &[Word],
) -> Result<Answer, CaseFault> {
    no_words(words)?;
    outcome(alloc, declare_features(alloc, registry))
}
