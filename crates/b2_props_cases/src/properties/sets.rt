//! Commands to sets of properties. The current set is made again of its pairs, since the table may have changed.
use crate::declaring::push_refusal;
use crate::pairs::{lent_pair, lent_pairs, made};
use crate::properties::shown::{push_sets, push_targets};
use crate::shown::{set_line, truth};
use b2_features::registry::Registry;
use b2_props::elements;
use b2_props::pair_index::PairIndex;
use b2_props::props::Props;
use b2_props::refinement::{expand, refine};
use b2_props::request::{Request, read_request};
use b2_props::request_fault::RequestFault;
use std::alloc::Global;
use std::mem::ManuallyDrop;
use transcript::answer::Answer;
use transcript::case_fault::CaseFault;
use transcript::command::Word;
use transcript::words::{no_words, only, texts};

pub fn expanded(
    alloc: Global,
    registry: &Registry,
    set: &Props,
    words: &[Word],
) -> Result<Props, CaseFault> {
    no_words(words)?;
    let own = made(alloc, registry, set.pairs())?;
    Ok(expand(alloc, registry, &own)?)
}

pub fn refined(
    alloc: Global,
    registry: &Registry,
    set: &Props,
    words: &[Word],
) -> Result<Props, CaseFault> {
    let required = lent_pairs(alloc, words)?;
    let own = made(alloc, registry, set.pairs())?;
    Ok(refine(alloc, registry, &own, required.as_slice())?)
}

pub fn handed(
    alloc: Global,
    registry: &Registry,
    set: &Props,
    words: &[Word],
) -> Result<Answer, CaseFault> {
    no_words(words)?;
    let own = made(alloc, registry, set.pairs())?;
    let handed = ManuallyDrop::new(elements::propagated(alloc, registry, &own)?);
    set_line(alloc, &handed)
}

pub fn dir_of(
    alloc: Global,
    registry: &Registry,
    set: &Props,
    words: &[Word],
) -> Result<Answer, CaseFault> {
    no_words(words)?;
    let own = made(alloc, registry, set.pairs())?;
    let dir = ManuallyDrop::new(elements::dir_of(alloc, registry, &own)?);
    Answer::line(alloc, dir.as_str())
}

pub fn contains(alloc: Global, set: &Props, words: &[Word]) -> Result<Answer, CaseFault> {
    let pair = lent_pair(alloc, only(words)?)?;
    truth(alloc, set.contains(pair.0.as_str(), pair.1.as_str()))
}

/// Whether the index of the current set has all of some pairs.
pub fn has_all(alloc: Global, set: &Props, words: &[Word]) -> Result<Answer, CaseFault> {
    let others = lent_pairs(alloc, words)?;
    let index = ManuallyDrop::new(PairIndex::new(alloc, set.pairs())?);
    truth(alloc, index.has_all(others.as_slice()))
}

fn push_fault(answer: &mut Answer, fault: &RequestFault) {
    match fault {
        RequestFault::UnknownWord { word } => push_refusal(answer, "unknown word", word),
        RequestFault::UnknownValue { word } => push_refusal(answer, "unknown value", word),
        RequestFault::Conflict { word } => push_refusal(answer, "conflict", word),
        RequestFault::OutOfMemory => answer.cut(),
    }
}

fn push_read(answer: &mut Answer, read: &Result<Request, RequestFault>) {
    match read {
        Ok(request) => {
            push_targets(answer, request.targets.as_slice());
            push_sets(answer, &request.sets);
        }
        Err(fault) => push_fault(answer, fault),
    }
}

pub fn request(alloc: Global, registry: &Registry, words: &[Word]) -> Result<Answer, CaseFault> {
    let words = texts(alloc, words)?;
    let read = ManuallyDrop::new(read_request(alloc, registry, words.as_slice()));
    let mut answer = Answer::new(alloc);
    push_read(&mut answer, &read);
    Ok(answer)
}
