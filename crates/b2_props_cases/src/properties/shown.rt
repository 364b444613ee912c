//! Answers of features, sets and requests.
use crate::shown::push_lists;
use b2_base::text::Text;
use b2_features::feature::Feature;
use b2_props::props::Props;
use b2_props::request::PropsList;
use std::alloc::Global;
use transcript::answer::Answer;
use transcript::case_fault::CaseFault;

pub fn place_or_none(alloc: Global, found: Option<usize>) -> Result<Answer, CaseFault> {
    match found {
        Some(place) => Answer::number(alloc, place as u64),
        None => Answer::line(alloc, "none"),
    }
}

/// A feature as it was declared: `NAME VALUES : ATTRIBUTES`.
pub fn declared(alloc: Global, feature: &Feature) -> Result<Answer, CaseFault> {
    let mut answer = Answer::new(alloc);
    push_lists(
        &mut answer,
        feature.name.as_str(),
        feature.values.as_slice(),
        feature.attributes.as_slice(),
    );
    Ok(answer)
}

pub fn declared_or_none(alloc: Global, found: Option<&Feature>) -> Result<Answer, CaseFault> {
    match found {
        Some(feature) => declared(alloc, feature),
        None => Answer::line(alloc, "none"),
    }
}

pub fn pairs_or_none(alloc: Global, found: Option<&[(Text, Text)]>) -> Result<Answer, CaseFault> {
    match found {
        Some(pairs) => Answer::properties(alloc, pairs),
        None => Answer::line(alloc, "none"),
    }
}

/// Adds a line `target NAME` for each target.
pub fn push_targets(answer: &mut Answer, targets: &[Text]) {
    for target in targets {
        answer.push_words("target", target.as_str());
    }
}

fn push_set(answer: &mut Answer, set: &Props) {
    answer.put("set");
    answer.put_properties(set.pairs());
    answer.end_line();
}

/// Adds a line `set PROPERTIES` for each set.
pub fn push_sets(answer: &mut Answer, sets: &PropsList) {
    for set in sets.as_slice() {
        push_set(answer, set);
    }
}

pub fn sets_lines(alloc: Global, sets: &PropsList) -> Result<Answer, CaseFault> {
    let mut answer = Answer::new(alloc);
    push_sets(&mut answer, sets);
    Ok(answer)
}
