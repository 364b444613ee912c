//! Commands on patterns with groups.
//!
//! - `groups PATTERN TEXT`: the groups of the first match, each on a line below `match`.
//! - `group_lengths PATTERN NAME`: the lengths of the groups of the first match in the first text of a variable.
use crate::expansion::{Variables, expansion_command};
use b2_base::look::Look;
use b2_base::text::Text;
use b2_base::text_list::TextList;
use jam_patterns::groups::groups;
use jam_patterns::refusal::{PatternFault, Refusal};
use std::alloc::Global;
use std::mem::ManuallyDrop;
use transcript::answer::Answer;
use transcript::case_fault::CaseFault;
use transcript::command::{Command, Word};
use transcript::words::{both, text};

/// What is shown of the groups of a match.
#[derive(Clone, Copy)]
enum Shown {
    Texts,
    Lengths,
}

fn refusal_answer(alloc: Global, refusal: &Refusal) -> Result<Answer, CaseFault> {
    let mut answer = Answer::new(alloc);
    answer.push_words("bad pattern", refusal.text());
    answer.push_line(if refusal.syntax() {
        "syntax true"
    } else {
        "syntax false"
    });
    Ok(answer)
}

fn push_group(answer: &mut Answer, group: &str, shown: Shown) {
    match shown {
        Shown::Texts => answer.put(group),
        Shown::Lengths => answer.put_number(group.len() as u64),
    }
    answer.end_line();
}

fn groups_answer(alloc: Global, found: &TextList, shown: Shown) -> Result<Answer, CaseFault> {
    let mut answer = Answer::new(alloc);
    answer.push_line("match");
    for group in found.as_slice() {
        push_group(&mut answer, group.as_str(), shown);
    }
    Ok(answer)
}

fn found_answer(
    alloc: Global,
    found: &Result<Option<TextList>, PatternFault>,
    shown: Shown,
) -> Result<Answer, CaseFault> {
    match found {
        Ok(Some(found)) => groups_answer(alloc, found, shown),
        Ok(None) => Answer::line(alloc, "no match"),
        Err(PatternFault::Refused(refusal)) => refusal_answer(alloc, refusal),
        Err(PatternFault::OutOfMemory) => Err(CaseFault::OutOfMemory),
    }
}

/// The first match of a pattern in a text.
fn match_answer(
    alloc: Global,
    pattern: &str,
    within: &Text,
    shown: Shown,
) -> Result<Answer, CaseFault> {
    let pattern = text(alloc, pattern)?;
    let found = ManuallyDrop::new(groups(alloc, pattern.as_str(), within.as_str()));
    found_answer(alloc, &found, shown)
}

fn answer_groups(alloc: Global, words: &[Word]) -> Result<Answer, CaseFault> {
    let (pattern, within) = both(words)?;
    let within = text(alloc, within)?;
    match_answer(alloc, pattern, &within, Shown::Texts)
}

fn answer_group_lengths(
    alloc: Global,
    words: &[Word],
    variables: &Variables,
) -> Result<Answer, CaseFault> {
    let (pattern, name) = both(words)?;
    match variables.look(name).first() {
        Some(within) => match_answer(alloc, pattern, within, Shown::Lengths),
        None => Err(CaseFault::WrongWords),
    }
}

/// Carries out a command on patterns with groups, or another one.
pub fn pattern_command(
    alloc: Global,
    command: &Command,
    variables: &mut Variables,
) -> Result<Answer, CaseFault> {
    match command.name() {
        "groups" => answer_groups(alloc, command.words()),
        "group_lengths" => answer_group_lengths(alloc, command.words(), variables),
        _ => expansion_command(alloc, command, variables),
    }
}
