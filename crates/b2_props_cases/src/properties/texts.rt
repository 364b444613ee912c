//! Commands that read the property texts of project files.
use crate::declaring::refused;
use crate::pairs::lent_pairs;
use crate::properties::features::feature_command;
use crate::properties::sets::request;
use crate::shown::told;
use b2_base::path::Path;
use b2_base::text::Text;
use b2_base::text_list::TextList;
use b2_features::registry::Registry;
use b2_property_texts::clashes::{has_two_values, unconditional_pairs};
use b2_property_texts::lists::{read_properties, read_requirements, read_usages};
use b2_property_texts::reading::{
    Conditional, RequirementText, read_property, read_requirement, read_usage,
};
use std::alloc::Global;
use std::mem::ManuallyDrop;
use transcript::answer::Answer;
use transcript::case_fault::CaseFault;
use transcript::command::{Command, Word};
use transcript::words::{both, first, path, text, texts};

/// The directory of a project, and a text of its file, to lend.
fn dir_and_text(
    alloc: Global,
    words: &[Word],
) -> Result<(ManuallyDrop<Path>, ManuallyDrop<Text>), CaseFault> {
    let (dir, word) = both(words)?;
    Ok((path(alloc, dir)?, text(alloc, word)?))
}

/// The directory of a project, and texts of its file, to lend.
fn dir_and_texts(
    alloc: Global,
    words: &[Word],
) -> Result<(ManuallyDrop<Path>, ManuallyDrop<TextList>), CaseFault> {
    let (dir, words) = first(words)?;
    Ok((path(alloc, dir)?, texts(alloc, words)?))
}

fn pair_line(alloc: Global, pair: &(Text, Text)) -> Result<Answer, CaseFault> {
    let mut answer = Answer::new(alloc);
    answer.put_property(pair);
    answer.end_line();
    Ok(answer)
}

/// Adds a line of a property, after its conditions and the sign `:` where it has some.
fn push_conditional(answer: &mut Answer, read: &Conditional) {
    let conditions = read.conditions.as_slice();
    if !conditions.is_empty() {
        answer.put_properties(conditions);
        answer.put(" :");
    }
    answer.put_property(&read.property);
    answer.end_line();
}

fn conditional_line(alloc: Global, read: &Conditional) -> Result<Answer, CaseFault> {
    let mut answer = Answer::new(alloc);
    push_conditional(&mut answer, read);
    Ok(answer)
}

fn conditional_lines(alloc: Global, read: &[Conditional]) -> Result<Answer, CaseFault> {
    let mut answer = Answer::new(alloc);
    for usage in read {
        push_conditional(&mut answer, usage);
    }
    Ok(answer)
}

fn requirement_line(alloc: Global, read: &RequirementText) -> Result<Answer, CaseFault> {
    match read {
        RequirementText::Plain(plain) => conditional_line(alloc, plain),
        RequirementText::Indirect(rule) => Answer::words(alloc, "rule", rule.as_str()),
    }
}

/// The properties of requirements without conditions.
fn unconditional_line(alloc: Global, read: &[RequirementText]) -> Result<Answer, CaseFault> {
    let pairs = ManuallyDrop::new(unconditional_pairs(alloc, read)?);
    Answer::properties(alloc, pairs.as_slice())
}

fn property(alloc: Global, registry: &Registry, words: &[Word]) -> Result<Answer, CaseFault> {
    let (dir, text) = dir_and_text(alloc, words)?;
    match read_property(alloc, registry, &dir, &text) {
        Ok(read) => {
            let read = ManuallyDrop::new(read);
            pair_line(alloc, &read)
        }
        Err(fault) => refused(alloc, fault),
    }
}

fn usage(alloc: Global, registry: &Registry, words: &[Word]) -> Result<Answer, CaseFault> {
    let (dir, text) = dir_and_text(alloc, words)?;
    match read_usage(alloc, registry, &dir, &text) {
        Ok(read) => {
            let read = ManuallyDrop::new(read);
            conditional_line(alloc, &read)
        }
        Err(fault) => refused(alloc, fault),
    }
}

fn requirement(alloc: Global, registry: &Registry, words: &[Word]) -> Result<Answer, CaseFault> {
    let (dir, text) = dir_and_text(alloc, words)?;
    match read_requirement(alloc, registry, &dir, &text) {
        Ok(read) => {
            let read = ManuallyDrop::new(read);
            requirement_line(alloc, &read)
        }
        Err(fault) => refused(alloc, fault),
    }
}

fn properties(alloc: Global, registry: &Registry, words: &[Word]) -> Result<Answer, CaseFault> {
    let (dir, texts) = dir_and_texts(alloc, words)?;
    match read_properties(alloc, registry, &dir, texts.as_slice()) {
        Ok(read) => {
            let read = ManuallyDrop::new(read);
            Answer::properties(alloc, read.as_slice())
        }
        Err(fault) => refused(alloc, fault),
    }
}

fn usages(alloc: Global, registry: &Registry, words: &[Word]) -> Result<Answer, CaseFault> {
    let (dir, texts) = dir_and_texts(alloc, words)?;
    match read_usages(alloc, registry, &dir, texts.as_slice()) {
        Ok(read) => {
            let read = ManuallyDrop::new(read);
            conditional_lines(alloc, read.as_slice())
        }
        Err(fault) => refused(alloc, fault),
    }
}

fn requirements(alloc: Global, registry: &Registry, words: &[Word]) -> Result<Answer, CaseFault> {
    let (dir, texts) = dir_and_texts(alloc, words)?;
    match read_requirements(alloc, registry, &dir, texts.as_slice()) {
        Ok(read) => {
            let read = ManuallyDrop::new(read);
            unconditional_line(alloc, read.as_slice())
        }
        Err(fault) => refused(alloc, fault),
    }
}

fn two_values(alloc: Global, registry: &Registry, words: &[Word]) -> Result<Answer, CaseFault> {
    let pairs = lent_pairs(alloc, words)?;
    told(alloc, has_two_values(alloc, registry, pairs.as_slice()))
}

/// Reads several texts, or carries out another command.
fn list_command(
    alloc: Global,
    registry: &Registry,
    command: &Command,
) -> Result<Answer, CaseFault> {
    let words = command.words();
    match command.name() {
        "read_request" => request(alloc, registry, words),
        "read_properties" => properties(alloc, registry, words),
        "read_usages" => usages(alloc, registry, words),
        "read_requirements" => requirements(alloc, registry, words),
        _ => feature_command(alloc, registry, command),
    }
}

/// Reads property texts, or carries out another command.
pub fn text_command(
    alloc: Global,
    registry: &Registry,
    command: &Command,
) -> Result<Answer, CaseFault> {
    let words = command.words();
    match command.name() {
        "read_property" => property(alloc, registry, words),
        "read_usage" => usage(alloc, registry, words),
        "read_requirement" => requirement(alloc, registry, words),
        "has_two_values" => two_values(alloc, registry, words),
        _ => list_command(alloc, registry, command),
    }
}
