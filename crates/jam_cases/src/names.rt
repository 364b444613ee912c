//! Commands on file names.
//!
//! - `parts NAME`: the five parts of the name, each with its label.
//! - `join GRIST DIR BASE SUFFIX MEMBER`: the name that these parts make.
//! - `glob_match PATTERN TEXT`: whether the pattern matches the text.
use crate::expansion::Variables;
use crate::patterns::pattern_command;
use b2_base::text::Text;
use jam_path::glob::glob_match;
use jam_path::name::{join, parts};
use jam_path::name_parts::NameParts;
use std::alloc::Global;
use std::mem::ManuallyDrop;
use transcript::answer::Answer;
use transcript::case_fault::CaseFault;
use transcript::command::{Command, Word};
use transcript::words::{both, only, text};

/// Adds a label and the part, which may be empty.
fn push_part(answer: &mut Answer, label: &str, part: &Text) {
    answer.put(label);
    if !part.as_str().is_empty() {
        answer.put(" ");
        answer.put(part.as_str());
    }
    answer.end_line();
}

fn push_parts(answer: &mut Answer, name: &NameParts) {
    push_part(answer, "grist", &name.grist);
    push_part(answer, "dir", &name.dir);
    push_part(answer, "base", &name.base);
    push_part(answer, "suffix", &name.suffix);
    push_part(answer, "member", &name.member);
}

fn answer_parts(alloc: Global, words: &[Word]) -> Result<Answer, CaseFault> {
    let name = text(alloc, only(words)?)?;
    let name = ManuallyDrop::new(parts(alloc, name.as_str())?);
    let mut answer = Answer::new(alloc);
    push_parts(&mut answer, &name);
    Ok(answer)
}

fn name_parts(alloc: Global, words: &[Word]) -> Result<NameParts, CaseFault> {
    match words {
        [grist, dir, base, suffix, member] => Ok(NameParts {
            grist: grist.as_text(alloc)?,
            dir: dir.as_text(alloc)?,
            base: base.as_text(alloc)?,
            suffix: suffix.as_text(alloc)?,
            member: member.as_text(alloc)?,
        }),
        _ => Err(CaseFault::WrongWords),
    }
}

fn answer_join(alloc: Global, words: &[Word]) -> Result<Answer, CaseFault> {
    let name = ManuallyDrop::new(name_parts(alloc, words)?);
    let joined = ManuallyDrop::new(join(alloc, &name)?);
    Answer::line(alloc, joined.as_str())
}

fn answer_glob_match(alloc: Global, words: &[Word]) -> Result<Answer, CaseFault> {
    let (pattern, text) = both(words)?;
    let is_match = glob_match(pattern, text);
    Answer::line(alloc, if is_match { "true" } else { "false" })
}

/// Carries out a command on file names, or another one.
pub fn name_command(
    alloc: Global,
    command: &Command,
    variables: &mut Variables,
) -> Result<Answer, CaseFault> {
    let words = command.words();
    match command.name() {
        "parts" => answer_parts(alloc, words),
        "join" => answer_join(alloc, words),
        "glob_match" => answer_glob_match(alloc, words),
        _ => pattern_command(alloc, command, variables),
    }
}
