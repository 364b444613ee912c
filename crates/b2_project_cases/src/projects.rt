//! Projects and main targets.
use crate::shown::{push_list, push_pair_list, push_requirements};
use b2_base::path::Path;
use b2_declared::place::{IndirectRule, Place, Target, TestCall};
use b2_making_cases::declarations::shown::kind_word;
use jam_natives::decl::Decl;
use std::alloc::Global;
use transcript::answer::Answer;
use transcript::case_fault::CaseFault;

/// Adds the line of a project: its number, directory, file, module and parent.
fn push_head(answer: &mut Answer, number: usize, place: &Place) {
    answer.put_number(number as u64);
    answer.put(" ");
    answer.put(place.dir.as_str());
    answer.put(" ");
    answer.put(place.file.as_str());
    answer.put_word(place.module.as_str());
    if let Some(parent) = place.parent {
        answer.put(" in ");
        answer.put_number(parent as u64);
    }
    answer.end_line();
}

fn push_builds(answer: &mut Answer, builds: &[Path]) {
    if builds.is_empty() {
        return;
    }
    answer.put("build-project");
    for dir in builds {
        answer.put_word(dir.as_str());
    }
    answer.end_line();
}

fn push_place(answer: &mut Answer, number: usize, place: &Place) {
    push_head(answer, number, place);
    push_requirements(answer, "requirements", place.requirements.as_slice());
    push_pair_list(answer, "default-build", place.defaults.as_slice());
    push_requirements(answer, "usage-requirements", place.usage.as_slice());
    push_builds(answer, place.builds.as_slice());
    push_list(answer, "explicit", place.explicit.as_slice());
}

/// The projects in order of loading.
pub fn projects(alloc: Global, places: &[Place]) -> Result<Answer, CaseFault> {
    let mut answer = Answer::new(alloc);
    for number in 0..places.len() {
        push_place(&mut answer, number, &places[number]);
    }
    Ok(answer)
}

/// Puts the line of a file at which something stands, which is shown last.
fn put_source_line(answer: &mut Answer, line: u32) {
    answer.put(" line ");
    answer.put_number(line as u64);
}

/// Adds the line of a main target: the number of its project, its kind, name and line.
fn push_target_head(answer: &mut Answer, target: &Target) {
    answer.put_number(target.project as u64);
    answer.put(" ");
    answer.put(kind_word(target.kind));
    answer.put_word(target.name.as_str());
    put_source_line(answer, target.line);
    answer.end_line();
}

fn push_rule(answer: &mut Answer, rule: &str) {
    if !rule.is_empty() {
        answer.push_words("rule", rule);
    }
}

fn push_target(answer: &mut Answer, target: &Target) {
    push_target_head(answer, target);
    push_list(answer, "sources", target.sources.as_slice());
    push_rule(answer, target.rule.as_str());
    push_requirements(answer, "requirements", target.requirements.as_slice());
    push_pair_list(answer, "default-build", target.defaults.as_slice());
    push_requirements(answer, "usage-requirements", target.usage.as_slice());
}

/// The main targets in order of recording.
pub fn targets(alloc: Global, targets: &[Target]) -> Result<Answer, CaseFault> {
    let mut answer = Answer::new(alloc);
    for target in targets {
        push_target(&mut answer, target);
    }
    Ok(answer)
}

/// Adds a test: the number of its project, its rule, name and line, and what its call says.
fn push_test(answer: &mut Answer, test: &TestCall) {
    answer.put_number(test.project as u64);
    answer.put(" ");
    answer.put(test.rule.as_str());
    answer.put_word(test.name.as_str());
    put_source_line(answer, test.line);
    answer.end_line();
    push_list(answer, "sources", test.sources.as_slice());
    push_requirements(answer, "requirements", test.requirements.as_slice());
}

/// The tests in order of recording.
pub fn tests(alloc: Global, tests: &[TestCall]) -> Result<Answer, CaseFault> {
    let mut answer = Answer::new(alloc);
    for test in tests {
        push_test(&mut answer, test);
    }
    Ok(answer)
}

fn push_indirect(answer: &mut Answer, number: usize, rule: &IndirectRule) {
    answer.put_number(number as u64);
    answer.put(" ");
    answer.put_number(rule.project as u64);
    answer.put(" ");
    answer.put(rule.rule.as_str());
    put_source_line(answer, rule.line);
    answer.end_line();
}

/// The rules of indirect requirements.
pub fn indirect(alloc: Global, rules: &[IndirectRule]) -> Result<Answer, CaseFault> {
    let mut answer = Answer::new(alloc);
    for number in 0..rules.len() {
        push_indirect(&mut answer, number, &rules[number]);
    }
    Ok(answer)
}

/// Adds a recorded call: its line, its rule, and its lists.
fn push_decl(answer: &mut Answer, decl: &Decl) {
    answer.put_number(decl.line as u64);
    answer.put(": ");
    answer.put(decl.rule.as_str());
    for list in decl.lists.as_slice() {
        answer.put(" :");
        answer.put_words(list.as_slice());
    }
    answer.end_line();
}

/// The recorded calls.
pub fn decls(alloc: Global, decls: &[Decl]) -> Result<Answer, CaseFault> {
    let mut answer = Answer::new(alloc);
    for decl in decls {
        push_decl(&mut answer, decl);
    }
    Ok(answer)
}
