//! Calls of native and declaring rules, and what they keep.
use crate::shown::{push_texts, put_each};
use crate::world::files::file_command;
use crate::world::quoted::push_quoted;
use crate::world::session::Scene;
use b2_base::text::Text;
use b2_base::text_list::TextList;
use jam_meaning::natives::{NativeError, NativeStep, Natives};
use jam_natives::decl::Decl;
use jam_natives::natives::JamNatives;
use jam_patterns::native_fault::NativeFault;
use std::alloc::Global;
use std::mem::ManuallyDrop;
use transcript::answer::Answer;
use transcript::case_fault::CaseFault;
use transcript::command::{Command, Word};
use transcript::words::{first, lists, number};

/// Adds texts with a space between them.
fn put_texts(answer: &mut Answer, texts: &[Text]) {
    if let [text, others @ ..] = texts {
        answer.put(text.as_str());
        put_each(answer, others);
    }
}

fn push_step(answer: &mut Answer, step: &NativeStep) {
    match step {
        NativeStep::Unknown => answer.push_line("no native rule"),
        NativeStep::Value(texts) => push_texts(answer, texts.as_slice()),
        NativeStep::Exit(text) => push_quoted(answer, "exit", text.as_str()),
        NativeStep::Each {
            rule,
            items,
            filter,
        } => {
            answer.put(if *filter {
                "filter by "
            } else {
                "transform by "
            });
            put_texts(answer, rule.as_slice());
            answer.put(": ");
            put_texts(answer, items.as_slice());
            answer.end_line();
        }
    }
}

fn push_fault(answer: &mut Answer, fault: &NativeFault) {
    match fault {
        NativeFault::PatternRefused { refusal } => answer.push_words(
            "refused pattern",
            refusal.text(),
        ),
        NativeFault::NoSuchRule { module, name } => {
            answer.put("no rule ");
            answer.put(name.as_str());
            answer.put(" in [");
            answer.put(module.as_str());
            answer.push_line("]");
        }
        NativeFault::DependsElsewhere { rule, text } => {
            answer.put(rule.as_str());
            push_quoted(answer, " on a foreign target", text.as_str());
        }
    }
}

fn push_error(answer: &mut Answer, error: &NativeError) {
    match error {
        NativeError::Fault(fault) => push_fault(answer, fault),
        NativeError::Arity => answer.push_line("wrong lists"),
        NativeError::Host => answer.push_line("host fault"),
        NativeError::OutOfMemory => answer.cut(),
    }
}

/// Calls a rule with lists, and shows what came of it.
fn call_shown(
    alloc: Global,
    scene: &mut Scene,
    name: &str,
    given: &[TextList],
    line: u32,
) -> Answer {
    let ended = ManuallyDrop::new(
        scene.natives.call(alloc, name, given, line, &mut scene.world, &mut *scene.host),
    );
    let mut answer = Answer::new(alloc);
    match &*ended {
        Ok(step) => push_step(&mut answer, step),
        Err(error) => push_error(&mut answer, error),
    }
    answer
}

fn call(alloc: Global, scene: &mut Scene, words: &[Word]) -> Result<Answer, CaseFault> {
    let (line, others) = first(words)?;
    let line = number(line)?;
    let (name, others) = first(others)?;
    let given = lists(alloc, others)?;
    Ok(call_shown(alloc, scene, name, given.as_slice(), line))
}

fn push_decl(answer: &mut Answer, decl: &Decl) {
    answer.put(decl.rule.as_str());
    answer.put(" in [");
    answer.put(decl.module.as_str());
    answer.put("] of ");
    answer.put(decl.dir.as_str());
    answer.put(", line ");
    answer.put_number(decl.line as u64);
    answer.end_line();
    for list in decl.lists.as_slice() {
        answer.put(": ");
        put_texts(answer, list.as_slice());
        answer.end_line();
    }
    if decl.refused {
        answer.push_line("refused");
    }
}

fn decls(alloc: Global, natives: &JamNatives) -> Result<Answer, CaseFault> {
    let mut answer = Answer::new(alloc);
    for decl in natives.decls() {
        push_decl(&mut answer, decl);
    }
    Ok(answer)
}

/// Carries out a command on calls, or another one.
pub fn call_command(
    alloc: Global,
    scene: &mut Scene,
    command: &Command,
) -> Result<Answer, CaseFault> {
    match command.name() {
        "call" => call(alloc, scene, command.words()),
        "decls" => decls(alloc, &scene.natives),
        "echoes" => Answer::texts(alloc, scene.natives.echoes()),
        _ => file_command(alloc, scene, command),
    }
}
