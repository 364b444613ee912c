//! Looking at the world.
use crate::evaluation::machine::Machine;
use crate::host_files::put_files;
use crate::shown::put_each;
use b2_base::look::Look;
use b2_base::text::Text;
use jam_natives::decl::Decl;
use jam_natives::natives::JamNatives;
use jam_scope::world::World;
use std::alloc::Global;
use transcript::answer::Answer;
use transcript::case_fault::CaseFault;
use transcript::command::{Command, Word};
use transcript::words::{first, texts};

/// Shows a name and what it holds.
fn push_value(answer: &mut Answer, name: &str, value: &[Text]) {
    answer.put(name);
    put_each(answer, value);
    answer.end_line();
}

/// Shows what variables hold in the present module.
fn push_values(answer: &mut Answer, world: &World, names: &[Text]) {
    for name in names {
        push_value(answer, name.as_str(), world.look(name.as_str()));
    }
}

/// What variables hold in a module.
fn values(
    alloc: Global,
    world: &mut World,
    module: &str,
    words: &[Word],
) -> Result<Answer, CaseFault> {
    let names = texts(alloc, words)?;
    world.enter(module)?;
    let mut answer = Answer::new(alloc);
    push_values(&mut answer, world, names.as_slice());
    if world.may_leave() {
        world.leave();
    }
    Ok(answer)
}

/// Shows what a variable holds on a target, where it holds something.
fn push_own(answer: &mut Answer, world: &World, target: &str, name: &str) {
    if let Some(value) = world.on_target(target, name) {
        push_value(answer, name, value);
    }
}

/// What variables hold on a target.
fn own_values(alloc: Global, world: &World, words: &[Word]) -> Result<Answer, CaseFault> {
    let (target, others) = first(words)?;
    let names = texts(alloc, others)?;
    let mut answer = Answer::new(alloc);
    for name in names.as_slice() {
        push_own(&mut answer, world, target, name.as_str());
    }
    Ok(answer)
}

fn push_decl(answer: &mut Answer, decl: &Decl) {
    answer.put_number(decl.line as u64);
    answer.put(": ");
    answer.put(decl.rule.as_str());
    for list in decl.lists.as_slice() {
        answer.put(" :");
        put_each(answer, list.as_slice());
    }
    answer.end_line();
}

/// The recorded calls of declaring rules.
fn decls(alloc: Global, natives: &JamNatives) -> Result<Answer, CaseFault> {
    let mut answer = Answer::new(alloc);
    for decl in natives.decls() {
        push_decl(&mut answer, decl);
    }
    Ok(answer)
}

/// Carries out a command that puts files there, or looks at what the runs left.
pub fn look_command(
    alloc: Global,
    machine: &mut Machine,
    module: &str,
    command: &Command,
) -> Result<Answer, CaseFault> {
    let words = command.words();
    match command.name() {
        "file" => put_files(alloc, &mut machine.host, command),
        "value" => values(alloc, &mut machine.world, module, words),
        "on" => own_values(alloc, &machine.world, words),
        "decls" => decls(alloc, &machine.natives),
        _ => Err(CaseFault::UnknownCommand),
    }
}
