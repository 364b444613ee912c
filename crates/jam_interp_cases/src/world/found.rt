//! Commands that look at rules and actions.
use crate::world::many::many_command;
use jam_scope::rule_ref::RuleRef;
use jam_scope::world::World;
use std::alloc::Global;
use std::mem::ManuallyDrop;
use transcript::answer::Answer;
use transcript::case_fault::CaseFault;
use transcript::command::{Command, Word};
use transcript::words::{both, only};

/// Adds the module and the name under which something stands.
fn put_place(answer: &mut Answer, at: &RuleRef<'_>) {
    answer.put("[");
    answer.put(at.module);
    answer.put("] ");
    answer.put(at.name);
}

/// Adds the home of a rule, and what divides it from what follows.
pub fn put_home(answer: &mut Answer, home: &str) {
    answer.put("home [");
    answer.put(home);
    answer.put("], ");
}

/// Shows the home of a rule and its line.
fn push_home(answer: &mut Answer, home: &str, line: u32) {
    put_home(answer, home);
    answer.put("line ");
    answer.put_number(line as u64);
    answer.end_line();
}

fn find_rule(alloc: Global, world: &World, words: &[Word]) -> Result<Answer, CaseFault> {
    let Some(at) = world.find_rule(only(words)?) else {
        return Answer::line(alloc, "none");
    };
    let Some((home, body)) = world.rule_body(&at) else {
        return Answer::line(alloc, "none");
    };
    let mut answer = Answer::new(alloc);
    put_place(&mut answer, &at);
    answer.put(", ");
    push_home(&mut answer, home, body.line());
    Ok(answer)
}

/// Puts a modifier of actions, if it stands.
fn put_modifier(answer: &mut Answer, stands: bool, modifier: &str) {
    if stands {
        answer.put(modifier);
    }
}

fn find_actions(alloc: Global, world: &World, words: &[Word]) -> Result<Answer, CaseFault> {
    let Some(at) = world.find_actions(only(words)?) else {
        return Answer::line(alloc, "none");
    };
    let Some(actions) = world.action_body(&at) else {
        return Answer::line(alloc, "none");
    };
    let mut answer = Answer::new(alloc);
    put_place(&mut answer, &at);
    answer.put(": ");
    put_modifier(&mut answer, actions.together(), "together ");
    put_modifier(&mut answer, actions.existing(), "existing ");
    put_modifier(&mut answer, actions.quietly(), "quietly ");
    answer.push_line(actions.text().as_str());
    Ok(answer)
}

fn rule_body(alloc: Global, world: &World, words: &[Word]) -> Result<Answer, CaseFault> {
    let (module, name) = both(words)?;
    let Some((home, body)) = world.rule_body(&RuleRef { module, name }) else {
        return Answer::line(alloc, "none");
    };
    let mut answer = Answer::new(alloc);
    push_home(&mut answer, home, body.line());
    Ok(answer)
}

fn rule_names(alloc: Global, world: &World, words: &[Word]) -> Result<Answer, CaseFault> {
    let names = ManuallyDrop::new(world.rule_names(only(words)?)?);
    Answer::texts(alloc, names.as_slice())
}

/// Carries out a command that looks at rules and actions, or another one.
pub fn found_command(
    alloc: Global,
    world: &mut World,
    command: &Command,
) -> Result<Answer, CaseFault> {
    let words = command.words();
    match command.name() {
        "find_rule" => find_rule(alloc, world, words),
        "find_actions" => find_actions(alloc, world, words),
        "rule_body" => rule_body(alloc, world, words),
        "rule_names" => rule_names(alloc, world, words),
        _ => many_command(alloc, world, command),
    }
}
