//! Commands that define rules and actions.
use crate::world::found::{found_command, put_home};
use b2_base::fault::OutOfMemory;
use b2_base::text::Text;
use jam_grammar::tree::Block;
use jam_scope::body::{ActionBody, RuleBody};
use jam_scope::rule::Rule;
use jam_scope::rule_ref::RuleRef;
use jam_scope::world::World;
use std::alloc::Global;
use std::mem::ManuallyDrop;
use std::rc::Rc;
use transcript::answer::Answer;
use transcript::case_fault::CaseFault;
use transcript::command::{Command, Word};
use transcript::words::{both, first, number, only};

/// A rule without parameters and statements that stands in a line of the file `F`.
fn body_of(alloc: Global, line: u32) -> Result<RuleBody, OutOfMemory> {
    let path = Text::new(alloc, "F")?;
    let stmts = Vec::new(alloc);
    let block = Rc::new(alloc, Block { stmts })?;
    Ok(RuleBody::new(Vec::new(alloc), block, path, line))
}

fn define(alloc: Global, world: &mut World, name: &str, line: u32) -> Result<(), OutOfMemory> {
    world.define_rule(name, body_of(alloc, line)?)
}

fn define_rule(alloc: Global, world: &mut World, words: &[Word]) -> Result<Answer, CaseFault> {
    let (name, line) = both(words)?;
    let line = number(line)?;
    Answer::done(alloc, define(alloc, world, name, line))
}

/// Whether a word stands among these.
fn has_word(words: &[Word], word: &str) -> bool {
    for other in words {
        if other.bytes() == word.as_bytes() {
            return true;
        }
    }
    false
}

fn define_actions(alloc: Global, world: &mut World, words: &[Word]) -> Result<Answer, CaseFault> {
    let [name, body, modifiers @ ..] = words else {
        return Err(CaseFault::WrongWords);
    };
    let name = name.as_str()?;
    let together = has_word(modifiers, "together");
    let existing = has_word(modifiers, "existing");
    let quietly = has_word(modifiers, "quietly");
    let body = ActionBody::new(body.as_text(alloc)?, together, existing, quietly);
    Answer::done(alloc, world.define_actions(name, body))
}

fn import_rule(alloc: Global, world: &mut World, words: &[Word]) -> Result<Answer, CaseFault> {
    let (module, others) = first(words)?;
    let (name, others) = first(others)?;
    let (to_module, to_name) = both(others)?;
    let found = world.import_rule(&RuleRef { module, name }, to_module, to_name)?;
    Answer::line(alloc, if found { "imported" } else { "none" })
}

fn push_rule(answer: &mut Answer, rule: &Rule) {
    let body = rule.body();
    put_home(answer, rule.home());
    answer.put(body.path().as_str());
    answer.put(":");
    answer.put_number(body.line() as u64);
    answer.put(", ");
    answer.put_number(body.params().len() as u64);
    answer.put(" lists, ");
    answer.put_number(body.block().stmts.len() as u64);
    answer.push_line(" statements");
}

/// Shows a share of a rule, after its name was defined again in the present module.
fn rule_at(alloc: Global, world: &mut World, words: &[Word]) -> Result<Answer, CaseFault> {
    let (module, others) = first(words)?;
    let (name, line) = both(others)?;
    let line = number(line)?;
    let Some(rule) = world.rule_at(&RuleRef { module, name })? else {
        return Answer::line(alloc, "none");
    };
    let rule = ManuallyDrop::new(rule);
    define(alloc, world, name, line)?;
    let mut answer = Answer::new(alloc);
    push_rule(&mut answer, &rule);
    Ok(answer)
}

fn set_parent(alloc: Global, world: &mut World, words: &[Word]) -> Result<Answer, CaseFault> {
    let (module, parent) = both(words)?;
    if !world.may_be_above(module, parent) {
        return Answer::line(alloc, "not above");
    }
    Answer::done(alloc, world.set_parent(module, parent))
}

/// Carries out a command that defines rules and actions, or another one.
pub fn rule_command(
    alloc: Global,
    world: &mut World,
    command: &Command,
) -> Result<Answer, CaseFault> {
    let words = command.words();
    match command.name() {
        "define_rule" => define_rule(alloc, world, words),
        "define_actions" => define_actions(alloc, world, words),
        "import_rule" => import_rule(alloc, world, words),
        "rule_at" => rule_at(alloc, world, words),
        "set_parent" => set_parent(alloc, world, words),
        _ => found_command(alloc, world, command),
    }
}
