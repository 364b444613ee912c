//! Calls that leave the world as it is.
use crate::evaluation::faults::push_fault;
use crate::evaluation::machine::Machine;
use crate::shown::push_texts;
use b2_base::text::Text;
use b2_base::text_list::TextList;
use jam_interp::rolled::call_rolled;
use jam_interp::turns::Turns;
use std::alloc::Global;
use std::mem::ManuallyDrop;
use transcript::answer::Answer;
use transcript::case_fault::CaseFault;
use transcript::command::Word;
use transcript::words::{first, lists, text};

/// Calls a rule in a module.
fn call_there(
    alloc: Global,
    machine: &mut Machine,
    module: &str,
    rule: &Text,
    lists: &[TextList],
    turns: &mut Turns,
) -> Result<Answer, CaseFault> {
    machine.world.enter(module)?;
    let ended = ManuallyDrop::new(call_rolled(
        alloc,
        &mut machine.world,
        rule.as_str(),
        lists,
        turns,
        &mut *machine.natives,
        &mut *machine.host,
    ));
    if machine.world.may_leave() {
        machine.world.leave();
    }
    let mut answer = Answer::new(alloc);
    match &*ended {
        Ok(called) => push_texts(&mut answer, called.value.as_slice()),
        Err(fault) => push_fault(&mut answer, fault),
    }
    Ok(answer)
}

/// The rule and the lists of a call. They are read where no machine is, since each exit is proved with all that lives there.
fn call_of(
    alloc: Global,
    words: &[Word],
) -> Result<(ManuallyDrop<Text>, ManuallyDrop<Vec<TextList>>), CaseFault> {
    let (rule, others) = first(words)?;
    Ok((text(alloc, rule)?, lists(alloc, others)?))
}

/// Calls a rule in a module, and shows its value.
pub fn call_rule(
    alloc: Global,
    machine: &mut Machine,
    module: &str,
    words: &[Word],
    turns: &mut Turns,
) -> Result<Answer, CaseFault> {
    let (rule, lists) = call_of(alloc, words)?;
    call_there(alloc, machine, module, &rule, lists.as_slice(), turns)
}
