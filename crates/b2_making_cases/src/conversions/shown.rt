//! Answers as lines.
use crate::answers::{push_happened, push_too_many};
use crate::conversions::texts::TextFault;
use b2_base::text::Text;
use b2_making::fault::MakingFault;
use b2_plan::step::Step;
use b2_virtual::entry::{Entry, Supply};
use std::alloc::Global;
use transcript::answer::Answer;
use transcript::case_fault::CaseFault;

fn push_entries(answer: &mut Answer, entries: &[Entry]) {
    for entry in entries {
        answer.put(entry.path.as_str());
        answer.put_space();
        answer.put(entry.file_type.as_str());
        answer.put_space();
        answer.put(entry.tail.as_str());
        if entry.is_made {
            answer.put(" made");
        }
        answer.end_line();
    }
}

fn push_carried(answer: &mut Answer, entries: &[Entry]) {
    for entry in entries {
        answer.push_words("carries", entry.path.as_str());
    }
}

// ---- refusals

fn push_no_chain(answer: &mut Answer, from: &Text, to: &Text) {
    answer.put("no chain from ");
    answer.put(from.as_str());
    answer.put(" to ");
    answer.push_line(to.as_str());
}

fn push_two_chains(answer: &mut Answer, from: &Text, to: &Text, first: &[Text], second: &[Text]) {
    answer.put("two chains from ");
    answer.put(from.as_str());
    answer.put(" to ");
    answer.put(to.as_str());
    answer.put(":");
    answer.put_words(first);
    answer.put(";");
    answer.put_words(second);
    answer.end_line();
}

fn push_text_fault(answer: &mut Answer, fault: &TextFault) {
    match fault {
        TextFault::NoText(name) => push_happened(answer, "no text", name.as_str()),
        TextFault::OutOfMemory => answer.cut(),
    }
}

fn push_fault(answer: &mut Answer, fault: &MakingFault<TextFault>) {
    match fault {
        MakingFault::NoChain { from, to } => push_no_chain(answer, from, to),
        MakingFault::TwoChains {
            from,
            to,
            first,
            second,
        } => push_two_chains(answer, from, to, first.as_slice(), second.as_slice()),
        MakingFault::PathClash { path } => push_happened(answer, "path clash", path.as_str()),
        MakingFault::LocationOutside { path } => {
            push_happened(answer, "location outside", path.as_str());
        }
        MakingFault::TooManySteps { count } => push_too_many(answer, *count),
        MakingFault::Eval(fault) => push_text_fault(answer, fault),
        MakingFault::OutOfMemory => answer.cut(),
    }
}

/// The entries of a main target and what it carries on, or why it is refused.
pub fn made_answer(
    alloc: Global,
    made: &Result<Supply, MakingFault<TextFault>>,
) -> Result<Answer, CaseFault> {
    let mut answer = Answer::new(alloc);
    match made {
        Ok(supply) => {
            push_entries(&mut answer, supply.entries.as_slice());
            push_carried(&mut answer, supply.carried.as_slice());
        }
        Err(fault) => push_fault(&mut answer, fault),
    }
    Ok(answer)
}

// ---- steps

fn push_step(answer: &mut Answer, number: usize, step: &Step) {
    answer.put_number(number as u64);
    answer.put_space();
    answer.put(step.name.as_str());
    answer.put(" :");
    answer.put_paths(step.outs.as_slice());
    answer.put(" :");
    answer.put_paths(step.ins.as_slice());
    answer.put(" :");
    answer.put_paths(step.dirs.as_slice());
    answer.end_line();
    answer.push_line(step.text.as_str());
}

/// Steps with their numbers.
pub fn steps_answer(alloc: Global, steps: &[Step]) -> Result<Answer, CaseFault> {
    let mut answer = Answer::new(alloc);
    for (place, step) in steps.iter().enumerate() {
        push_step(&mut answer, place + 1, step);
    }
    Ok(answer)
}
