//! The command that asks for a chain.
use crate::pairs::given;
use b2_base::text::Text;
use b2_features::registry::Registry;
use b2_generators::chain::{GenChain, chain};
use b2_generators::fault::ChainFault;
use b2_generators::types::Types;
use std::alloc::Global;
use std::mem::ManuallyDrop;
use transcript::answer::Answer;
use transcript::case_fault::CaseFault;
use transcript::command::Word;
use transcript::words::{first, text};

/// Puts the types between which a chain was looked for, after words.
fn put_ends(answer: &mut Answer, words: &str, from: &Text, to: &Text) {
    answer.put(words);
    answer.put(from.as_str());
    answer.put(" to ");
    answer.put(to.as_str());
}

/// Puts two chains of which neither is chosen.
fn put_both(answer: &mut Answer, first: &[Text], second: &[Text]) {
    answer.put(":");
    answer.put_texts(first);
    answer.put(";");
    answer.put_texts(second);
}

fn put_fault(answer: &mut Answer, fault: &ChainFault) {
    match fault {
        ChainFault::NoChain { from, to } => put_ends(answer, "no chain from ", from, to),
        ChainFault::TwoChains {
            from,
            to,
            first,
            second,
        } => {
            put_ends(answer, "two chains from ", from, to);
            put_both(answer, first.as_slice(), second.as_slice());
        }
        ChainFault::OutOfMemory => answer.cut(),
    }
}

fn push_found(answer: &mut Answer, found: &Result<GenChain, ChainFault>) {
    match found {
        Ok(chain) => {
            answer.put("chain");
            answer.put_texts(chain.ids.as_slice());
        }
        Err(fault) => put_fault(answer, fault),
    }
    answer.end_line();
}

/// Carries out `chain FROM TO SET`.
pub fn found_chain(
    alloc: Global,
    registry: &Registry,
    types: &Types,
    words: &[Word],
) -> Result<Answer, CaseFault> {
    let (from, words) = first(words)?;
    let (to, words) = first(words)?;
    let from = text(alloc, from)?;
    let to = text(alloc, to)?;
    let set = ManuallyDrop::new(given(alloc, registry, words)?);
    let found = ManuallyDrop::new(chain(alloc, types, from.as_str(), to.as_str(), &set));
    let mut answer = Answer::new(alloc);
    push_found(&mut answer, &found);
    Ok(answer)
}
