//! The commands that make calls.
ghost use Rattle.std.specs.Prelude.{◌↔◌, All, IsTrue};
ghost use Rattle.b2_props.specs.Requirements.{AsksBelow};

use crate::pairs::{given, made, pair, pairs};
use crate::refinement::rules::{Row, Rule, RuleFault, Rules};
use crate::shown::ok;
use b2_features::registry::Registry;
use b2_props::pair_list::PairList;
use b2_props::props::Props;
use b2_props::refinement::expand;
use b2_props::requirement::Requirement;
use b2_refine::choice::{Choice, choose};
use b2_refine::evaluate::evaluate;
use b2_refine::fault::RefineFault;
use std::alloc::Global;
use std::mem::ManuallyDrop;
use transcript::answer::Answer;
use transcript::case_fault::CaseFault;
use transcript::command::Word;
use transcript::words::{halves, no_words, only, own_text};

/// The whole set of a request.
pub fn whole(alloc: Global, registry: &Registry, words: &[Word]) -> Result<Props, CaseFault> {
    let set = given(alloc, registry, words)?;
    Ok(expand(alloc, registry, &set)?)
}

pub fn requirement(alloc: Global, words: &[Word]) -> Result<Requirement, CaseFault> {
    let (conditions, property) = halves(words);
    if property.is_empty() {
        return Ok(Requirement::Plain {
            conditions: PairList::new(alloc),
            property: pair(alloc, only(conditions)?)?,
        });
    }
    Ok(Requirement::Plain {
        conditions: pairs(alloc, conditions)?,
        property: pair(alloc, only(property)?)?,
    })
}

pub fn indirect(words: &[Word]) -> Result<Requirement, CaseFault> {
    match only(words)?.parse::<usize>() {
        Ok(rule) => Ok(Requirement::Indirect { rule }),
        Err(_) => Err(CaseFault::WrongWords),
    }
}

/// A row that answers with properties.
pub fn row(alloc: Global, words: &[Word]) -> Result<Row, CaseFault> {
    let (conditions, properties) = halves(words);
    Ok(Row {
        conditions: pairs(alloc, conditions)?,
        properties: pairs(alloc, properties)?,
        fault: None,
    })
}

/// A row that answers with a fault.
pub fn fault_row(alloc: Global, words: &[Word]) -> Result<Row, CaseFault> {
    let (conditions, word) = halves(words);
    let word = own_text(alloc, only(word)?)?;
    Ok(Row {
        conditions: pairs(alloc, conditions)?,
        properties: PairList::new(alloc),
        fault: Some(word),
    })
}

pub fn add_rule(alloc: Global, rules: &mut Rules, words: &[Word]) -> Result<Answer, CaseFault> {
    no_words(words)?;
    rules.rules.push(Rule {
        rows: Vec::new(alloc),
    })?;
    ok(alloc)
}

pub fn add_row(alloc: Global, rules: &mut Rules, row: Row) -> Result<Answer, CaseFault> {
    match rules.rules.last_mut() {
        Some(rule) => {
            rule.rows.push(row)?;
            ok(alloc)
        }
        None => Err(CaseFault::WrongWords),
    }
}

fn asks_below(requirement: &Requirement, count: usize) -> bool
    ensures { IsTrue result ↔ AsksBelow count requirement.now }
{
    match requirement {
        Requirement::Plain { .. } => true,
        Requirement::Indirect { rule } => *rule < count,
    }
}

fn all_ask_below(required: &[Requirement], count: usize) -> bool
    ensures { IsTrue result ↔ All (AsksBelow count) required.now }
{
    required
        .iter()
        .all(|requirement| asks_below(requirement, count))
}

fn push_set(answer: &mut Answer, set: &Props) {
    answer.put_properties(set.pairs());
    answer.end_line();
}

fn push_fault(answer: &mut Answer, fault: &RefineFault<RuleFault>) {
    match fault {
        RefineFault::Unstable { first, second } => {
            answer.push_line("unstable");
            push_set(answer, first);
            push_set(answer, second);
        }
        RefineFault::Asked(RuleFault::Word(word)) => answer.push_words("asked", word.as_str()),
        RefineFault::Asked(RuleFault::OutOfMemory) => answer.cut(),
        RefineFault::OutOfMemory => answer.cut(),
    }
}

/// Adds the set that stays, or the two sets of which neither does, or the fault of a rule.
fn push_evaluated(answer: &mut Answer, evaluated: &Result<Props, RefineFault<RuleFault>>) {
    match evaluated {
        Ok(set) => push_set(answer, set),
        Err(fault) => push_fault(answer, fault),
    }
}

pub fn evaluated(
    alloc: Global,
    registry: &Registry,
    request: &Props,
    required: &[Requirement],
    rules: &mut Rules,
) -> Result<Answer, CaseFault> {
    if !all_ask_below(required, rules.rules.len()) {
        return Err(CaseFault::WrongWords);
    }
    let request = made(alloc, registry, request.pairs())?;
    let evaluated = ManuallyDrop::new(evaluate(alloc, registry, &request, required, rules));
    let mut answer = Answer::new(alloc);
    push_evaluated(&mut answer, &evaluated);
    Ok(answer)
}

fn put_choice(answer: &mut Answer, choice: Choice) {
    match choice {
        Choice::One(i) => {
            answer.put("one ");
            answer.put_number(i as u64);
        }
        Choice::None => answer.put("none"),
        Choice::Ambiguous { i, k } => {
            answer.put("ambiguous ");
            answer.put_number(i as u64);
            answer.put(" ");
            answer.put_number(k as u64);
        }
    }
}

pub fn chosen(alloc: Global, conditions: &[PairList], full: &Props) -> Result<Answer, CaseFault> {
    let mut answer = Answer::new(alloc);
    put_choice(&mut answer, choose(conditions, full));
    answer.end_line();
    Ok(answer)
}
