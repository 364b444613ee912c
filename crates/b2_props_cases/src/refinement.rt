//! The cases of requirements, of alternatives, and of types and generators. There is a current table of features, a request,
//! a list of requirements, rules for the indirect ones, the conditions of alternatives, and a table of types and generators;
//! all are empty at first. Each command that makes a call has its name.
//!
//! - `new` empties all, `new_requirements` the requirements and the rules, `new_alternatives` the alternatives.
//! - `feature NAME VALUES : ATTRIBUTES` and `compose PROPERTY COMPONENTS` declare.
//! - `request PROPERTIES` puts the set that they make in place, made whole, and shows it.
//! - `require CONDITIONS : PROPERTY` adds a requirement; without conditions the sign `:` is left out. `require_rule NUMBER`
//!   adds an indirect one.
//! - `rule` adds a rule, numbered from 0. `row CONDITIONS : PROPERTIES` lets the newest rule answer with the properties too
//!   where a set has the conditions; `fault CONDITIONS : WORD` lets it answer there with a fault.
//! - `evaluate` shows the set, or the two sets of which neither stays, or the fault of a rule.
//! - `alternative CONDITION` adds an alternative; `choose` shows which one is chosen for the current set.
//! - `register_type NAME SUFFIXES` and `register ID SOURCES : TARGETS : REQUIRED` answer whether they registered it.
//!   `type_of PATH`, `suffix_of NAME` and `generator ID` ask the table. `chain FROM TO PROPERTIES` shows the ids of the
//!   chain in the set that the properties make, or why there is none.
//! - `declare_features`, `declare_types` and `declare_generators` declare what the gcc toolset does; the last two answer
//!   whether they registered all. `gcc_text COMMAND` shows its build text, with `g++` where no command is given.

mod chains;
mod gcc;
mod rules;
mod steps;
mod types;

use crate::declaring::{compose, declare_toolset, feature};
use crate::pairs::pairs;
use crate::refinement::chains::found_chain;
use crate::refinement::gcc::gcc_command;
use crate::refinement::rules::Rules;
use crate::refinement::steps::{
    add_row, add_rule, chosen, evaluated, fault_row, indirect, requirement, row, whole,
};
use crate::shown::{ok, set_line};
use b2_features::registry::Registry;
use b2_generators::types::Types;
use b2_props::pair_list::PairList;
use b2_props::props::Props;
use b2_props::requirement::Requirement;
use std::alloc::Global;
use std::mem::ManuallyDrop;
use transcript::answer::Answer;
use transcript::case_fault::CaseFault;
use transcript::command::{Command, Word};
use transcript::session::Session;
use transcript::words::no_words;

fn renew_requirements(
    alloc: Global,
    required: &mut Vec<Requirement>,
    rules: &mut Rules,
    words: &[Word],
) -> Result<Answer, CaseFault> {
    no_words(words)?;
    required.clear();
    rules.rules.clear();
    ok(alloc)
}

fn renew_alternatives(
    alloc: Global,
    conditions: &mut Vec<PairList>,
    words: &[Word],
) -> Result<Answer, CaseFault> {
    no_words(words)?;
    conditions.clear();
    ok(alloc)
}

fn put_request(
    alloc: Global,
    registry: &Registry,
    request: &mut Props,
    words: &[Word],
) -> Result<Answer, CaseFault> {
    *request = whole(alloc, registry, words)?;
    set_line(alloc, request)
}

fn require(
    alloc: Global,
    required: &mut Vec<Requirement>,
    requirement: Requirement,
) -> Result<Answer, CaseFault> {
    required.push(requirement)?;
    ok(alloc)
}

fn add_alternative(
    alloc: Global,
    conditions: &mut Vec<PairList>,
    words: &[Word],
) -> Result<Answer, CaseFault> {
    conditions.push(pairs(alloc, words)?)?;
    ok(alloc)
}

/// Adds a rule or a row of one, or carries out another command.
fn rule_command(
    alloc: Global,
    rules: &mut Rules,
    types: &mut Types,
    command: &Command,
) -> Result<Answer, CaseFault> {
    let words = command.words();
    match command.name() {
        "rule" => add_rule(alloc, rules, words),
        "row" => add_row(alloc, rules, row(alloc, words)?),
        "fault" => add_row(alloc, rules, fault_row(alloc, words)?),
        _ => gcc_command(alloc, types, command),
    }
}

/// The table and what was declared and made in it.
///
/// What is put in place of a table lets it be, until the process ends: a crate that takes it apart proves the drop of all
/// that it holds.
#[derive(Drop)]
pub struct Refinement {
    registry: ManuallyDrop<Registry>,
    request: Props,
    required: Vec<Requirement>,
    rules: Rules,
    conditions: Vec<PairList>,
    types: ManuallyDrop<Types>,
}

impl Refinement {
    /// Empty tables, an empty request, and nothing that is required or chosen among.
    pub fn new(alloc: Global) -> Refinement {
        Refinement {
            registry: ManuallyDrop::new(Registry::new(alloc)),
            request: Props::new(alloc),
            required: Vec::new(alloc),
            rules: Rules::new(alloc),
            conditions: Vec::new(alloc),
            types: ManuallyDrop::new(Types::new(alloc)),
        }
    }

    fn renew(&mut self, alloc: Global, words: &[Word]) -> Result<Answer, CaseFault> {
        no_words(words)?;
        *self = Refinement::new(alloc);
        ok(alloc)
    }

    /// Adds a requirement or an alternative, or carries out another command.
    fn add(&mut self, alloc: Global, command: &Command) -> Result<Answer, CaseFault> {
        let words = command.words();
        match command.name() {
            "require" => require(alloc, &mut self.required, requirement(alloc, words)?),
            "require_rule" => require(alloc, &mut self.required, indirect(words)?),
            "alternative" => add_alternative(alloc, &mut self.conditions, words),
            "chain" => found_chain(alloc, &self.registry, &self.types, words),
            _ => rule_command(alloc, &mut self.rules, &mut self.types, command),
        }
    }

    /// Evaluates, chooses or empties, or carries out another command.
    fn call(&mut self, alloc: Global, command: &Command) -> Result<Answer, CaseFault> {
        let words = command.words();
        match command.name() {
            "evaluate" => {
                no_words(words)?;
                evaluated(
                    alloc,
                    &self.registry,
                    &self.request,
                    self.required.as_slice(),
                    &mut self.rules,
                )
            }
            "choose" => {
                no_words(words)?;
                chosen(alloc, self.conditions.as_slice(), &self.request)
            }
            "new_requirements" => renew_requirements(
                alloc,
                &mut self.required,
                &mut self.rules,
                words,
            ),
            "new_alternatives" => renew_alternatives(alloc, &mut self.conditions, words),
            _ => self.add(alloc, command),
        }
    }
}

impl Session for Refinement {
    fn carry_out(&mut self, alloc: Global, command: &Command) -> Result<Answer, CaseFault> {
        let words = command.words();
        match command.name() {
            "new" => self.renew(alloc, words),
            "feature" => feature(alloc, &mut self.registry, words),
            "compose" => compose(alloc, &mut self.registry, words),
            "declare_features" => declare_toolset(alloc, &mut self.registry, words),
            "request" => put_request(alloc, &self.registry, &mut self.request, words),
            _ => self.call(alloc, command),
        }
    }
}
