//! Rules that answer by a table.
ghost use Rattle.std.specs.Prelude.{◌<◌, length};

use b2_base::fault::OutOfMemory;
use b2_base::text::Text;
use b2_props::pair_list::PairList;
use b2_props::props::Props;
use b2_refine::ask::Ask;
use std::alloc::Global;

/// Why a rule has no answer.
#[derive(Drop)]
pub enum RuleFault {
    Word(Text),
    OutOfMemory,
}

impl From<OutOfMemory> for RuleFault {
    fn from(_error: OutOfMemory) -> RuleFault {
        RuleFault::OutOfMemory
    }
}

/// What a rule answers where a set has the conditions: further properties, or a fault.
#[derive(Drop)]
pub struct Row {
    pub conditions: PairList,
    pub properties: PairList,
    pub fault: Option<Text>,
}

/// The rows of a rule.
#[derive(Drop)]
pub struct Rule {
    pub rows: Vec<Row>,
}

/// Rules in order.
#[derive(Drop)]
pub struct Rules {
    pub alloc: Global,
    pub rules: Vec<Rule>,
}

impl Rules {
    /// No rules.
    pub fn new(alloc: Global) -> Rules {
        Rules {
            alloc,
            rules: Vec::new(alloc),
        }
    }
}

fn has_all(set: &Props, conditions: &PairList) -> bool {
    conditions
        .as_slice()
        .iter()
        .all(|pair| set.contains(pair.0.as_str(), pair.1.as_str()))
}

fn add_row(alloc: Global, made: &mut PairList, row: &Row, set: &Props) -> Result<(), RuleFault> {
    if !has_all(set, &row.conditions) {
        return Ok(());
    }
    if let Some(word) = &row.fault {
        return Err(RuleFault::Word(word.copy()?));
    }
    let more = row.properties.copy(alloc)?;
    made.append(more)?;
    Ok(())
}

fn answer(alloc: Global, rule: &Rule, set: &Props) -> Result<PairList, RuleFault> {
    let mut made = PairList::new(alloc);
    for row in &rule.rows {
        add_row(alloc, &mut made, row, set)?;
    }
    Ok(made)
}

impl Ask for Rules {
    ghost use Rattle.std.specs.Prelude.{◌<◌, None, false, length};

    type Fault = RuleFault;

    ghost rules = { λ r. length r.rules.items };

    ghost answer = { λ _. None };

    ghost Kept = { Unit {0} };

    ghost kept = { λ _. tt };

    ghost faults = { λ _. 0 };

    ghost is_host_fault = { λ _. false };

    ghost is_out_of_memory = { λ _. false };

    ghost CanFault = { λ _ _. Unit {0} };

    fn ask(&mut self, rule: usize, set: &Props) -> Result<PairList, RuleFault> {
        answer(self.alloc, &self.rules[rule], set)
    }
}
