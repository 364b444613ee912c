//! What requirements give in a set.
ghost use Rattle.std.specs.Prelude.{◌≡◌, ◌<◌, [], ◌∷◌, List, Some, All, IfOk, IfErr};
ghost use Rattle.b2_props.specs.Sets.{Pair};
ghost use Rattle.b2_props.specs.Requirements.{AsksBelow};
ghost use Rattle.b2_props.specs.Indexing.{IsIndexOf};
ghost use Rattle.b2_refine.specs.Answers.{Answer};
ghost use Rattle.b2_refine.specs.Conditions.{others, given};
ghost use Rattle.b2_refine.specs.Evaluating.{IsOutcome, LeavesAsker, IsNotUnstable, is_given, plain_pairs};

use crate::ask::Ask;
use crate::fault::RefineFault;
use b2_base::fault::OutOfMemory;
use b2_base::text::Text;
use b2_props::pair_index::PairIndex;
use b2_props::pair_list::PairList;
use b2_props::props::Props;
use b2_props::requirement::Requirement;
use std::alloc::Global;

fn ask_rule<A: Ask>(
    rule: usize,
    set: &Props,
    ask: &mut A,
) -> Result<PairList, RefineFault<A::Fault>>
    requires { rule < A.rules ask.old }
    ensures told { (told : Answer A.Fault) → A.answer ask.old ≡ Some told → IsOutcome A.is_host_fault A.is_out_of_memory (told rule set.now) result }
    ensures stable { IfErr result IsNotUnstable }
    ensures leaves { LeavesAsker A.rules A.answer A.kept A.faults A.is_host_fault A.is_out_of_memory A.CanFault ask.old ask.new result }
{
    match ask.ask(rule, set) {
        Ok(pairs) => Ok(pairs),
        Err(fault) => Err(RefineFault::Asked(fault)),
    }
}

#[tactic(auto, using(crate::proofs::RequirementsGiveOneByOne::given_none, crate::proofs::RequirementsGiveOneByOne::given_met))]
fn is_given(index: &PairIndex, conditions: &PairList) -> bool
    ensures { (pairs : List Pair) → IsIndexOf pairs index.now → result ≡ is_given pairs conditions.now }
{
    let conditions = conditions.as_slice();
    if conditions.is_empty() {
        return false;
    }
    index.has_all(conditions)
}

fn give_plain(
    alloc: Global,
    index: &PairIndex,
    conditions: &PairList,
    property: &(Text, Text),
) -> Result<PairList, OutOfMemory>
    ensures { (pairs : List Pair) → IsIndexOf pairs index.now → IfOk result (λ made. made ≡ plain_pairs pairs conditions.now property.now) }
{
    let mut made = PairList::new(alloc);
    if is_given(index, conditions) {
        made.push(property.0.copy()?, property.1.copy()?)?;
    }
    Ok(made)
}

#[tactic(auto, using(crate::proofs::RequirementsGiveOneByOne::plain_outcome, crate::proofs::RequirementsGiveOneByOne::indirect_outcome))]
fn give<A: Ask>(
    alloc: Global,
    set: &Props,
    index: &PairIndex,
    requirement: &Requirement,
    ask: &mut A,
) -> Result<PairList, RefineFault<A::Fault>>
    requires rule { AsksBelow (A.rules ask.old) requirement.now }
    requires index { IsIndexOf set.now index.now }
    ensures told { (told : Answer A.Fault) → A.answer ask.old ≡ Some told → IsOutcome A.is_host_fault A.is_out_of_memory (given told set.now (others (requirement.now ∷ []))) result }
    ensures stable { IfErr result IsNotUnstable }
    ensures leaves { LeavesAsker A.rules A.answer A.kept A.faults A.is_host_fault A.is_out_of_memory A.CanFault ask.old ask.new result }
{
    match requirement {
        Requirement::Indirect { rule } => ask_rule(*rule, set, ask),
        Requirement::Plain {
            conditions,
            property,
        } => Ok(give_plain(alloc, index, conditions, property)?),
    }
}

/// What the conditional and the indirect requirements give in a set, in their order.
pub(crate) fn given<A: Ask>(
    alloc: Global,
    set: &Props,
    required: &[Requirement],
    ask: &mut A,
) -> Result<PairList, RefineFault<A::Fault>>
    requires { All (AsksBelow (A.rules ask.old)) required.now }
    ensures told { (told : Answer A.Fault) → A.answer ask.old ≡ Some told → IsOutcome A.is_host_fault A.is_out_of_memory (given told set.now (others required.now)) result }
    ensures stable { IfErr result IsNotUnstable }
    ensures leaves { LeavesAsker A.rules A.answer A.kept A.faults A.is_host_fault A.is_out_of_memory A.CanFault ask.old ask.new result }
{
    let index = PairIndex::new(alloc, set.pairs())?;
    let mut made = PairList::new(alloc);
    for requirement in required {
        let pairs = give(alloc, set, &index, requirement, ask)?;
        made.append(pairs)?;
    }
    Ok(made)
}
