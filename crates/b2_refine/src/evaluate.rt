//! Requirements evaluated.
ghost use Rattle.std.specs.Prelude.{◌≡◌, ◌++◌, Some, All, IfOk, IfErr, OnOk, count_by};
ghost use Rattle.b2_props.specs.Sets.{IsSet};
ghost use Rattle.b2_props.specs.Requirements.{AsksBelow};
ghost use Rattle.b2_refine.specs.Answers.{Answer};
ghost use Rattle.b2_base.specs.Counts.{IsCounted};
ghost use Rattle.b2_refine.specs.Conditions.{own_pairs, unconditional, is_other, first_set, next_set, IsSettled};
ghost use Rattle.b2_refine.specs.Faults.{IsUnstableBy, IsAskedBy, IsKnownFault, is_asked};
ghost use Rattle.b2_refine.specs.Evaluating.{IsOutcome, LeavesAsker, AreLastRounds, IsNotUnstable};

use crate::ask::Ask;
use crate::fault::RefineFault;
use crate::giving::given;
use b2_base::fault::OutOfMemory;
use b2_features::registry::Registry;
use b2_props::pair_list::PairList;
use b2_props::props::Props;
use b2_props::refinement::refine;
use b2_props::requirement::Requirement;
use std::alloc::Global;

/// Adds the property of a requirement without conditions.
fn add_own(made: &mut PairList, requirement: &Requirement) -> Result<(), OutOfMemory>
    ensures { OnOk result (made.new ≡ made.old ++ own_pairs requirement.now) }
{
    if let Requirement::Plain {
        conditions,
        property,
    } = requirement
    {
        if conditions.as_slice().is_empty() {
            made.push(property.0.copy()?, property.1.copy()?)?;
        }
    }
    Ok(())
}

fn unconditional(alloc: Global, required: &[Requirement]) -> Result<PairList, OutOfMemory>
    ensures { IfOk result (λ made. made ≡ unconditional required.now) }
{
    let mut made = PairList::new(alloc);
    for requirement in required {
        add_own(&mut made, requirement)?;
    }
    Ok(made)
}

fn first_set(
    alloc: Global,
    registry: &Registry,
    request: &Props,
    required: &[Requirement],
) -> Result<Props, OutOfMemory>
    requires { IsSet registry.now request.now }
    ensures value { IfOk result (λ made. made ≡ first_set registry.now request.now required.now) }
    ensures set { IfOk result (λ made. IsSet registry.now made) }
{
    let pairs = unconditional(alloc, required)?;
    refine(alloc, registry, request, pairs.as_slice())
}

#[tactic(auto, using(crate::proofs::RequirementsGiveOneByOne::other_by_length))]
fn is_other(requirement: &Requirement) -> bool
    ensures { result ≡ is_other requirement.now }
{
    match requirement {
        Requirement::Plain { conditions, .. } => !conditions.as_slice().is_empty(),
        Requirement::Indirect { .. } => true,
    }
}

/// How many requirements are conditional or indirect.
fn count_others(required: &[Requirement]) -> usize
    ensures { result ≡ count_by is_other required.now }
{
    required
        .iter()
        .filter(|requirement| is_other(requirement))
        .count()
}

#[tactic(auto, using(crate::proofs::LastRoundsDecide::refined_outcome, crate::proofs::LastRoundsDecide::refused_outcome))]
fn next_set<A: Ask>(
    alloc: Global,
    registry: &Registry,
    base: &Props,
    required: &[Requirement],
    set: &Props,
    ask: &mut A,
) -> Result<Props, RefineFault<A::Fault>>
    requires base { IsSet registry.now base.now }
    requires rules { All (AsksBelow (A.rules ask.old)) required.now }
    ensures told { (told : Answer A.Fault) → A.answer ask.old ≡ Some told → IsOutcome A.is_host_fault A.is_out_of_memory (next_set told registry.now base.now required.now set.now) result }
    ensures stable { IfErr result IsNotUnstable }
    ensures leaves { LeavesAsker A.rules A.answer A.kept A.faults A.is_host_fault A.is_out_of_memory A.CanFault ask.old ask.new result }
    ensures set { IfOk result (λ made. IsSet registry.now made) }
{
    let pairs = given(alloc, set, required, ask)?;
    Ok(refine(alloc, registry, base, pairs.as_slice())?)
}

/// The sets of a round and of the next one.
#[derive(Drop)]
struct LastRounds {
    first: Props,
    second: Props,
}

/// The sets of the first round that leaves its set as it is, or else of the last one, and of the round after it; from the set
/// of round 0, which is handed in twice.
fn last_rounds<A: Ask>(
    alloc: Global,
    registry: &Registry,
    request: &Props,
    base: &Props,
    first: Props,
    required: &[Requirement],
    ask: &mut A,
) -> Result<LastRounds, RefineFault<A::Fault>>
    requires set { IsSet registry.now base.now }
    requires base { base.now ≡ first_set registry.now request.now required.now }
    requires first { first ≡ base.now }
    requires rules { All (AsksBelow (A.rules ask.old)) required.now }
    ensures told { (told : Answer A.Fault) → A.answer ask.old ≡ Some told → IfOk result (λ two. AreLastRounds told registry.now request.now required.now two.first two.second) }
    ensures asked { (told : Answer A.Fault) → A.answer ask.old ≡ Some told → IfErr result (IsAskedBy A.is_host_fault A.is_out_of_memory told registry.now request.now required.now) }
    ensures stable { IfErr result IsNotUnstable }
    ensures set { IfOk result (λ two. IsSet registry.now two.first) }
    ensures leaves { LeavesAsker A.rules A.answer A.kept A.faults A.is_host_fault A.is_out_of_memory A.CanFault ask.old ask.new result }
{
    let mut first = first;
    let mut second = next_set(alloc, registry, base, required, &first, ask)?;
    for _ in 0..count_others(required) + 1 {
        if first.equals(&second) {
            return Ok(LastRounds { first, second });
        }
        let third = next_set(alloc, registry, base, required, &second, ask)?;
        first = second;
        second = third;
    }
    Ok(LastRounds { first, second })
}

/// The set of a request with what is required. Round 0 refines the request by what is required without conditions. Each
/// further round refines the set of round 0 by what the other requirements give in the set before, in their order: a
/// conditional one its property where the set has all its conditions, an indirect one what its rule answers. The result is
/// the first set that a round leaves as it is, up to the round whose number is one more than that of the conditional and
/// indirect requirements; else it is unstable. The first answer that is a fault is the result instead.
pub fn evaluate<A: Ask>(
    alloc: Global,
    registry: &Registry,
    request: &Props,
    required: &[Requirement],
    ask: &mut A,
) -> Result<Props, RefineFault<A::Fault>>
    requires set { IsSet registry.now request.now }
    requires rules { All (AsksBelow (A.rules ask.old)) required.now }
    ensures settled { (told : Answer A.Fault) → A.answer ask.old ≡ Some told → IfOk result (IsSettled told registry.now request.now required.now) }
    ensures unstable { (told : Answer A.Fault) → A.answer ask.old ≡ Some told → IfErr result (IsUnstableBy told registry.now request.now required.now) }
    ensures asked { (told : Answer A.Fault) → A.answer ask.old ≡ Some told → IfErr result (IsAskedBy A.is_host_fault A.is_out_of_memory told registry.now request.now required.now) }
    ensures set { IfOk result (IsSet registry.now) }
    ensures known { IfErr result (IsKnownFault (A.CanFault (A.kept ask.old))) }
    ensures counted { IsCounted (is_asked A.is_host_fault) (is_asked A.is_out_of_memory) (A.faults ask.old) (A.faults ask.new) result }
    ensures rules { A.rules ask.new ≡ A.rules ask.old }
    ensures answer { A.answer ask.new ≡ A.answer ask.old }
    ensures kept { A.kept ask.new ≡ A.kept ask.old }
{
    let base = first_set(alloc, registry, request, required)?;
    let first = base.copy(alloc)?;
    let two = last_rounds(alloc, registry, request, &base, first, required, ask)?;
    if two.first.equals(&two.second) {
        return Ok(two.first);
    }
    Err(RefineFault::Unstable {
        first: two.first,
        second: two.second,
    })
}
