//! Texts of requests that have no plan.
ghost use Rattle.std.specs.Prelude.{◌≡◌, ◌≢◌, IfOk, string_bytes};
ghost use Rattle.b2_props.specs.declared.request_fault.RequestFault.TheVariants as requests;
ghost use Rattle.b2_refusals.specs.Texts.{request_text, choice_text, making_text, gen_text};
ghost use Rattle.b2_refusals.specs.Wholes.{IsChoiceRefusal, IsMakingRefusal, IsGenRefusal};

use crate::evaluations::eval_text;
use crate::lists::{joined, property_text, props_text, with_arrows};
use crate::pieces::{concat, steps_text};
use b2_alternatives::fault::ChoiceFault;
use b2_base::fault::OutOfMemory;
use b2_base::text::Text;
use b2_generate::fault::GenFault;
use b2_making::fault::MakingFault;
use b2_props::props::Props;
use b2_props::request_fault::RequestFault;
use jam_effects::fault::EvalFault;
use std::alloc::Global;

/// The text of words that are no request.
pub fn request_text(alloc: Global, fault: &RequestFault) -> Result<String, OutOfMemory>
    requires { fault.now ≢ requests.OutOfMemory }
    ensures { IfOk result (λ text. string_bytes text ≡ request_text fault.now) }
{
    match fault {
        RequestFault::UnknownWord { word } => concat(alloc, "unknown word ", word.as_str()),
        RequestFault::UnknownValue { word } => concat(alloc, "unknown value ", word.as_str()),
        RequestFault::Conflict { word } => concat(alloc, "conflict ", word.as_str()),
        RequestFault::OutOfMemory => unreachable!(),
    }
}

// The choice of an alternative.

fn no_alternative_text(alloc: Global, target: &Text, set: &Props) -> Result<String, OutOfMemory>
    ensures { IfOk result (λ text. string_bytes text ≡ choice_text (ChoiceFault.NoAlternative target.now set.now)) }
{
    let props = props_text(alloc, set)?;
    let target = target.as_str();
    Ok(format!(in alloc; "no alternative of {target} for {props}")?)
}

fn ambiguous_text(
    alloc: Global,
    target: &Text,
    set: &Props,
    i: usize,
    k: usize,
) -> Result<String, OutOfMemory>
    ensures { IfOk result (λ text. string_bytes text ≡ choice_text (ChoiceFault.AmbiguousAlternative target.now set.now i k)) }
{
    let props = props_text(alloc, set)?;
    let target = target.as_str();
    Ok(format!(in alloc; "alternatives {i} and {k} of {target} for {props}")?)
}

fn bad_answer_text(
    alloc: Global,
    target: &Text,
    rule: &Text,
    word: &Text,
) -> Result<String, OutOfMemory>
    ensures { IfOk result (λ text. string_bytes text ≡ choice_text (ChoiceFault.BadAnswer target.now rule.now word.now)) }
{
    let target = target.as_str();
    let rule = rule.as_str();
    let word = word.as_str();
    Ok(format!(in alloc; "bad answer of {rule} in {target}: {word}")?)
}

/// The text of a main target of which no alternative is settled on.
fn choice_text(alloc: Global, fault: &ChoiceFault<EvalFault>) -> Result<String, OutOfMemory>
    requires { IsChoiceRefusal fault.now }
    ensures { IfOk result (λ text. string_bytes text ≡ choice_text fault.now) }
{
    match fault {
        ChoiceFault::NoAlternative { target, set } => no_alternative_text(alloc, target, set),
        ChoiceFault::AmbiguousAlternative { target, set, i, k } => {
            ambiguous_text(alloc, target, set, *i, *k)
        }
        ChoiceFault::Unstable {
            target,
            first: _,
            second: _,
        } => concat(alloc, "unstable requirements of ", target.as_str()),
        ChoiceFault::BadAnswer { target, rule, word } => {
            bad_answer_text(alloc, target, rule, word)
        }
        ChoiceFault::Eval(fault) => eval_text(alloc, fault),
        ChoiceFault::OutOfMemory => unreachable!(),
    }
}

// The steps of a main target.

fn no_chain_text(alloc: Global, from: &Text, to: &Text) -> Result<String, OutOfMemory>
    ensures { IfOk result (λ text. string_bytes text ≡ making_text (MakingFault.NoChain from.now to.now)) }
{
    let from = from.as_str();
    let to = to.as_str();
    Ok(format!(in alloc; "no chain from {from} to {to}")?)
}

fn two_chains_text(
    alloc: Global,
    from: &Text,
    to: &Text,
    first: &[Text],
    second: &[Text],
) -> Result<String, OutOfMemory>
    ensures { IfOk result (λ text. string_bytes text ≡ making_text (MakingFault.TwoChains from.now to.now first.now second.now)) }
{
    let first = joined(alloc, " ", first)?;
    let second = joined(alloc, " ", second)?;
    let from = from.as_str();
    let to = to.as_str();
    Ok(format!(in alloc; "two chains from {from} to {to}: {first}; {second}")?)
}

/// The text of a main target whose steps are not made.
fn making_text(alloc: Global, fault: &MakingFault<EvalFault>) -> Result<String, OutOfMemory>
    requires { IsMakingRefusal fault.now }
    ensures { IfOk result (λ text. string_bytes text ≡ making_text fault.now) }
{
    match fault {
        MakingFault::NoChain { from, to } => no_chain_text(alloc, from, to),
        MakingFault::TwoChains {
            from,
            to,
            first,
            second,
        } => two_chains_text(alloc, from, to, first.as_slice(), second.as_slice()),
        MakingFault::PathClash { path } => concat(alloc, "path clash: ", path.as_str()),
        MakingFault::LocationOutside { path } => {
            concat(alloc, "location outside: ", path.as_str())
        }
        MakingFault::TooManySteps { count } => steps_text(alloc, *count),
        MakingFault::Eval(fault) => eval_text(alloc, fault),
        MakingFault::OutOfMemory => unreachable!(),
    }
}

// The request.

fn usage_conflict_text(
    alloc: Global,
    target: &Text,
    feature: &Text,
    first: &Text,
    second: &Text,
) -> Result<String, OutOfMemory>
    ensures { IfOk result (λ text. string_bytes text ≡ gen_text (GenFault.UsageConflict target.now feature.now first.now second.now)) }
{
    let first = property_text(alloc, feature, first)?;
    let second = property_text(alloc, feature, second)?;
    let target = target.as_str();
    Ok(format!(in alloc; "usage conflict in {target}: {first} {second}")?)
}

fn target_cycle_text(alloc: Global, targets: &[Text]) -> Result<String, OutOfMemory>
    ensures { IfOk result (λ text. string_bytes text ≡ gen_text (GenFault.TargetCycle targets.now)) }
{
    let cycle = with_arrows(alloc, targets)?;
    concat(alloc, "target cycle: ", cycle.as_str())
}

/// The text of a request that has no plan.
pub fn gen_text(alloc: Global, fault: &GenFault<EvalFault>) -> Result<String, OutOfMemory>
    requires { IsGenRefusal fault.now }
    ensures { IfOk result (λ text. string_bytes text ≡ gen_text fault.now) }
{
    match fault {
        GenFault::NoTarget { name } => concat(alloc, "no target ", name.as_str()),
        GenFault::TargetCycle { targets } => target_cycle_text(alloc, targets.as_slice()),
        GenFault::UsageConflict {
            target,
            feature,
            first,
            second,
        } => usage_conflict_text(alloc, target, feature, first, second),
        GenFault::NotChosen(fault) => choice_text(alloc, fault),
        GenFault::NotMade(fault) => making_text(alloc, fault),
        GenFault::OutOfMemory => unreachable!(),
    }
}
