//! Chains of generators.
ghost use Rattle.std.specs.Prelude.{◌≡◌, ℕ, suc, ◌≤◌, ◌∷◌, [], ◌++◌, length, None, IfOk, OnOk, IfErr};
ghost use Rattle.b2_base.specs.Bytes.{HasNoZero};
ghost use Rattle.b2_generators.specs.declared.fault.ChainFault.TheVariants as faults;
ghost use Rattle.b2_generators.specs.Chains.{IsOnlyShortest, ids_of};
ghost use Rattle.b2_generators.specs.Places.{targets_at};
ghost use Rattle.b2_generators.specs.Descents.{CanGoOn, IsConnected, IsSecond, AreFound};
ghost use Rattle.b2_generators.specs.Faults.{IsBetween, IsNoChainBy, IsTwoChainsBy, TellsBoth};

use crate::fault::ChainFault;
use crate::generator_table::GeneratorTable;
use crate::givers::append;
use crate::layers::layers;
use crate::places::targets_at;
use crate::types::Types;
use crate::walk::{Branch, descend};
use b2_base::fault::OutOfMemory;
use b2_base::list::List;
use b2_base::text::Text;
use b2_base::text_list::TextList;
use b2_props::props::Props;
use std::alloc::Global;

/// A chain of generators, by their ids.
#[derive(Drop)]
pub struct GenChain {
    pub ids: TextList,
}

/// The chain that comes first, and the second one, if there are two.
#[derive(Drop)]
struct FirstChains {
    first: TextList,
    second: Option<TextList>,
}

fn push_id(ids: &mut TextList, generators: &GeneratorTable, place: usize) -> Result<(), OutOfMemory>
    ensures { OnOk result (ids.new ≡ ids.old ++ ids_of generators.now (place ∷ [])) }
{
    match generators.get(place) {
        None => Ok(()),
        Some(generator) => {
            ids.push(generator.id.copy()?)?;
            Ok(())
        }
    }
}

fn ids(
    alloc: Global,
    generators: &GeneratorTable,
    places: &[usize],
) -> Result<TextList, OutOfMemory>
    ensures { IfOk result (λ ids. ids ≡ ids_of generators.now places.now) }
{
    let mut ids = TextList::new(alloc);
    for place in places {
        push_id(&mut ids, generators, *place)?;
    }
    Ok(ids)
}

/// The ids of the way that leaves another one at a branch.
fn second(
    alloc: Global,
    generators: &GeneratorTable,
    layers: &[List<usize>],
    one: &[usize],
    branch: Branch,
) -> Result<TextList, OutOfMemory>
    requires before { branch.before ≤ length one.now }
    requires after { branch.after ≤ length layers.now }
    requires connected { IsConnected generators.now layers.now }
    requires start { (count : ℕ) → branch.after ≡ suc count → CanGoOn generators.now layers.now count (targets_at generators.now branch.place) }
    ensures { IfOk result (IsSecond generators.now layers.now one.now branch) }
{
    let types = targets_at(generators, branch.place);
    let rest = descend(alloc, generators, layers, branch.after, types)?;
    let mut two = List::new(alloc);
    append(&mut two, &one[..branch.before])?;
    two.push(branch.place)?;
    append(&mut two, rest.places.as_slice())?;
    ids(alloc, generators, two.as_slice())
}

/// The first ways down all layers.
fn find(
    alloc: Global,
    generators: &GeneratorTable,
    layers: &[List<usize>],
    from: &str,
) -> Result<FirstChains, OutOfMemory>
    requires from { HasNoZero from.now }
    requires connected { IsConnected generators.now layers.now }
    requires start { (count : ℕ) → length layers.now ≡ suc count → CanGoOn generators.now layers.now count (from.now ∷ []) }
    ensures { IfOk result (λ found. AreFound generators.now layers.now from.now found.first found.second) }
{
    let start = [Text::new(alloc, from)?];
    let walk = descend(alloc, generators, layers, layers.len(), start.as_slice())?;
    let first = ids(alloc, generators, walk.places.as_slice())?;
    match walk.branch {
        None => Ok(FirstChains {
            first,
            second: None,
        }),
        Some(branch) => {
            let second = second(alloc, generators, layers, walk.places.as_slice(), branch)?;
            Ok(FirstChains {
                first,
                second: Some(second),
            })
        }
    }
}

fn no_chain(alloc: Global, from: &str, to: &str) -> Result<ChainFault, OutOfMemory>
    requires from { HasNoZero from.now }
    requires to { HasNoZero to.now }
    ensures { IfOk result (λ fault. fault ≡ faults.NoChain from.now to.now) }
{
    Ok(ChainFault::NoChain {
        from: Text::new(alloc, from)?,
        to: Text::new(alloc, to)?,
    })
}

fn two_chains(
    alloc: Global,
    from: &str,
    to: &str,
    first: TextList,
    second: TextList,
) -> Result<ChainFault, OutOfMemory>
    requires from { HasNoZero from.now }
    requires to { HasNoZero to.now }
    ensures { IfOk result (λ fault. fault ≡ faults.TwoChains from.now to.now first second) }
{
    Ok(ChainFault::TwoChains {
        from: Text::new(alloc, from)?,
        to: Text::new(alloc, to)?,
        first,
        second,
    })
}

/// One chain is the answer, and two are a fault.
fn answer(alloc: Global, from: &str, to: &str, found: FirstChains) -> Result<GenChain, ChainFault>
    requires from { HasNoZero from.now }
    requires to { HasNoZero to.now }
    ensures one { IfOk result (λ chain. (found.second ≡ None) × (chain.ids ≡ found.first)) }
    ensures two { IfErr result (TellsBoth from.now to.now found.first found.second) }
{
    let FirstChains { first, second } = found;
    match second {
        None => Ok(GenChain { ids: first }),
        Some(second) => Err(two_chains(alloc, from, to, first, second)?),
    }
}

/// The chain from one type to another in a set. Of all lists of generators whose required properties the set has, of which
/// each takes a type that the one before gives, and along which no type is repeated, it is the only one of least length.
/// Two paths of types through one list of generators are one chain. From a type to itself it is the empty list.
///
/// The time grows with how many types all generators name, times how many one of them names, and not with the number of
/// chains.
pub fn chain(
    alloc: Global,
    types: &Types,
    from: &str,
    to: &str,
    set: &Props,
) -> Result<GenChain, ChainFault>
    requires from { HasNoZero from.now }
    requires to { HasNoZero to.now }
    ensures only { IfOk result (λ chain. IsOnlyShortest types.now.generators set.now from.now to.now chain.ids) }
    ensures between { IfErr result (IsBetween from.now to.now) }
    ensures no_chain { IfErr result (IsNoChainBy types.now.generators set.now from.now to.now) }
    ensures two_chains { IfErr result (IsTwoChainsBy types.now.generators set.now from.now to.now) }
{
    let generators = types.generators();
    let Some(layers) = layers(alloc, generators, set, from, to)? else {
        return Err(no_chain(alloc, from, to)?);
    };
    let found = find(alloc, generators, layers.as_slice(), from)?;
    answer(alloc, from, to, found)
}
