//! The conditions and the requirements of alternatives.
ghost use Rattle.std.specs.Prelude.{◌≡◌, ◌++◌, map, filter, OnOk, IfOk};
ghost use Rattle.std.specs.List.{flat_map};
ghost use Rattle.b2_refine.specs.Conditions.{own_pairs, unconditional};
ghost use Rattle.b2_alternatives.specs.Choosing.{is_base, condition, requirements};

use b2_base::fault::OutOfMemory;
use b2_base::list::List;
use b2_base::text::Text;
use b2_declared::place::{Place, Target};
use b2_features::attribute::Attribute;
use b2_features::registry::Registry;
use b2_props::lookups::is_with;
use b2_props::pair_list::PairList;
use b2_props::requirement::Requirement;
use b2_references::index::Index;
use b2_refine::choice::Condition;
use std::alloc::Global;

/// Whether a property may stand in a condition: it is neither free nor incidental.
fn is_base(registry: &Registry, property: &(Text, Text)) -> bool
    ensures { result ≡ is_base registry.now property.now }
{
    let feature = property.0.as_str();
    !(is_with(registry, Attribute::Free, feature)
        || is_with(registry, Attribute::Incidental, feature))
}

/// Adds the property of a requirement without conditions, where it may stand in a condition.
fn add_base(
    made: &mut PairList,
    registry: &Registry,
    requirement: &Requirement,
) -> Result<(), OutOfMemory>
    ensures { OnOk result (made.new ≡ made.old ++ filter (is_base registry.now) (own_pairs requirement.now)) }
{
    if let Requirement::Plain {
        conditions,
        property,
    } = requirement
    {
        if conditions.as_slice().is_empty() && is_base(registry, property) {
            made.push(property.0.copy()?, property.1.copy()?)?;
        }
    }
    Ok(())
}

/// The properties that some requirements require without conditions and that may stand in a condition.
fn condition(
    alloc: Global,
    registry: &Registry,
    required: &[Requirement],
) -> Result<Condition, OutOfMemory>
    ensures { IfOk result (λ made. made ≡ filter (is_base registry.now) (unconditional required.now)) }
{
    let mut made = PairList::new(alloc);
    for requirement in required {
        add_base(&mut made, registry, requirement)?;
    }
    Ok(made)
}

/// The conditions of some alternatives, in order.
pub(crate) fn conditions(
    alloc: Global,
    registry: &Registry,
    alternatives: &[&Target],
) -> Result<List<Condition>, OutOfMemory>
    ensures { IfOk result (λ made. made ≡ map (λ t. condition registry.now t.now) alternatives.now) }
{
    let mut made = List::new(alloc);
    for target in alternatives {
        made.push(condition(alloc, registry, target.requirements.as_slice())?)?;
    }
    Ok(made)
}

fn copy_requirement(alloc: Global, requirement: &Requirement) -> Result<Requirement, OutOfMemory>
    ensures { IfOk result (λ made. made ≡ requirement.now) }
{
    match requirement {
        Requirement::Indirect { rule } => Ok(Requirement::Indirect { rule: *rule }),
        Requirement::Plain {
            conditions,
            property,
        } => Ok(Requirement::Plain {
            conditions: conditions.copy(alloc)?,
            property: (property.0.copy()?, property.1.copy()?),
        }),
    }
}

/// Adds requirements at the end.
fn add_all(
    alloc: Global,
    made: &mut List<Requirement>,
    more: &[Requirement],
) -> Result<(), OutOfMemory>
    ensures { OnOk result (made.new ≡ made.old ++ more.now) }
{
    for requirement in more {
        made.push(copy_requirement(alloc, requirement)?)?;
    }
    Ok(())
}

/// The requirements of some projects, in order.
fn inherited(alloc: Global, places: &[&Place]) -> Result<List<Requirement>, OutOfMemory>
    ensures { IfOk result (λ made. made ≡ flat_map (λ p. p.now.requirements) places.now) }
{
    let mut made = List::new(alloc);
    for place in places {
        add_all(alloc, &mut made, place.requirements.as_slice())?;
    }
    Ok(made)
}

/// The requirements of an alternative: those of its projects, from Jamroot down, then its own.
pub fn requirements(
    alloc: Global,
    index: &Index<'_>,
    target: &Target,
) -> Result<List<Requirement>, OutOfMemory>
    ensures { IfOk result (λ made. made ≡ requirements index.now target.now) }
{
    let places = index.lineage(target.project)?;
    let mut made = inherited(alloc, places.as_slice())?;
    add_all(alloc, &mut made, target.requirements.as_slice())?;
    Ok(made)
}
