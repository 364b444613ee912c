//! The property texts of a call, read in the directory of its project.
ghost use Rattle.std.specs.Prelude.{◌≡◌, Ok, IfOk, IfErr, OnOk};
ghost use Rattle.b2_property_texts.specs.Clashes.{has_two_values, unconditional_pairs};
ghost use Rattle.b2_property_texts.specs.Readings.{property_reading};
ghost use Rattle.b2_declared.specs.Outcomes.{IsFaultOf};
ghost use Rattle.b2_declared.specs.DeclaringCalls.{at_call};
ghost use Rattle.b2_declared.specs.Carrying.{properties_in};
ghost use Rattle.b2_declared.specs.Gathering.{requirements_in, usages_in, no_lists, with_texts, is_of_requirements, are_others, is_last, has_clash, with_list, lists_in};

use crate::fault::{DeclaringFault, feature_refusal, refusal};
use crate::visit::{Call, Visit};
use b2_base::fault::OutOfMemory;
use b2_base::list::List;
use b2_base::text::Text;
use b2_declaring_calls::declaration::{ListName, PropertyList};
use b2_features::registry::Registry;
use b2_property_texts::clashes::{has_two_values, unconditional_pairs};
use b2_property_texts::lists::{read_properties, read_requirements, read_usages};
use b2_property_texts::reading::{Conditional, RequirementText, read_property};
use b2_props::pair_list::PairList;
use std::alloc::Global;

/// The property that a text of a call says, or the refusal of the call.
pub(crate) fn read_pair(
    alloc: Global,
    registry: &Registry,
    visit: &Visit,
    call: &Call,
    text: &Text,
) -> Result<(Text, Text), DeclaringFault>
    ensures ok { IfOk result (λ made. property_reading registry.now visit.now.dir text.now ≡ Ok made) }
    ensures fault { IfErr result (IsFaultOf (at_call visit.now call.now (property_reading registry.now visit.now.dir text.now))) }
{
    match read_property(alloc, registry, &visit.dir, text) {
        Ok(pair) => Ok(pair),
        Err(fault) => Err(feature_refusal(visit, call, fault)),
    }
}

/// Reads properties in order.
pub(crate) fn read_pairs(
    alloc: Global,
    registry: &Registry,
    visit: &Visit,
    call: &Call,
    texts: &[Text],
) -> Result<PairList, DeclaringFault>
    ensures ok { IfOk result (λ made. properties_in registry.now visit.now texts.now ≡ Ok made) }
    ensures fault { IfErr result (IsFaultOf (at_call visit.now call.now (properties_in registry.now visit.now texts.now))) }
{
    match read_properties(alloc, registry, &visit.dir, texts) {
        Ok(pairs) => Ok(pairs),
        Err(fault) => Err(feature_refusal(visit, call, fault)),
    }
}

/// Whether some requirements give a feature that is not free two values without conditions.
fn clash(
    alloc: Global,
    registry: &Registry,
    requirements: &[RequirementText],
) -> Result<bool, OutOfMemory>
    ensures { IfOk result (λ found. found ≡ has_two_values registry.now (unconditional_pairs requirements.now)) }
{
    let pairs = unconditional_pairs(alloc, requirements)?;
    has_two_values(alloc, registry, pairs.as_slice())
}

/// The requirements that the texts of a call say, in order, or the refusal of the call by the first text that says none.
fn read_requirement_texts(
    alloc: Global,
    registry: &Registry,
    visit: &Visit,
    call: &Call,
    texts: &[Text],
) -> Result<List<RequirementText>, DeclaringFault>
    ensures ok { IfOk result (λ made. requirements_in registry.now visit.now texts.now ≡ Ok made) }
    ensures fault { IfErr result (IsFaultOf (at_call visit.now call.now (requirements_in registry.now visit.now texts.now))) }
{
    match read_requirements(alloc, registry, &visit.dir, texts) {
        Ok(made) => Ok(made),
        Err(fault) => Err(feature_refusal(visit, call, fault)),
    }
}

/// Reads usage requirements in order.
fn read_usage_texts(
    alloc: Global,
    registry: &Registry,
    visit: &Visit,
    call: &Call,
    texts: &[Text],
) -> Result<List<Conditional>, DeclaringFault>
    ensures ok { IfOk result (λ made. usages_in registry.now visit.now texts.now ≡ Ok made) }
    ensures fault { IfErr result (IsFaultOf (at_call visit.now call.now (usages_in registry.now visit.now texts.now))) }
{
    match read_usages(alloc, registry, &visit.dir, texts) {
        Ok(made) => Ok(made),
        Err(fault) => Err(feature_refusal(visit, call, fault)),
    }
}

fn is_of_requirements(list: &PropertyList) -> bool
    ensures { result ≡ is_of_requirements list.now }
{
    match list.name {
        ListName::Requirements => true,
        ListName::DefaultBuild | ListName::Usage => false,
    }
}

fn are_others(lists: &[PropertyList]) -> bool
    ensures { result ≡ are_others lists.now }
{
    lists.iter().all(|list| !is_of_requirements(list))
}

/// Whether a list is the last one of requirements, where others stand after it; takes no memory.
fn is_last(list: &PropertyList, more: &[PropertyList]) -> bool
    ensures { result ≡ is_last list.now more.now }
{
    is_of_requirements(list) && are_others(more)
}

/// What the property lists of a project or a main target say.
#[derive(Drop)]
pub(crate) struct Lists {
    pub(crate) requirements: List<RequirementText>,
    pub(crate) defaults: PairList,
    pub(crate) usage: List<Conditional>,
}

impl Lists {
    /// No lists; takes no memory.
    fn new(alloc: Global) -> Lists
        ensures { result ≡ no_lists }
    {
        Lists {
            requirements: List::new(alloc),
            defaults: PairList::new(alloc),
            usage: List::new(alloc),
        }
    }

    fn add_requirements(
        &mut self,
        alloc: Global,
        registry: &Registry,
        visit: &Visit,
        call: &Call,
        texts: &[Text],
    ) -> Result<(), DeclaringFault>
        ensures ok { OnOk result (with_texts registry.now visit.now call.now ListName.Requirements texts.now self.old ≡ Ok self.new) }
        ensures fault { IfErr result (IsFaultOf (with_texts registry.now visit.now call.now ListName.Requirements texts.now self.old)) }
    {
        let more = read_requirement_texts(alloc, registry, visit, call, texts)?;
        self.requirements.append(more)?;
        Ok(())
    }

    fn add_defaults(
        &mut self,
        alloc: Global,
        registry: &Registry,
        visit: &Visit,
        call: &Call,
        texts: &[Text],
    ) -> Result<(), DeclaringFault>
        ensures ok { OnOk result (with_texts registry.now visit.now call.now ListName.DefaultBuild texts.now self.old ≡ Ok self.new) }
        ensures fault { IfErr result (IsFaultOf (with_texts registry.now visit.now call.now ListName.DefaultBuild texts.now self.old)) }
    {
        let more = read_pairs(alloc, registry, visit, call, texts)?;
        self.defaults.append(more)?;
        Ok(())
    }

    fn add_usage(
        &mut self,
        alloc: Global,
        registry: &Registry,
        visit: &Visit,
        call: &Call,
        texts: &[Text],
    ) -> Result<(), DeclaringFault>
        ensures ok { OnOk result (with_texts registry.now visit.now call.now ListName.Usage texts.now self.old ≡ Ok self.new) }
        ensures fault { IfErr result (IsFaultOf (with_texts registry.now visit.now call.now ListName.Usage texts.now self.old)) }
    {
        let more = read_usage_texts(alloc, registry, visit, call, texts)?;
        self.usage.append(more)?;
        Ok(())
    }

    fn add_texts(
        &mut self,
        alloc: Global,
        registry: &Registry,
        visit: &Visit,
        call: &Call,
        name: ListName,
        texts: &[Text],
    ) -> Result<(), DeclaringFault>
        ensures ok { OnOk result (with_texts registry.now visit.now call.now name texts.now self.old ≡ Ok self.new) }
        ensures fault { IfErr result (IsFaultOf (with_texts registry.now visit.now call.now name texts.now self.old)) }
    {
        match name {
            ListName::Requirements => self.add_requirements(alloc, registry, visit, call, texts),
            ListName::DefaultBuild => self.add_defaults(alloc, registry, visit, call, texts),
            ListName::Usage => self.add_usage(alloc, registry, visit, call, texts),
        }
    }

    /// Whether the requirements give a feature that is not free two values without conditions, where the last list of them
    /// was read.
    fn has_clash(
        &self,
        alloc: Global,
        registry: &Registry,
        list: &PropertyList,
        more: &[PropertyList],
    ) -> Result<bool, OutOfMemory>
        ensures { IfOk result (λ found. found ≡ has_clash registry.now list.now more.now self.now) }
    {
        if !is_last(list, more) {
            return Ok(false);
        }
        clash(alloc, registry, self.requirements.as_slice())
    }

    /// Reads one more list, where others stand after it.
    fn add(
        &mut self,
        alloc: Global,
        registry: &Registry,
        visit: &Visit,
        call: &Call,
        list: &PropertyList,
        more: &[PropertyList],
    ) -> Result<(), DeclaringFault>
        ensures ok { OnOk result (with_list registry.now visit.now call.now list.now more.now self.old ≡ Ok self.new) }
        ensures fault { IfErr result (IsFaultOf (with_list registry.now visit.now call.now list.now more.now self.old)) }
    {
        self.add_texts(
            alloc,
            registry,
            visit,
            call,
            list.name,
            list.texts.as_slice(),
        )?;
        if self.has_clash(alloc, registry, list, more)? {
            return Err(refusal(visit, call));
        }
        Ok(())
    }
}

/// Reads the property lists of a call in order. Once the last list of requirements was read, they give no feature that is
/// not free two values without conditions.
#[tactic(auto, unfolding(crate::specs::Gathering::lists_in))]
pub(crate) fn read_lists(
    alloc: Global,
    registry: &Registry,
    visit: &Visit,
    call: &Call,
    lists: &[PropertyList],
) -> Result<Lists, DeclaringFault>
    ensures ok { IfOk result (λ made. lists_in registry.now visit.now call.now lists.now ≡ Ok made) }
    ensures fault { IfErr result (IsFaultOf (lists_in registry.now visit.now call.now lists.now)) }
{
    let mut made = Lists::new(alloc);
    let mut left = lists;
    'each: while let Some((list, more)) = left.split_first() {
        made.add(alloc, registry, visit, call, list, more)?;
        left = more;
    }
    Ok(made)
}
