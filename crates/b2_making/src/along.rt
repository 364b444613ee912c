//! Chains of generators, whose steps are made one after another.
ghost use Rattle.std.specs.Prelude.{◌≡◌, ◌<◌, ◌+◌, ◌∷◌, [], List, codes, drop, find, filter, length, IfOk};
ghost use Rattle.std.specs.List.{AllByRecursion};
ghost use Rattle.std.specs.Option.{option_copied, option_map_or};
ghost use Rattle.b2_base.specs.Bytes.{HasNoZero};
ghost use Rattle.b2_plan.specs.declared.step.Step.{Step as PlanStep};
ghost use Rattle.b2_making.specs.Acts.{for_all};
ghost use Rattle.b2_virtual.specs.Supplies.{is_of};
ghost use Rattle.b2_making.specs.MakingParts.{GivesSome, if_last, Alone, Does, along_route, texts_of};
ghost use Rattle.b2_making.specs.Conversions.{chains, outputs_of, naming, first_tail, to_objects, linked};

use crate::fault::MakingFault;
use crate::output::{Output, OutputList, naming, outputs_of};
use crate::run::run;
use crate::set_texts::SetTexts;
use crate::setting::Setting;
use crate::site::Site;
use b2_base::fault::OutOfMemory;
use b2_base::path::Path;
use b2_base::text::Text;
use b2_base::text_list::TextList;
use b2_evaluator::evaluate::Evaluate;
use b2_generators::chain::chain;
use b2_virtual::builder::Builder;
use b2_virtual::entry::{Entry, EntryList, joined};
use std::alloc::Global;

/// The ids of the generators that lead from a type to another. Each of them has an output.
fn chain_ids<F: Drop>(
    setting: &Setting<'_>,
    site: &Site<'_>,
    from: &str,
    to: &str,
) -> Result<TextList, MakingFault<F>>
    requires from { HasNoZero from.now }
    requires to { HasNoZero to.now }
    ensures ids { (before : List PlanStep) → Alone (λ c s. chains c.generators s.set from.now to.now) setting.now site.now before before result }
    ensures given { IfOk result (AllByRecursion (GivesSome setting.now.types.now.generators)) }
{
    let found = chain(setting.alloc, setting.types, from, to, site.set)?;
    setting.types.ids_are_distinct();
    Ok(found.ids)
}

/// The tail of the first input, else a spare one.
fn first_tail<'a>(spare: &'a Path, ins: &'a [Entry]) -> &'a Path
    ensures { result.now ≡ first_tail spare.now ins.now }
{
    match ins {
        [] => spare,
        [first, ..] => &first.tail,
    }
}

/// A chain: the ids of its generators, the output that the last of them gives, where it is named, and the tail that stands for
/// that of the first input where a step has none.
#[derive(Clone, Copy)]
struct Route<'a, 'b> {
    ids: &'a [Text],
    named: Option<&'b Output>,
    spare: &'b Path,
}

impl Route<'_, '_> {
    /// The named output at the place of the last generator; takes no memory.
    fn named_at(&self, place: usize) -> Option<&Output>
        requires { place < length self.now.ids.now }
        ensures { option_copied result ≡ if_last (drop (place + 1) self.now.ids.now) (option_copied self.now.named) }
    {
        if place + 1 < self.ids.len() {
            return None;
        }
        self.named
    }
}

/// The outputs of the step of a generator, the named one among them where there is one.
fn named_outputs(
    setting: &Setting<'_>,
    id: &Text,
    tail: &Path,
    named: Option<&Output>,
) -> Result<OutputList, OutOfMemory>
    ensures { IfOk result (λ made. made ≡ naming (option_copied named.entry) (outputs_of setting.now.types.now.types setting.now.types.now.generators id.now tail.now)) }
{
    let outputs = outputs_of(setting.alloc, setting.types, id, tail)?;
    naming(outputs, named)
}

/// A step for each generator of a chain: the first takes the inputs, each later one all outputs of the one before.
fn along<V: Evaluate>(
    setting: &Setting<'_>,
    site: &Site<'_>,
    texts: &SetTexts,
    route: &Route<'_, '_>,
    ins: EntryList,
    evaluator: &mut V,
    builder: &mut Builder,
) -> Result<EntryList, MakingFault<V::Fault>>
    requires texts { texts.now ≡ texts_of setting.now.registry.now site.now.set.now }
    requires given { AllByRecursion (GivesSome setting.now.types.now.generators) route.now.ids.now }
    ensures { Does V.Evaluate (along_route route.now ins) setting.now site.now evaluator.old evaluator.new builder.old builder.new result }
{
    let mut entries = ins;
    let ids = route.ids;
    for (place, id) in ids.iter().enumerate() {
        let tail = first_tail(route.spare, entries.as_slice());
        let named = route.named_at(place);
        let outputs = named_outputs(setting, id, tail, named)?;
        let outs = outputs.as_slice();
        entries = run(setting, site, texts, id, entries, outs, evaluator, builder)?;
    }
    Ok(entries)
}

/// The objects among entries.
fn only_objects(entries: EntryList) -> EntryList
    ensures { result ≡ filter (is_of (codes "OBJ")) entries }
{
    let mut kept = entries.into_vec();
    kept.retain(|entry| entry.is_of("OBJ"));
    EntryList::from_vec(kept)
}

/// An entry as the only one of a list.
fn one(alloc: Global, entry: &Entry) -> Result<EntryList, OutOfMemory>
    ensures { IfOk result (λ made. made ≡ entry.now ∷ []) }
{
    let mut made = EntryList::new(alloc);
    made.push(entry.copy()?)?;
    Ok(made)
}

/// A source becomes objects.
fn to_objects<V: Evaluate>(
    setting: &Setting<'_>,
    site: &Site<'_>,
    texts: &SetTexts,
    entry: &Entry,
    evaluator: &mut V,
    builder: &mut Builder,
) -> Result<EntryList, MakingFault<V::Fault>>
    requires texts { texts.now ≡ texts_of setting.now.registry.now site.now.set.now }
    ensures { Does V.Evaluate (λ c s. to_objects c s entry.now) setting.now site.now evaluator.old evaluator.new builder.old builder.new result }
{
    let ids = chain_ids::<V::Fault>(setting, site, entry.file_type.as_str(), "OBJ")?;
    let ins = one(setting.alloc, entry)?;
    let list = ids.as_slice();
    let route = Route {
        ids: list,
        named: None,
        spare: &entry.tail,
    };
    let made = along(setting, site, texts, &route, ins, evaluator, builder)?;
    Ok(only_objects(made))
}

/// Sources become objects, one after another.
pub(crate) fn all_objects<V: Evaluate>(
    setting: &Setting<'_>,
    site: &Site<'_>,
    texts: &SetTexts,
    entries: &[Entry],
    evaluator: &mut V,
    builder: &mut Builder,
) -> Result<EntryList, MakingFault<V::Fault>>
    requires texts { texts.now ≡ texts_of setting.now.registry.now site.now.set.now }
    ensures { Does V.Evaluate (λ c s. for_all (to_objects c s) entries.now) setting.now site.now evaluator.old evaluator.new builder.old builder.new result }
{
    let mut made = EntryList::new(setting.alloc);
    for entry in entries {
        let objects = to_objects(setting, site, texts, entry, evaluator, builder)?;
        made = joined(made, objects)?;
    }
    Ok(made)
}

/// The first entry of a type, as the only one of a list.
fn first_of(alloc: Global, entries: &[Entry], file_type: &str) -> Result<EntryList, OutOfMemory>
    ensures { IfOk result (λ made. made ≡ option_map_or (λ e. e ∷ []) (find (is_of file_type.now) entries.now) []) }
{
    for entry in entries {
        if entry.is_of(file_type) {
            return one(alloc, entry);
        }
    }
    Ok(EntryList::new(alloc))
}

/// Objects and libraries become the named output, which is the entry.
pub(crate) fn linked<V: Evaluate>(
    setting: &Setting<'_>,
    site: &Site<'_>,
    texts: &SetTexts,
    named: &Output,
    ins: EntryList,
    evaluator: &mut V,
    builder: &mut Builder,
) -> Result<EntryList, MakingFault<V::Fault>>
    requires texts { texts.now ≡ texts_of setting.now.registry.now site.now.set.now }
    ensures { Does V.Evaluate (λ c s. linked c s named.now ins) setting.now site.now evaluator.old evaluator.new builder.old builder.new result }
{
    let ids = chain_ids::<V::Fault>(setting, site, "OBJ", named.file_type.as_str())?;
    let list = ids.as_slice();
    let route = Route {
        ids: list,
        named: Some(named),
        spare: &named.tail,
    };
    let made = along(setting, site, texts, &route, ins, evaluator, builder)?;
    let found = made.as_slice();
    let entries = first_of(setting.alloc, found, named.file_type.as_str())?;
    Ok(entries)
}
