//! The steps of a main target.
ghost use Rattle.std.specs.Prelude.{◌≡◌, [], not, filter, Some, IfOk, IfErr, if◌then◌else◌};
ghost use Rattle.b2_props.specs.Sets.{IsSet};
ghost use Rattle.b2_evaluator.specs.Answers.{Answers};
ghost use Rattle.b2_base.specs.Counts.{IsCounted};
ghost use Rattle.b2_making.specs.Contexts.{site_of};
ghost use Rattle.b2_virtual.specs.Supplies.{is_header, entries_of, carried_of, libraries_of};
ghost use Rattle.b2_making.specs.Conversions.{links, makes_objects, makes_program, makes_library, makes_file, makes, to_convert};
ghost use Rattle.b2_making.specs.Answers.{IsKnownFault, is_of_eval, Grows};
ghost use Rattle.b2_making.specs.MakingParts.{Does, Makes, RefusesToMake, texts_of};

use crate::along::{all_objects, linked};
use crate::copies::make_copies;
use crate::fault::MakingFault;
use crate::named::{is_shared, library_file, named_file, program};
use crate::output::Output;
use crate::run::run;
use crate::set_texts::{SetTexts, set_texts};
use crate::setting::Setting;
use crate::site::Site;
use b2_base::fault::OutOfMemory;
use b2_declaring_calls::declaration::Kind;
use b2_evaluator::evaluate::Evaluate;
use b2_virtual::builder::Builder;
use b2_virtual::entry::{EntryList, Supply, joined, only};
use b2_virtual::supplies::{carried_of, entries_of, libraries_of};
use std::alloc::Global;

/// The sources of an `obj` but the headers.
fn without_headers(alloc: Global, site: &Site<'_>) -> Result<EntryList, OutOfMemory>
    ensures { IfOk result (λ made. made ≡ filter (λ e. not (is_header e)) (entries_of site.now.sources.now)) }
{
    let mut kept = entries_of(alloc, site.sources)?.into_vec();
    kept.retain(|entry| !entry.is_header());
    Ok(EntryList::from_vec(kept))
}

/// What an `exe` or a `lib` converts to objects.
fn to_convert(alloc: Global, site: &Site<'_>) -> Result<EntryList, OutOfMemory>
    ensures { IfOk result (λ made. made ≡ to_convert (site_of site.now)) }
{
    let mut kept = entries_of(alloc, site.sources)?.into_vec();
    kept.retain(|entry| !(entry.is_header() || entry.is_library()));
    Ok(EntryList::from_vec(kept))
}

fn make_objects<V: Evaluate>(
    setting: &Setting<'_>,
    site: &Site<'_>,
    evaluator: &mut V,
    builder: &mut Builder,
) -> Result<Supply, MakingFault<V::Fault>>
    requires { IsSet setting.now.registry.now site.now.set.now }
    ensures { Does V.Evaluate makes_objects setting.now site.now evaluator.old evaluator.new builder.old builder.new result }
{
    let sources = without_headers(setting.alloc, site)?;
    let texts = set_texts(setting, site)?;
    let entries = sources.as_slice();
    let made = all_objects(setting, site, &texts, entries, evaluator, builder)?;
    Ok(only(setting.alloc, made))
}

/// The libraries of all parts, where they are inputs.
fn linked_libraries(
    alloc: Global,
    site: &Site<'_>,
    are_inputs: bool,
) -> Result<EntryList, OutOfMemory>
    ensures { IfOk result (λ made. made ≡ (if are_inputs then libraries_of site.now.parts.now else [])) }
{
    if are_inputs {
        return libraries_of(alloc, site.parts);
    }
    Ok(EntryList::new(alloc))
}

/// Sources become objects, and these with libraries the named output.
fn link<V: Evaluate>(
    setting: &Setting<'_>,
    site: &Site<'_>,
    texts: &SetTexts,
    named: &Output,
    with_libraries: bool,
    evaluator: &mut V,
    builder: &mut Builder,
) -> Result<EntryList, MakingFault<V::Fault>>
    requires { texts.now ≡ texts_of setting.now.registry.now site.now.set.now }
    ensures { Does V.Evaluate (λ c s. links c s named.now with_libraries) setting.now site.now evaluator.old evaluator.new builder.old builder.new result }
{
    let sources = to_convert(setting.alloc, site)?;
    let entries = sources.as_slice();
    let objects = all_objects(setting, site, texts, entries, evaluator, builder)?;
    // nothing reads the sources while the text of the last step is evaluated
    drop(sources);
    let libraries = linked_libraries(setting.alloc, site, with_libraries)?;
    let ins = joined(objects, libraries)?;
    linked(setting, site, texts, named, ins, evaluator, builder)
}

fn make_program<V: Evaluate>(
    setting: &Setting<'_>,
    site: &Site<'_>,
    evaluator: &mut V,
    builder: &mut Builder,
) -> Result<Supply, MakingFault<V::Fault>>
    requires { IsSet setting.now.registry.now site.now.set.now }
    ensures { Does V.Evaluate makes_program setting.now site.now evaluator.old evaluator.new builder.old builder.new result }
{
    let named = program(setting.alloc, site)?;
    let texts = set_texts(setting, site)?;
    let entries = link(setting, site, &texts, &named, true, evaluator, builder)?;
    Ok(only(setting.alloc, entries))
}

fn make_library<V: Evaluate>(
    setting: &Setting<'_>,
    site: &Site<'_>,
    evaluator: &mut V,
    builder: &mut Builder,
) -> Result<Supply, MakingFault<V::Fault>>
    requires { IsSet setting.now.registry.now site.now.set.now }
    ensures { Does V.Evaluate makes_library setting.now site.now evaluator.old evaluator.new builder.old builder.new result }
{
    let named = library_file(setting.alloc, setting.types, site)?;
    let texts = set_texts(setting, site)?;
    let entries = link(
        setting,
        site,
        &texts,
        &named,
        is_shared(site),
        evaluator,
        builder,
    )?;
    let carried = libraries_of(setting.alloc, site.parts)?;
    Ok(Supply { entries, carried })
}

fn make_file<V: Evaluate>(
    setting: &Setting<'_>,
    site: &Site<'_>,
    evaluator: &mut V,
    builder: &mut Builder,
) -> Result<Supply, MakingFault<V::Fault>>
    requires { IsSet setting.now.registry.now site.now.set.now }
    ensures { Does V.Evaluate makes_file setting.now site.now evaluator.old evaluator.new builder.old builder.new result }
{
    let ins = entries_of(setting.alloc, site.parts)?;
    let named = named_file(setting.alloc, setting.types, site)?;
    let texts = set_texts(setting, site)?;
    let outputs = [named];
    let outs = outputs.as_slice();
    let entries = run(
        setting, site, &texts, site.rule, ins, outs, evaluator, builder,
    )?;
    Ok(only(setting.alloc, entries))
}

fn pass_on(alloc: Global, site: &Site<'_>) -> Result<Supply, OutOfMemory>
    ensures { IfOk result (λ made. made ≡ record { entries = entries_of site.now.parts.now; carried = carried_of site.now.parts.now }) }
{
    let entries = entries_of(alloc, site.parts)?;
    let carried = carried_of(alloc, site.parts)?;
    Ok(Supply { entries, carried })
}

fn make_kind<V: Evaluate>(
    setting: &Setting<'_>,
    site: &Site<'_>,
    evaluator: &mut V,
    builder: &mut Builder,
) -> Result<Supply, MakingFault<V::Fault>>
    requires { IsSet setting.now.registry.now site.now.set.now }
    ensures { Does V.Evaluate makes setting.now site.now evaluator.old evaluator.new builder.old builder.new result }
{
    match site.kind {
        Kind::Obj => make_objects(setting, site, evaluator, builder),
        Kind::Exe => make_program(setting, site, evaluator, builder),
        Kind::Lib => make_library(setting, site, evaluator, builder),
        Kind::Make => make_file(setting, site, evaluator, builder),
        Kind::Install => make_copies(setting, site, builder),
        Kind::Alias => {
            let made = pass_on(setting.alloc, site)?;
            Ok(made)
        }
    }
}

/// Makes the steps of a main target, which join those before, and gives its entries and the libraries that it carries on.
///
/// An `obj` makes objects of its sources; an `exe` and a `lib` make objects of theirs, and a program or a library of these; a
/// `make` has one step of its rule; an `install` copies; an `alias` has no step. A source becomes objects by the only shortest
/// chain of generators, one step each. The outputs of a step get their paths in order, then the step its text, and then it is
/// joined. The first refusal on this way is the answer; the steps that were joined before it stay.
///
/// The time grows with the number of entries, and for each step with that of its properties.
pub fn make<V: Evaluate>(
    setting: &Setting<'_>,
    site: &Site<'_>,
    evaluator: &mut V,
    builder: &mut Builder,
) -> Result<Supply, MakingFault<V::Fault>>
    requires { IsSet setting.now.registry.now site.now.set.now }
    ensures made { (told : Answers V.Fault) → V.answers evaluator.old ≡ Some told → Makes told setting.now site.now builder.old builder.new result }
    ensures refused { (told : Answers V.Fault) → V.answers evaluator.old ≡ Some told → RefusesToMake V.Evaluate told setting.now site.now builder.old result }
    ensures grows { Grows setting.now.roots.now builder.old builder.new }
    ensures known { IfErr result (IsKnownFault (V.CanFault (V.kept evaluator.old))) }
    ensures counted { IsCounted (is_of_eval V.is_host_fault) (is_of_eval V.is_out_of_memory) (V.faults evaluator.old) (V.faults evaluator.new) result }
    ensures answers { V.answers evaluator.new ≡ V.answers evaluator.old }
    ensures kept { V.kept evaluator.new ≡ V.kept evaluator.old }
{
    make_kind(setting, site, evaluator, builder)
}
