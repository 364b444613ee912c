//! IMPORT and EXPORT.
ghost use Rattle.std.specs.Prelude.{◌≡◌, length, IfOk, OnOk, OnErr};
ghost use Rattle.std.specs.Option.{option_copied};
ghost use Rattle.b2_base.specs.Bytes.{HasNoZero};
ghost use Rattle.jam_meaning.specs.NativeCalls.{KeepsFrames, PutsPart};
ghost use Rattle.jam_scope.specs.Changes.{changed};
ghost use Rattle.jam_natives.specs.Rows.{missing_rule, import_each, imported, import_call, export_call};
ghost use Rattle.jam_natives.specs.NativeAnswers.{IsPut};

use b2_base::fault::OutOfMemory;
use b2_base::text::Text;
use b2_base::text_list::{TextList, first_of, list_at};
use jam_meaning::natives::{NativeError, NativeStep};
use jam_patterns::native_fault::NativeFault;
use jam_scope::rule_ref::RuleRef;
use jam_scope::world::World;
use std::alloc::Global;

/// The first of some rules that a module has not. Takes no memory.
fn missing_rule<'a>(owner: &str, names: &'a [Text], world: &World) -> Option<&'a Text>
    ensures { option_copied result ≡ missing_rule world.now.now.rules owner.now names.now }
{
    for name in names {
        let at = RuleRef {
            module: owner,
            name: name.as_str(),
        };
        if world.rule_body(&at).is_none() {
            return Some(name);
        }
    }
    None
}

/// Puts rules of a module, one after the other, into a module under names. After an error some may have been put.
fn import_each(
    from: &str,
    names: &[Text],
    to: &str,
    places: &[Text],
    world: &mut World,
) -> Result<(), OutOfMemory>
    requires { length names.now ≡ length places.now }
    ensures ok { OnOk result (world.new ≡ changed (import_each from.now names.now to.now places.now) world.old) }
    ensures err { OnErr result (PutsPart world.old.now world.new.now) }
    ensures frames { KeepsFrames world.old world.new }
{
    for (index, name) in names.iter().enumerate() {
        let at = RuleRef {
            module: from,
            name: name.as_str(),
        };
        world.import_rule(&at, to, places[index].as_str())?;
    }
    Ok(())
}

/// The fault of a rule that a module has not.
fn no_such_rule(alloc: Global, owner: &str, name: &Text) -> Result<NativeFault, OutOfMemory>
    requires { HasNoZero owner.now }
    ensures { IfOk result (λ fault. fault ≡ NativeFault.NoSuchRule owner.now name.now) }
{
    let module = Text::new(alloc, owner)?;
    let name = name.copy()?;
    Ok(NativeFault::NoSuchRule { module, name })
}

/// Puts rules of a module into a module under as many names.
fn import(
    alloc: Global,
    from: &str,
    names: &[Text],
    to: &str,
    places: &[Text],
    world: &mut World,
) -> Result<NativeStep, NativeError>
    requires no_zero { HasNoZero from.now }
    requires as_many { length names.now ≡ length places.now }
    ensures put { IsPut result (imported from.now names.now to.now places.now) world.old world.new }
    ensures frames { KeepsFrames world.old world.new }
{
    if let Some(name) = missing_rule(from, names, world) {
        return Err(NativeError::Fault(no_such_rule(alloc, from, name)?));
    }
    import_each(from, names, to, places, world)?;
    Ok(NativeStep::Value(TextList::new(alloc)))
}

/// IMPORT: a module's rules are put into a module under as many names. The lists are those of a call that has its shape.
pub(crate) fn import_call(
    alloc: Global,
    lists: &[TextList],
    world: &mut World,
) -> Result<NativeStep, NativeError>
    ensures put { IsPut result (import_call lists.now) world.old world.new }
    ensures frames { KeepsFrames world.old world.new }
{
    let names = list_at(lists, 1);
    let places = list_at(lists, 3);
    if names.len() != places.len() {
        return Err(NativeError::Arity);
    }
    let from = first_of(list_at(lists, 0));
    let to = first_of(list_at(lists, 2));
    import(alloc, from, names, to, places, world)
}

/// EXPORT: a module's rules are put into the global module. The lists are those of a call that has its shape.
pub(crate) fn export_call(
    alloc: Global,
    lists: &[TextList],
    world: &mut World,
) -> Result<NativeStep, NativeError>
    ensures put { IsPut result (export_call lists.now) world.old world.new }
    ensures frames { KeepsFrames world.old world.new }
{
    let names = list_at(lists, 1);
    let from = first_of(list_at(lists, 0));
    import(alloc, from, names, "", names, world)
}
