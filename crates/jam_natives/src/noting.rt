//! DEPENDS, INCLUDES, ALWAYS and NOTFILE.
ghost use Rattle.std.specs.Prelude.{◌≡◌, IfOk, IfSome, OnOk, OnErr, option_map};
ghost use Rattle.b2_base.specs.Bytes.{HasNoZero};
ghost use Rattle.jam_meaning.specs.NativeCalls.{KeepsFrames, PutsPart};
ghost use Rattle.jam_scope.specs.Changes.{changed};
ghost use Rattle.jam_natives.specs.Named.{paths_in};
ghost use Rattle.jam_natives.specs.Rows.{named_by, add_each, noted, foreign_in, name_of, note};
ghost use Rattle.jam_natives.specs.NativeAnswers.{IsPut};

use crate::native::Noting;
use crate::target::{StepPaths, first_foreign};
use b2_base::fault::OutOfMemory;
use b2_base::path::path_of;
use b2_base::text::Text;
use b2_base::text_list::{TextList, first_of, list_at};
use jam_meaning::natives::{NativeError, NativeStep};
use jam_patterns::native_fault::NativeFault;
use jam_scope::notes::StepNotes;
use jam_scope::world::World;
use std::alloc::Global;

/// The outputs of a step, which targets may name.
fn outs_of(notes: &StepNotes) -> StepPaths<'_>
    ensures { paths_in result ≡ named_by Noting.Depends notes.now }
{
    StepPaths {
        outs: notes.outs.as_slice(),
        ins: &[],
        added: &[],
    }
}

/// What a target may name.
fn named_by(rule: Noting, notes: &StepNotes) -> StepPaths<'_>
    ensures { paths_in result ≡ named_by rule notes.now }
{
    match rule {
        Noting::Depends => outs_of(notes),
        Noting::Includes => StepPaths {
            outs: notes.outs.as_slice(),
            ins: notes.ins.as_slice(),
            added: notes.depends.as_slice(),
        },
        Noting::Always => outs_of(notes),
        Noting::NotFile => outs_of(notes),
    }
}

/// The text that has no place in the open step, if there is one.
fn foreign_in<'a>(
    alloc: Global,
    notes: &StepNotes,
    rule: Noting,
    lists: &'a [TextList],
) -> Result<Option<&'a str>, OutOfMemory>
    ensures value { IfOk result (λ text. option_map (λ t. t.now) text ≡ foreign_in (Some notes.now) rule lists.now) }
    ensures no_zero { IfOk result (λ text. IfSome text (λ t. HasNoZero t.now)) }
{
    let named = named_by(rule, notes);
    match first_foreign(alloc, list_at(lists, 0), list_at(lists, 1), &named)? {
        None => Ok(None),
        Some(text) => Ok(Some(text.as_str())),
    }
}

/// The same where no step may be open: outside a step's rule it is the first target.
fn foreign<'a>(
    alloc: Global,
    rule: Noting,
    lists: &'a [TextList],
    world: &World,
) -> Result<Option<&'a str>, OutOfMemory>
    ensures value { IfOk result (λ text. option_map (λ t. t.now) text ≡ foreign_in world.now.now.step rule lists.now) }
    ensures no_zero { IfOk result (λ text. IfSome text (λ t. HasNoZero t.now)) }
{
    match world.step() {
        None => Ok(Some(first_of(list_at(lists, 0)))),
        Some(notes) => foreign_in(alloc, notes, rule, lists),
    }
}

/// Adds inputs to the open step. After an error some may have been added.
fn add_each(alloc: Global, sources: &[Text], world: &mut World) -> Result<(), OutOfMemory>
    ensures ok { OnOk result (world.new ≡ changed (add_each sources.now) world.old) }
    ensures err { OnErr result (PutsPart world.old.now world.new.now) }
    ensures frames { KeepsFrames world.old world.new }
{
    for source in sources {
        world.add_depends(path_of(alloc, source.as_str())?)?;
    }
    Ok(())
}

/// Adds what a rule notes to the open step.
fn put_note(
    alloc: Global,
    rule: Noting,
    sources: &[Text],
    world: &mut World,
) -> Result<(), OutOfMemory>
    ensures ok { OnOk result (world.new ≡ changed (noted rule sources.now) world.old) }
    ensures err { OnErr result (PutsPart world.old.now world.new.now) }
    ensures frames { KeepsFrames world.old world.new }
{
    match rule {
        Noting::Depends => add_each(alloc, sources, world),
        Noting::Includes => add_each(alloc, sources, world),
        Noting::Always => {
            world.set_always();
            Ok(())
        }
        Noting::NotFile => {
            world.set_notfile();
            Ok(())
        }
    }
}

fn name_of(rule: Noting) -> &'static str
    ensures value { result.now ≡ name_of rule }
    ensures no_zero { HasNoZero result.now }
{
    match rule {
        Noting::Depends => "DEPENDS",
        Noting::Includes => "INCLUDES",
        Noting::Always => "ALWAYS",
        Noting::NotFile => "NOTFILE",
    }
}

/// The fault of a text that has no place in the open step.
fn elsewhere(alloc: Global, rule: Noting, text: &str) -> Result<NativeFault, OutOfMemory>
    requires { HasNoZero text.now }
    ensures { IfOk result (λ fault. fault ≡ NativeFault.DependsElsewhere (name_of rule) text.now) }
{
    let rule = Text::new(alloc, name_of(rule))?;
    let text = Text::new(alloc, text)?;
    Ok(NativeFault::DependsElsewhere { rule, text })
}

/// Calls a rule that notes something of the open step, with lists of its shape.
pub(crate) fn note(
    alloc: Global,
    rule: Noting,
    lists: &[TextList],
    world: &mut World,
) -> Result<NativeStep, NativeError>
    ensures put { IsPut result (note rule lists.now) world.old world.new }
    ensures frames { KeepsFrames world.old world.new }
{
    if let Some(text) = foreign(alloc, rule, lists, world)? {
        return Err(NativeError::Fault(elsewhere(alloc, rule, text)?));
    }
    put_note(alloc, rule, list_at(lists, 1), world)?;
    Ok(NativeStep::Value(TextList::new(alloc)))
}
