//! Which generators give a type.
ghost use Rattle.std.specs.Prelude.{◌≡◌, [], ◌++◌, IfOk, OnOk};
ghost use Rattle.std.specs.FinMap as map;
ghost use Rattle.std.specs.Str.{bytes_eq};
ghost use Rattle.b2_generators.specs.Table.{has_text};
ghost use Rattle.b2_generators.specs.Places.{gives_at, is_taken_by};
ghost use Rattle.b2_generators.specs.Layers.{stock, AddsAtOne, AddsWhere, AreAll, Moves};

use crate::generator_table::GeneratorTable;
use crate::places::{is_usable, sources_at, targets_at};
use b2_base::fault::OutOfMemory;
use b2_base::list::List;
use b2_base::text::Text;
use b2_base::text_map::TextMap;
use b2_props::props::Props;
use std::alloc::Global;

/// The places of the generators that give a type, for each type that nothing has asked for yet.
pub(crate) type Givers = TextMap<List<usize>>;

/// Takes what stands at a type.
fn take(alloc: Global, givers: &mut Givers, target: &Text) -> Result<List<usize>, OutOfMemory>
    ensures taken { IfOk result (λ taken. taken ≡ stock givers.old target.now) }
    ensures left { OnOk result (givers.new ≡ map.insert givers.old target.now []) }
{
    let before = givers.insert(target.copy()?, List::new(alloc))?;
    Ok(before.unwrap_or(List::new(alloc)))
}

fn add(alloc: Global, givers: &mut Givers, target: &Text, place: usize) -> Result<(), OutOfMemory>
    ensures { OnOk result (AddsAtOne place target.now givers.old givers.new) }
{
    let mut places = take(alloc, givers, target)?;
    places.push(place)?;
    givers.set(target, places);
    Ok(())
}

fn add_at_all(
    alloc: Global,
    givers: &mut Givers,
    targets: &[Text],
    place: usize,
) -> Result<(), OutOfMemory>
    ensures { OnOk result (AddsWhere place (has_text targets.now) givers.old givers.new) }
{
    for target in targets {
        add(alloc, givers, target, place)?;
    }
    Ok(())
}

/// Adds the generator at a place to the types that it gives, if it can be used.
fn add_generator(
    alloc: Global,
    givers: &mut Givers,
    generators: &GeneratorTable,
    set: &Props,
    place: usize,
) -> Result<(), OutOfMemory>
    ensures { OnOk result (AddsWhere place (gives_at generators.now set.now place) givers.old givers.new) }
{
    if is_usable(generators, set, place) {
        add_at_all(alloc, givers, targets_at(generators, place), place)?;
    }
    Ok(())
}

/// The generators that can be used, for each type that they give.
pub(crate) fn givers(
    alloc: Global,
    generators: &GeneratorTable,
    set: &Props,
) -> Result<Givers, OutOfMemory>
    ensures { IfOk result (AreAll generators.now set.now) }
{
    let mut givers = TextMap::new(alloc);
    for place in 0..generators.count() {
        add_generator(alloc, &mut givers, generators, set, place)?;
    }
    Ok(givers)
}

pub(crate) fn append(places: &mut List<usize>, more: &[usize]) -> Result<(), OutOfMemory>
    ensures { OnOk result (places.new ≡ places.old ++ more.now) }
{
    for place in more {
        places.push(*place)?;
    }
    Ok(())
}

/// Moves the generators that give a type to the end of a list.
pub(crate) fn move_givers(
    alloc: Global,
    givers: &mut Givers,
    target: &Text,
    places: &mut List<usize>,
) -> Result<(), OutOfMemory>
    ensures { OnOk result (Moves (λ type. bytes_eq type target.now) givers.old givers.new places.old places.new) }
{
    let taken = take(alloc, givers, target)?;
    append(places, taken.as_slice())?;
    Ok(())
}

fn move_all(
    alloc: Global,
    givers: &mut Givers,
    targets: &[Text],
    places: &mut List<usize>,
) -> Result<(), OutOfMemory>
    ensures { OnOk result (Moves (has_text targets.now) givers.old givers.new places.old places.new) }
{
    for target in targets {
        move_givers(alloc, givers, target, places)?;
    }
    Ok(())
}

/// Takes the generators that give a type which one of a layer takes.
pub(crate) fn next_layer(
    alloc: Global,
    givers: &mut Givers,
    generators: &GeneratorTable,
    layer: &[usize],
) -> Result<List<usize>, OutOfMemory>
    ensures { IfOk result (λ next. Moves (is_taken_by generators.now layer.now) givers.old givers.new [] next) }
{
    let mut next = List::new(alloc);
    for place in layer {
        move_all(alloc, givers, sources_at(generators, *place), &mut next)?;
    }
    Ok(next)
}
