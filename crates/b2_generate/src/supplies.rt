//! What the needs of a main target supply to it.
ghost use Rattle.std.specs.Prelude.{◌≡◌, ◌++◌, ◌∷◌, [], map, reverse, slice_get, option_map, IfOk, OnOk};
ghost use Rattle.std.specs.List.{list_any};
ghost use Rattle.std.specs.Option.{option_copied};
ghost use Rattle.b2_virtual.specs.Supplies.{file_entry};
ghost use Rattle.b2_generate.specs.Nodes.{entry_in};
ghost use Rattle.b2_generate.specs.Machine.{HasPlaces};
ghost use Rattle.b2_generate.specs.Supplies.{is_library, of_target, parts_of, supply_of, supplied};
ghost use Rattle.b2_generate.specs.Gathering.{test_of, named_by, Gathers};

use crate::frame::Frame;
use crate::node::Node;
use b2_alternatives::known::KnownNames;
use b2_alternatives::need::{Need, NeedKind};
use b2_base::fault::OutOfMemory;
use b2_base::list::List;
use b2_base::path::Path;
use b2_generators::types::Types;
use b2_references::meaning::Meaning;
use b2_references::name::TargetName;
use b2_virtual::entry::{EntryList, Supply, file_entry};
use std::alloc::Global;

/// Which needs are asked for.
#[derive(Clone, Copy)]
pub(crate) enum Wanted {
    /// The sources.
    Sources,
    /// The sources and the libraries.
    Parts,
    /// What is only to be there before.
    Order,
}

/// What was gathered: what is supplied, in order, and the main targets that were looked at.
#[derive(Drop)]
pub(crate) struct SuppliesSoFar {
    made: List<Supply>,
    seen: KnownNames,
}

fn wants(wanted: Wanted, way: NeedKind) -> bool
    ensures { result ≡ test_of wanted way }
{
    match wanted {
        Wanted::Sources => matches!(way, NeedKind::Source),
        Wanted::Parts => !matches!(way, NeedKind::Order),
        Wanted::Order => matches!(way, NeedKind::Order),
    }
}

fn is_library(way: NeedKind) -> bool
    ensures { result ≡ is_library way }
{
    matches!(way, NeedKind::Library)
}

/// Whether one of some needs is a library; takes no memory.
pub(crate) fn has_library(needs: &[Need]) -> bool
    ensures { result ≡ list_any (λ n. is_library n.way) needs.now }
{
    needs.iter().any(|need| is_library(need.way))
}

/// A file supplies itself.
fn add_file(
    alloc: Global,
    types: &Types,
    made: &mut List<Supply>,
    path: &Path,
) -> Result<(), OutOfMemory>
    ensures { OnOk result (made.new ≡ made.old ++ record { entries = file_entry types.now.types path.now ∷ []; carried = [] } ∷ []) }
{
    let mut entries = EntryList::new(alloc);
    entries.push(file_entry(alloc, types, path)?)?;
    made.push(Supply {
        entries,
        carried: EntryList::new(alloc),
    })
}

/// What the node at a place supplies.
fn supply_at(nodes: &[Node], place: usize) -> Option<&Supply>
    ensures { option_copied result ≡ option_map (λ n. n.supply) (slice_get nodes.now place) }
{
    match nodes.get(place) {
        Some(node) => Some(&node.supply),
        None => None,
    }
}

/// What a main target gave, where it was generated.
fn given<'a>(nodes: &'a [Node], frame: &Frame<'_>, name: &TargetName) -> Option<&'a Supply>
    requires { HasPlaces (reverse nodes.now) frame.now.done frame.now.places }
    ensures { option_copied result ≡ supply_of (map (entry_in (reverse nodes.now)) frame.now.done) name.now }
{
    match frame.places.get(name).copied() {
        None => None,
        Some(place) => supply_at(nodes, place),
    }
}

/// A main target supplies what it gave, where it is looked at for the first time.
fn add_target(
    alloc: Global,
    types: &Types,
    nodes: &[Node],
    frame: &Frame<'_>,
    gathered: &mut SuppliesSoFar,
    name: &TargetName,
) -> Result<(), OutOfMemory>
    requires { HasPlaces (reverse nodes.now) frame.now.done frame.now.places }
    ensures { OnOk result (Gathers types.now.types (map (entry_in (reverse nodes.now)) frame.now.done) (of_target name.now ∷ []) gathered.old gathered.new) }
{
    if gathered.seen.has(name) {
        return Ok(());
    }
    gathered.seen.add(name)?;
    match given(nodes, frame, name) {
        Some(supply) => gathered.made.push(supply.copy(alloc)?),
        None => Ok(()),
    }
}

fn add_targets(
    alloc: Global,
    types: &Types,
    nodes: &[Node],
    frame: &Frame<'_>,
    gathered: &mut SuppliesSoFar,
    names: &[TargetName],
) -> Result<(), OutOfMemory>
    requires { HasPlaces (reverse nodes.now) frame.now.done frame.now.places }
    ensures { OnOk result (Gathers types.now.types (map (entry_in (reverse nodes.now)) frame.now.done) (map of_target names.now) gathered.old gathered.new) }
{
    for name in names {
        add_target(alloc, types, nodes, frame, gathered, name)?;
    }
    Ok(())
}

fn add_need(
    alloc: Global,
    types: &Types,
    nodes: &[Node],
    frame: &Frame<'_>,
    gathered: &mut SuppliesSoFar,
    need: &Need,
) -> Result<(), OutOfMemory>
    requires { HasPlaces (reverse nodes.now) frame.now.done frame.now.places }
    ensures { OnOk result (Gathers types.now.types (map (entry_in (reverse nodes.now)) frame.now.done) (parts_of need.now.meaning) gathered.old gathered.new) }
{
    match &need.meaning {
        Meaning::File { path } => add_file(alloc, types, &mut gathered.made, path),
        Meaning::Targets { names } => add_targets(
            alloc,
            types,
            nodes,
            frame,
            gathered,
            names.as_slice(),
        ),
        Meaning::Nothing => Ok(()),
    }
}

/// Adds what a need supplies, where it is one of those that are asked for.
fn add_wanted(
    alloc: Global,
    types: &Types,
    nodes: &[Node],
    frame: &Frame<'_>,
    wanted: Wanted,
    gathered: &mut SuppliesSoFar,
    need: &Need,
) -> Result<(), OutOfMemory>
    requires { HasPlaces (reverse nodes.now) frame.now.done frame.now.places }
    ensures { OnOk result (Gathers types.now.types (map (entry_in (reverse nodes.now)) frame.now.done) (named_by wanted (need.now ∷ [])) gathered.old gathered.new) }
{
    if wants(wanted, need.way) {
        add_need(alloc, types, nodes, frame, gathered, need)
    } else {
        Ok(())
    }
}

fn add_needs(
    alloc: Global,
    types: &Types,
    nodes: &[Node],
    frame: &Frame<'_>,
    wanted: Wanted,
    gathered: &mut SuppliesSoFar,
    needs: &[Need],
) -> Result<(), OutOfMemory>
    requires { HasPlaces (reverse nodes.now) frame.now.done frame.now.places }
    ensures { OnOk result (Gathers types.now.types (map (entry_in (reverse nodes.now)) frame.now.done) (named_by wanted needs.now) gathered.old gathered.new) }
{
    for need in needs {
        add_wanted(alloc, types, nodes, frame, wanted, gathered, need)?;
    }
    Ok(())
}

/// What the needs of some ways supply to an open main target, in order: a file as often as it is named, a main target once.
pub(crate) fn supplied(
    alloc: Global,
    types: &Types,
    nodes: &[Node],
    frame: &Frame<'_>,
    wanted: Wanted,
) -> Result<List<Supply>, OutOfMemory>
    requires { HasPlaces (reverse nodes.now) frame.now.done frame.now.places }
    ensures { IfOk result (λ made. made ≡ supplied types.now.types (map (entry_in (reverse nodes.now)) frame.now.done) [] (named_by wanted (frame.now.needs.sources.needs ++ frame.now.needs.properties.needs))) }
{
    let mut gathered = SuppliesSoFar {
        made: List::new(alloc),
        seen: KnownNames::new(alloc),
    };
    add_needs(
        alloc,
        types,
        nodes,
        frame,
        wanted,
        &mut gathered,
        frame.needs.sources(),
    )?;
    add_needs(
        alloc,
        types,
        nodes,
        frame,
        wanted,
        &mut gathered,
        frame.needs.properties(),
    )?;
    Ok(gathered.made)
}
