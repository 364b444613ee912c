//! What an open main target gives, once nothing more is due.
ghost use Rattle.std.specs.Prelude.{◌≡◌, ◌++◌, ◌||◌, [], map, reverse, IfOk, OnOk};
ghost use Rattle.std.specs.List.{list_any};
ghost use Rattle.b2_props.specs.Sets.{IsSet};
ghost use Rattle.b2_props.specs.Refinement.{refined};
ghost use Rattle.b2_references.specs.Names.{dir_of, features};
ghost use Rattle.b2_alternatives.specs.Usage.{own_usage, passed_usage};
ghost use Rattle.b2_making.specs.Answers.{Grows};
ghost use Rattle.b2_virtual.specs.Supplies.{entries_of, header_directories};
ghost use Rattle.b2_generate.specs.Gathering.{supplied_to};
ghost use Rattle.b2_generate.specs.Supplies.{is_library};
ghost use Rattle.b2_generate.specs.Machine.{IsKept, HasPlaces, standing_of};
ghost use Rattle.b2_generate.specs.declared.supplies.Wanted.TheVariants.{Order};
ghost use Rattle.b2_generate.specs.Making.{AreSupplied, IsApart, IsHome, sources_in, chosen_of, StepsAreMade, IsFinished, IsUnfinished};
ghost use Rattle.b2_generate.specs.ToldOutcomes.{Leaves};

use crate::fault::GenFault;
use crate::frame::Frame;
use crate::node::Node;
use crate::supplies::{Wanted, has_library, supplied};
use b2_alternatives::usage::{own_usage, passed_usage};
use b2_base::fault::OutOfMemory;
use b2_base::list::List;
use b2_base::path::Path;
use b2_base::path_list::PathList;
use b2_base::text::Text;
use b2_declared::whole::Declared;
use b2_evaluator::evaluate::Evaluate;
use b2_generators::types::Types;
use b2_making::make::make;
use b2_making::setting::Setting;
use b2_making::site::Site;
use b2_props::pair_list::PairList;
use b2_props::props::Props;
use b2_props::refinement::refine;
use b2_references::index::Index;
use b2_virtual::builder::Builder;
use b2_virtual::entry::{Entry, Supply};
use b2_virtual::supplies::{entries_of, header_directories};
use std::alloc::Global;

/// What is supplied to a main target, and the final set of its properties.
#[derive(Drop)]
struct TargetInput {
    /// What the sources supply, where that is not what all parts do.
    apart: Option<List<Supply>>,
    parts: List<Supply>,
    order: PathList,
    set: Props,
}

impl TargetInput {
    /// What the sources supply; takes no memory.
    fn sources(&self) -> &[Supply]
        ensures { result.now ≡ sources_in self.now }
    {
        match &self.apart {
            Some(sources) => sources.as_slice(),
            None => self.parts.as_slice(),
        }
    }
}

/// What a main target gives: the final set of its properties, its files and carried libraries, and its usage requirements.
#[derive(Drop)]
pub(crate) struct TargetOutput {
    pub(crate) set: Props,
    pub(crate) supply: Supply,
    pub(crate) usage: PairList,
}

/// The project of a main target, as its steps take it: its directory, its module and its file.
#[derive(Drop)]
struct Home<'a> {
    dir: &'a Path,
    owner: &'a Text,
    file: &'a Path,
}

/// The project of a main target with its directory. One that is not there has no module, and its directory stands for its file.
fn home_of<'a>(declared: &'a Declared, project: usize, dir: &'a Path, empty: &'a Text) -> Home<'a>
    requires dir { dir.now ≡ dir_of declared.now project }
    requires empty { empty.now ≡ [] }
    ensures { IsHome declared.now project result }
{
    match declared.places.as_slice().get(project) {
        Some(place) => Home {
            dir,
            owner: &place.module,
            file: &place.file,
        },
        None => Home {
            dir,
            owner: empty,
            file: dir,
        },
    }
}

/// The empty text; takes no memory.
fn empty_text(alloc: Global) -> Text
    ensures { result ≡ [] }
{
    Text::from_string(String::new(alloc))
}

/// Adds the paths of some files.
pub fn push_paths(paths: &mut PathList, entries: &[Entry]) -> Result<(), OutOfMemory>
    ensures { OnOk result (paths.new ≡ paths.old ++ map (λ e. e.path) entries.now) }
{
    for entry in entries {
        paths.push(entry.path.copy()?)?;
    }
    Ok(())
}

/// The directories of the headers that were made for a main target.
fn directories_of(alloc: Global, parts: &[Supply]) -> Result<PairList, OutOfMemory>
    ensures { IfOk result (λ made. made ≡ header_directories (entries_of parts.now)) }
{
    let mut made = PairList::new(alloc);
    for part in parts {
        made.append(header_directories(alloc, part.entries.as_slice())?)?;
    }
    Ok(made)
}

/// A set refined by required pairs. It stays as it is where there are none.
fn refined_set(
    alloc: Global,
    index: &Index<'_>,
    set: &Props,
    required: &[(Text, Text)],
) -> Result<Props, OutOfMemory>
    requires { IsSet (features index.now) set.now }
    ensures value { IfOk result (λ made. made ≡ refined (features index.now) set.now required.now) }
    ensures set { IfOk result (IsSet (features index.now)) }
{
    if required.is_empty() {
        return set.copy(alloc);
    }
    refine(alloc, &index.declared().registry, set, required)
}

/// The set of a main target with the directories of the headers that were made for it.
fn final_set(
    alloc: Global,
    index: &Index<'_>,
    set: &Props,
    parts: &[Supply],
) -> Result<Props, OutOfMemory>
    requires { IsSet (features index.now) set.now }
    ensures value { IfOk result (λ made. made ≡ refined (features index.now) set.now (header_directories (entries_of parts.now))) }
    ensures set { IfOk result (IsSet (features index.now)) }
{
    let directories = directories_of(alloc, parts)?;
    refined_set(alloc, index, set, directories.as_slice())
}

/// The paths of what is to be there before each step of an open main target.
fn order_of(
    alloc: Global,
    types: &Types,
    nodes: &[Node],
    frame: &Frame<'_>,
) -> Result<PathList, OutOfMemory>
    requires { HasPlaces (reverse nodes.now) frame.now.done frame.now.places }
    ensures { IfOk result (λ made. made ≡ map (λ e. e.path) (entries_of (supplied_to types.now.types (reverse nodes.now) frame.now Order))) }
{
    let order = supplied(alloc, types, nodes, frame, Wanted::Order)?;
    let entries = entries_of(alloc, order.as_slice())?;
    let mut paths = PathList::new(alloc);
    push_paths(&mut paths, entries.as_slice())?;
    Ok(paths)
}

/// Whether an open main target needs a library; takes no memory.
fn needs_library(frame: &Frame<'_>) -> bool
    ensures { result ≡ (list_any (λ n. is_library n.way) frame.now.needs.sources.needs || list_any (λ n. is_library n.way) frame.now.needs.properties.needs) }
{
    has_library(frame.needs.sources()) || has_library(frame.needs.properties())
}

/// What the sources supply to an open main target, where a library is needed; else it is what all parts do.
fn supplied_apart(
    alloc: Global,
    types: &Types,
    nodes: &[Node],
    frame: &Frame<'_>,
) -> Result<Option<List<Supply>>, OutOfMemory>
    requires { HasPlaces (reverse nodes.now) frame.now.done frame.now.places }
    ensures { IfOk result (IsApart (supplied_to types.now.types (reverse nodes.now) frame.now)) }
{
    if needs_library(frame) {
        Ok(Some(supplied(alloc, types, nodes, frame, Wanted::Sources)?))
    } else {
        Ok(None)
    }
}

/// What the needs of an open main target supply to it.
fn supplies_of(
    alloc: Global,
    index: &Index<'_>,
    nodes: &[Node],
    frame: &Frame<'_>,
) -> Result<TargetInput, OutOfMemory>
    requires { IsKept (reverse nodes.now) index.now frame.now }
    ensures { IfOk result (AreSupplied index.now (chosen_of frame.now) (standing_of (reverse nodes.now) frame.now)) }
{
    let types = &index.declared().types;
    let apart = supplied_apart(alloc, types, nodes, frame)?;
    let parts = supplied(alloc, types, nodes, frame, Wanted::Parts)?;
    let order = order_of(alloc, types, nodes, frame)?;
    let set = final_set(alloc, index, frame.needs.set(), parts.as_slice())?;
    Ok(TargetInput {
        apart,
        parts,
        order,
        set,
    })
}

/// The usage requirements of a main target, by its final set.
fn usage_of(
    alloc: Global,
    index: &Index<'_>,
    frame: &Frame<'_>,
    set: &Props,
) -> Result<PairList, OutOfMemory>
    ensures { IfOk result (λ made. made ≡ own_usage index.now frame.now.chosen.target.now set.now ++ passed_usage frame.now.chosen.target.now.kind frame.now.needs.usage) }
{
    let target = frame.chosen.target;
    let mut made = own_usage(alloc, index, target, set)?;
    made.append(passed_usage(alloc, target.kind, frame.needs.usage())?)?;
    Ok(made)
}

/// Makes the steps of a main target, by what is supplied to it.
#[tactic(none)]
fn steps_of<E: Evaluate>(
    alloc: Global,
    index: &Index<'_>,
    roots: &[Path],
    nodes: &[Node],
    frame: &Frame<'_>,
    supplied: &TargetInput,
    evaluator: &mut E,
    builder: &mut Builder,
) -> Result<Supply, GenFault<E::Fault>>
    requires { AreSupplied index.now (chosen_of frame.now) (standing_of (reverse nodes.now) frame.now) supplied.now }
    ensures made { StepsAreMade E.Evaluate index.now roots.now (reverse nodes.now) frame.now evaluator.old builder.old builder.new result }
    ensures refused { IsUnfinished E.Evaluate index.now roots.now (reverse nodes.now) frame.now evaluator.old builder.old result }
    ensures grows { Grows roots.now builder.old builder.new }
    ensures leaves { Leaves E.answers E.kept E.faults E.is_host_fault E.is_out_of_memory E.CanFault evaluator.old evaluator.new result }
{
    let declared = index.declared();
    let target = frame.chosen.target;
    let dir = index.dir_of(target.project)?;
    let empty = empty_text(alloc);
    let home = home_of(declared, target.project, &dir, &empty);
    let setting = Setting {
        alloc,
        registry: &declared.registry,
        types: &declared.types,
        roots,
    };
    let site = Site {
        kind: target.kind,
        name: &target.name,
        rule: &target.rule,
        line: target.line,
        dir: home.dir,
        owner: home.owner,
        file: home.file,
        set: &supplied.set,
        sources: supplied.sources(),
        parts: supplied.parts.as_slice(),
        order: supplied.order.as_slice(),
    };
    match make(&setting, &site, evaluator, builder) {
        Ok(supply) => Ok(supply),
        Err(fault) => Err(GenFault::NotMade(fault)),
    }
}

/// What an open main target gives, once nothing more is due: its steps are made, and join those before.
#[tactic(none)]
pub(crate) fn finish<E: Evaluate>(
    alloc: Global,
    index: &Index<'_>,
    roots: &[Path],
    nodes: &[Node],
    frame: &Frame<'_>,
    evaluator: &mut E,
    builder: &mut Builder,
) -> Result<TargetOutput, GenFault<E::Fault>>
    requires { IsKept (reverse nodes.now) index.now frame.now }
    ensures made { IsFinished E.Evaluate index.now roots.now (reverse nodes.now) frame.now evaluator.old builder.old builder.new result }
    ensures refused { IsUnfinished E.Evaluate index.now roots.now (reverse nodes.now) frame.now evaluator.old builder.old result }
    ensures set { IfOk result (λ made. IsSet (features index.now) made.set) }
    ensures grows { Grows roots.now builder.old builder.new }
    ensures leaves { Leaves E.answers E.kept E.faults E.is_host_fault E.is_out_of_memory E.CanFault evaluator.old evaluator.new result }
{
    let supplied = supplies_of(alloc, index, nodes, frame)?;
    let supply = steps_of(
        alloc, index, roots, nodes, frame, &supplied, evaluator, builder,
    )?;
    let usage = usage_of(alloc, index, frame, &supplied.set)?;
    Ok(TargetOutput {
        set: supplied.set,
        supply,
        usage,
    })
}
