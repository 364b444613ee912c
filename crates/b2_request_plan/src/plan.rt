//! The plan of a request.
ghost use Rattle.std.specs.Prelude.{◌≡◌, ◌++◌, [], codes, map, reverse, IfOk, IfErr, OnOk};
ghost use Rattle.std.specs.List.{Contains, flat_map};
ghost use Rattle.std.specs.FinMap as finite;
ghost use Rattle.b2_plan.specs.Plans.{Apart};
ghost use Rattle.b2_virtual.specs.Clashes.{AreInRoots};
ghost use Rattle.b2_declared.specs.Numbered.{IsNumbered};
ghost use Rattle.b2_generate.specs.Answers.{HaveSets};
ghost use Rattle.b2_generate.specs.Planning.{first_rows, line};
ghost use Rattle.b2_generate.specs.Places.{rows_at};
ghost use Rattle.b2_request_plan.specs.TableRows.{lines_of, rows_of};
ghost use Rattle.b2_generate.specs.Wholes.{IsWhole};
ghost use Rattle.b2_request_plan.specs.Plans.{seen, planned_at, wanted_at, IsPlanOf, IsResultOf, AnswersPieces, AnswersEach, AnswersRequest};
ghost use Rattle.b2_generate.specs.ToldOutcomes.{Leaves};

use crate::planned::{Built, Planned};
use crate::table::table_of;
use b2_alternatives::asker::Asker;
use b2_base::fault::OutOfMemory;
use b2_base::list::List;
use b2_base::path::Path;
use b2_base::path_list::{PathList, copy_paths};
use b2_base::text::Text;
use b2_declared::whole::Declared;
use b2_evaluator::evaluate::Evaluate;
use b2_generate::completing::Nodes;
use b2_generate::fault::GenFault;
use b2_generate::generation::Generation;
use b2_generate::making::push_paths;
use b2_generate::node::Node;
use b2_generate::pieces::give_all;
use b2_plan::plan::Plan;
use b2_props::request::Request;
use b2_references::asked::AskedList;
use b2_references::index::Index;
use b2_references::name::TargetName;
use b2_references::requests::asked;
use b2_virtual::builder::Builder;
use std::alloc::Global;

/// What is planned for a request, or why it has no plan; and who was asked for the project's own text.
#[derive(Drop)]
pub struct PlanAnswer<E: Evaluate + Drop> {
    pub evaluator: E,
    pub result: Result<Planned, GenFault<E::Fault>>,
}

/// Adds the paths of the files that the node at a place gives.
fn push_wanted(wanted: &mut PathList, nodes: &[Node], place: usize) -> Result<(), OutOfMemory>
    ensures { OnOk result (wanted.new ≡ wanted.old ++ wanted_at (reverse nodes.now) place) }
{
    match nodes.get(place) {
        None => Ok(()),
        Some(node) => push_paths(wanted, node.supply.entries.as_slice()),
    }
}

/// The paths of the files that the nodes at some places give, as often as they are given.
fn wanted_of(alloc: Global, nodes: &[Node], places: &[usize]) -> Result<PathList, OutOfMemory>
    ensures { IfOk result (λ made. made ≡ flat_map (wanted_at (reverse nodes.now)) places.now) }
{
    let mut wanted = PathList::new(alloc);
    for place in places {
        push_wanted(&mut wanted, nodes, *place)?;
    }
    Ok(wanted)
}

/// What a plan has beside its steps, and its table.
#[derive(Drop)]
struct PlanParts {
    wanted: PathList,
    table: List<Built>,
    roots: PathList,
}

/// What the plan of what was generated at some places has beside its steps, and its table.
fn parts_of(
    alloc: Global,
    index: &Index<'_>,
    roots: &[Path],
    nodes: &[Node],
    places: &[usize],
) -> Result<PlanParts, OutOfMemory>
    ensures wanted { IfOk result (λ made. made.wanted ≡ flat_map (wanted_at (reverse nodes.now)) places.now) }
    ensures table { IfOk result (λ made. lines_of made.table ≡ map (line index.now) (first_rows (flat_map (rows_at (reverse nodes.now)) places.now))) }
    ensures rows { IfOk result (λ made. rows_of made.table ≡ first_rows (flat_map (rows_at (reverse nodes.now)) places.now)) }
    ensures roots { IfOk result (λ made. made.roots ≡ roots.now) }
{
    let wanted = wanted_of(alloc, nodes, places)?;
    let table = table_of(alloc, index, nodes, places)?;
    let roots = copy_paths(alloc, roots)?;
    Ok(PlanParts {
        wanted,
        table,
        roots,
    })
}

/// The plan of what was generated at some places, with its table.
fn planned(
    alloc: Global,
    index: &Index<'_>,
    roots: &[Path],
    nodes: &[Node],
    builder: Builder,
    places: &[usize],
) -> Result<Planned, OutOfMemory>
    requires { AreInRoots builder roots.now }
    ensures seen { IfOk result (λ p. seen p ≡ planned_at index.now roots.now (reverse nodes.now) places.now builder) }
    ensures apart { IfOk result (λ p. Apart p.plan.steps p.plan.roots) }
{
    let made = parts_of(alloc, index, roots, nodes, places)?;
    let PlanParts {
        wanted,
        table,
        roots,
    } = made;
    let plan = Plan::new(alloc, builder.into_steps(), wanted, roots)?;
    Ok(Planned { plan, table })
}

/// The plan of what was generated, or the fault why it was not, in which out of memory is one fault.
fn result_of<F: Drop>(
    alloc: Global,
    index: &Index<'_>,
    roots: &[Path],
    nodes: &[Node],
    builder: Builder,
    given: Result<List<usize>, GenFault<F>>,
) -> Result<Planned, GenFault<F>>
    requires { AreInRoots builder roots.now }
    ensures { IsResultOf index.now roots.now (reverse nodes.now) builder given result }
{
    match given {
        Ok(places) => Ok(planned(alloc, index, roots, nodes, builder, places.as_slice())?),
        Err(fault) => Err(fault.whole()),
    }
}

/// Nothing is generated so far; takes no memory.
fn begun<'a, E: Evaluate + Drop>(
    alloc: Global,
    index: &'a Index<'a>,
    roots: &'a [Path],
    evaluator: E,
) -> Generation<'a, E>
    ensures project { result.asker.index.now ≡ index.now }
    ensures roots { result.roots.now ≡ roots.now }
    ensures evaluator { result.asker.evaluator ≡ evaluator }
    ensures steps { result.builder ≡ [] }
    ensures nodes { result.nodes.list.items ≡ [] }
    ensures firsts { result.nodes.firsts ≡ finite.empty }
{
    Generation {
        roots,
        asker: Asker {
            alloc,
            index,
            name: TargetName::new(0, Text::from_string(String::new(alloc))),
            evaluator,
        },
        builder: Builder::new(alloc),
        nodes: Nodes::new(alloc),
    }
}

/// The answer for the pieces of a request.
fn for_pieces<'a, E: Evaluate + Drop>(
    alloc: Global,
    index: &'a Index<'a>,
    roots: &'a [Path],
    pieces: AskedList,
    evaluator: E,
) -> PlanAnswer<E>
    requires numbered { IsNumbered index.now }
    requires bin { Contains roots.now (codes "bin") }
    ensures { AnswersPieces E.answers E.kept E.faults E.is_host_fault E.is_out_of_memory E.CanFault index.now roots.now pieces evaluator result }
{
    let mut generation = begun(alloc, index, roots, evaluator);
    let given = give_all(&mut generation, pieces);
    let Generation {
        asker,
        builder,
        nodes,
        ..
    } = generation;
    let result = result_of(alloc, index, roots, nodes.list.as_slice(), builder, given);
    PlanAnswer {
        evaluator: asker.evaluator,
        result,
    }
}

/// No memory was left, whatever the request.
fn no_memory<E: Evaluate + Drop>(evaluator: E) -> PlanAnswer<E>
    ensures { AnswersEach E.answers E.kept E.faults E.is_host_fault E.is_out_of_memory E.CanFault evaluator result }
{
    PlanAnswer {
        evaluator,
        result: Err(GenFault::OutOfMemory),
    }
}

/// The answer for a request, over what is declared with its look-ups.
fn over_index<'a, E: Evaluate + Drop>(
    alloc: Global,
    index: &'a Index<'a>,
    roots: &'a [Path],
    request: &Request,
    evaluator: E,
) -> PlanAnswer<E>
    requires numbered { IsNumbered index.now }
    requires bin { Contains roots.now (codes "bin") }
    ensures { AnswersRequest E.answers E.kept E.faults E.is_host_fault E.is_out_of_memory E.CanFault index.now roots.now request.now evaluator result }
{
    match asked(
        alloc,
        index,
        request.sets.as_slice(),
        request.targets.as_slice(),
    ) {
        Ok(pieces) => for_pieces(alloc, index, roots, pieces, evaluator),
        Err(_) => no_memory(evaluator),
    }
}

/// Plans a request: what it asks for is generated piece by piece. Its steps stand in the plan once each, in order of generation; the
/// wanted files are those of the pieces, in order. The properties of each line of the table are a set. The first refusal is the
/// answer.
///
/// `declared` is what loading found, and `bin` stands among the output roots. The evaluator is handed back as it was, but for the
/// count of the host's faults. Out of memory is one fault, whichever crate ran out of it.
pub fn plan<E: Evaluate + Drop>(
    alloc: Global,
    declared: &Declared,
    roots: &[Path],
    request: &Request,
    evaluator: E,
) -> PlanAnswer<E>
    requires numbered { IsNumbered declared.now }
    requires bin { Contains roots.now (codes "bin") }
    ensures told { IsPlanOf E.answers E.is_host_fault E.is_out_of_memory declared.now roots.now request.now evaluator result.result }
    ensures apart { IfOk result.result (λ p. Apart p.plan.steps p.plan.roots) }
    ensures roots { IfOk result.result (λ p. p.plan.roots ≡ roots.now) }
    ensures sets { IfOk result.result (λ p. HaveSets declared.now (rows_of p.table)) }
    ensures leaves { Leaves E.answers E.kept E.faults E.is_host_fault E.is_out_of_memory E.CanFault evaluator result.evaluator result.result }
    ensures whole { IfErr result.result IsWhole }
{
    match Index::new(alloc, declared) {
        Ok(index) => over_index(alloc, &index, roots, request, evaluator),
        Err(_) => no_memory(evaluator),
    }
}
