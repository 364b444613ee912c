//! The graph of a file.
ghost use Rattle.std.specs.Prelude.{◌≡◌, ◌≤◌, [], Err, IfOk, IfErr};
ghost use Rattle.b2_host.specs.OutsideLaws.{Keeps};
ghost use Rattle.jam_grammar.specs.Trees.{whole_tree};
ghost use Rattle.jam_effects.specs.Causes.{HoldsNoMemory};
ghost use Rattle.jam_meaning.specs.Settings.{is_file};
ghost use Rattle.jam_values.specs.FileReadings.{reading_of};
ghost use Rattle.jam_graph.specs.Graphs.{IsReady};
ghost use Rattle.jam_graph.specs.Loading.{TellsGraph, TellsReading, IsGraphOf, EndsSo, LoadsFile, LoadsReading, Leaves, Counts, IsWhole, of_eval, of_lex, of_io};

use crate::declaring::graph_of;
use crate::fault::JamFault;
use crate::graph::Graph;
use crate::natives::GraphNatives;
use crate::ready::is_ready;
use b2_base::fault::OutOfMemory;
use b2_base::path::Path;
use b2_base::text_list::{TextList, copy_texts};
use b2_host::fault::IoFault;
use b2_host::files::Files;
use jam_effects::fault::EvalFault;
use jam_effects::turns::Turns;
use jam_grammar::tree::Tree;
use jam_interp::run::run;
use jam_lexer::fault::LexFault;
use jam_parser::fault::SyntaxFault;
use jam_scope::world::World;
use jam_values::files::{FileReading, read_file};
use std::alloc::Global;

/// The lines of ECHO, in order, and the graph or why there is none.
#[derive(Drop)]
pub struct JamLoaded {
    pub echoes: TextList,
    pub result: Result<Graph, JamFault>,
}

/// A file has no graph, and nothing ran.
fn refused(alloc: Global, fault: JamFault) -> JamLoaded
    ensures echoes { result.echoes ≡ [] }
    ensures result { result.result ≡ Err fault }
{
    JamLoaded {
        echoes: TextList::new(alloc),
        result: Err(fault),
    }
}

/// The fault of a graph whose file did not run to its end.
fn eval_fault(fault: EvalFault) -> JamFault
    ensures { result ≡ of_eval fault }
{
    match fault {
        EvalFault::Host => JamFault::Host,
        EvalFault::OutOfMemory => JamFault::OutOfMemory,
        EvalFault::At { path, line, cause } => JamFault::Eval(EvalFault::At { path, line, cause }),
    }
}

/// The graph of what was recorded, where it can be planned. It always can where files are visible: a call is recorded with
/// actions that stand, and these never go away.
fn ready_graph(
    alloc: Global,
    path: &Path,
    world: World,
    natives: &GraphNatives,
) -> Result<Graph, OutOfMemory>
    requires { world.now.scopes.frames ≡ [] }
    ensures graph { IfOk result (IsGraphOf path.now world natives.now) }
    ensures ready { IfOk result IsReady }
{
    let graph = graph_of(alloc, path, world, natives.said())?;
    if is_ready(&graph) {
        Ok(graph)
    } else {
        Err(OutOfMemory)
    }
}

/// What a file that ran so leads to.
fn ended_graph(
    alloc: Global,
    path: &Path,
    world: World,
    natives: &GraphNatives,
    ended: Result<(), EvalFault>,
) -> Result<Graph, JamFault>
    requires frames { world.now.scopes.frames ≡ [] }
    requires whole { IfErr ended HoldsNoMemory }
    ensures ends { EndsSo path.now world natives.now ended result }
    ensures ready { IfOk result IsReady }
    ensures whole { IfErr result IsWhole }
{
    match ended {
        Ok(()) => Ok(ready_graph(alloc, path, world, natives)?),
        Err(fault) => Err(eval_fault(fault)),
    }
}

/// Runs statements in a new world, and tells what was recorded.
fn run_tree<F: Files>(
    alloc: Global,
    files: &mut F,
    path: &Path,
    turns: &mut Turns,
    tree: &Tree,
) -> Result<JamLoaded, OutOfMemory>
    ensures told { IfOk result (λ loaded. TellsReading (is_file (whole_tree tree.now)) (F.outside files.old) path.now turns.old turns.new loaded.echoes loaded.result) }
    ensures ready { IfOk result (λ loaded. IfOk loaded.result IsReady) }
    ensures whole { IfOk result (λ loaded. IfErr loaded.result IsWhole) }
    ensures leaves { Leaves (F.outside files.old) (F.outside files.new) turns.old turns.new }
    ensures counts { IfOk result (λ loaded. Counts loaded.result (F.outside files.old) (F.outside files.new)) }
{
    let mut world = World::new(alloc)?;
    let mut natives = GraphNatives::new(alloc);
    let ended = run(alloc, &mut world, path, tree, turns, &mut natives, files);
    let echoes = copy_texts(alloc, natives.echoes())?;
    let result = ended_graph(alloc, path, world, &natives, ended);
    Ok(JamLoaded { echoes, result })
}

/// The fault of a file that has no statements.
fn lex_fault(path: Path, fault: LexFault) -> JamFault
    ensures { result ≡ of_lex path fault }
{
    match fault {
        LexFault::OutOfMemory => JamFault::OutOfMemory,
        fault => JamFault::Lex { path, fault },
    }
}

/// What comes of a file that reads so.
fn load_reading<F: Files>(
    alloc: Global,
    files: &mut F,
    path: &Path,
    turns: &mut Turns,
    reading: FileReading,
) -> Result<JamLoaded, OutOfMemory>
    ensures told { IfOk result (λ loaded. TellsReading (reading_of reading) (F.outside files.old) path.now turns.old turns.new loaded.echoes loaded.result) }
    ensures ready { IfOk result (λ loaded. IfOk loaded.result IsReady) }
    ensures whole { IfOk result (λ loaded. IfErr loaded.result IsWhole) }
    ensures leaves { Leaves (F.outside files.old) (F.outside files.new) turns.old turns.new }
    ensures counts { IfOk result (λ loaded. Counts loaded.result (F.outside files.old) (F.outside files.new)) }
{
    let path_here = path.copy()?;
    match reading {
        FileReading::Missing => Ok(refused(alloc, JamFault::NoFile { path: path_here })),
        FileReading::TooBig { size } => Ok(refused(
            alloc,
            JamFault::TooBig {
                path: path_here,
                size,
            },
        )),
        FileReading::NoTokens(fault) => Ok(refused(alloc, lex_fault(path_here, fault))),
        FileReading::NoTree { line, found } => Ok(refused(
            alloc,
            JamFault::Syntax {
                path: path_here,
                fault: SyntaxFault::At { line, found },
            },
        )),
        FileReading::File(tree) => run_tree(alloc, files, path, turns, &tree),
    }
}

/// What comes of a file that reads so, or out of memory.
fn load_found<F: Files>(
    alloc: Global,
    files: &mut F,
    path: &Path,
    turns: &mut Turns,
    reading: FileReading,
) -> JamLoaded
    ensures { LoadsReading (reading_of reading) (F.outside files.old) (F.outside files.new) path.now turns.old turns.new result }
{
    match load_reading(alloc, files, path, turns, reading) {
        Ok(loaded) => loaded,
        Err(_) => refused(alloc, JamFault::OutOfMemory),
    }
}

/// A file was not read.
fn unread(alloc: Global, fault: IoFault) -> JamLoaded
    ensures echoes { result.echoes ≡ [] }
    ensures result { result.result ≡ Err (of_io fault) }
{
    match fault {
        IoFault::Failed => refused(alloc, JamFault::Host),
        IoFault::OutOfMemory => refused(alloc, JamFault::OutOfMemory),
    }
}

/// Reads a file and runs it.
fn load_file<F: Files>(alloc: Global, files: &mut F, path: &Path, turns: &mut Turns) -> JamLoaded
    ensures { LoadsFile (F.outside files.old) (F.outside files.new) path.now turns.old turns.new result }
{
    match read_file(alloc, files, path) {
        Ok(reading) => load_found(alloc, files, path, turns, reading),
        Err(fault) => unread(alloc, fault),
    }
}

/// Runs a file in the global module of a new world, and makes the graph of the calls in it that declare a part of one. It is
/// read wherever it lies: output roots hide files from globs and includes alone.
///
/// `NoFile` comes exactly where no file stands at the path; then `TooBig`, `Lex`, `Syntax` and `Eval`, in this order. The lines of
/// ECHO are those up to the fault. Where the host failed they begin these lines, and where memory ran out there is none. A fault of
/// the host comes only where the count of its faults rose. A graph that is answered can be planned.
pub fn jam_load<F: Files>(alloc: Global, files: &mut F, path: &Path, turns: &mut Turns) -> JamLoaded
    ensures told { TellsGraph (F.outside files.old) path.now turns.old turns.new result.echoes result.result }
    ensures ready { IfOk result.result IsReady }
    ensures whole { IfErr result.result IsWhole }
    ensures turns { turns.new.left ≤ turns.old.left }
    ensures budget { turns.new.budget ≡ turns.old.budget }
    ensures disk { (F.outside files.new).disk ≡ (F.outside files.old).disk }
    ensures children { (F.outside files.new).children ≡ (F.outside files.old).children }
    ensures keeps { Keeps (F.outside files.old) (F.outside files.new) }
    ensures counts { Counts result.result (F.outside files.old) (F.outside files.new) }
{
    load_file(alloc, files, path, turns)
}
