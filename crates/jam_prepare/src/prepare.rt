//! From a file and words to a plan.
ghost use Rattle.std.specs.Prelude.{◌≡◌, IfOk, IfErr};
ghost use Rattle.std.specs.Option.{IfSome};
ghost use Rattle.b2_host.specs.OutsideLaws.{Keeps};
ghost use Rattle.b2_plan.specs.Plans.{Apart};
ghost use Rattle.jam_graph.specs.Graphs.{IsReady};
ghost use Rattle.jam_graph.specs.Loading.{Counts, IsWhole};
ghost use Rattle.jam_prepare.specs.Parts.{PlansOver, GoesOn};
ghost use Rattle.jam_prepare.specs.Preparing.{IsPrepared, LinesTold};

use b2_base::path::Path;
use b2_base::text::Text;
use b2_base::text_list::TextList;
use b2_host::files::Files;
use b2_plan::plan::Plan;
use jam_effects::turns::Turns;
use jam_engine::plan::jam_plan;
use jam_graph::fault::JamFault;
use jam_graph::graph::Graph;
use jam_graph::load::{JamLoaded, jam_load};
use std::alloc::Global;
use std::mem::forget;

/// The turns that a file has.
const JAM_TURNS: u32 = 1_000_000;

/// The lines of ECHO, in order, and the plan, or why there is none.
#[derive(Drop)]
pub struct JamPrepared {
    pub echoes: TextList,
    pub result: Result<Plan, JamFault>,
}

/// The plan of targets in a graph.
fn plan_in<F: Files>(
    alloc: Global,
    graph: Graph,
    words: &[Text],
    files: &mut F,
) -> Result<Plan, JamFault>
    requires { IsReady graph }
    ensures { PlansOver graph words.now (F.outside files.old) (F.outside files.new) result }
{
    let mut declared = graph;
    let planned = jam_plan(alloc, &mut declared, words, files);
    // The graph ends with the program, and is not taken apart.
    forget(declared);
    planned
}

/// The plan of targets in what was loaded.
fn go_on<F: Files>(
    alloc: Global,
    loaded: Result<Graph, JamFault>,
    words: &[Text],
    files: &mut F,
) -> Result<Plan, JamFault>
    requires { IfOk loaded IsReady }
    ensures { GoesOn words.now loaded (F.outside files.old) (F.outside files.new) result }
{
    match loaded {
        Ok(graph) => plan_in(alloc, graph, words, files),
        Err(fault) => Err(fault),
    }
}

/// Runs a file, and plans the targets that the words name in it, or `all` where there are no words. Where the host failed, the lines
/// begin those of the whole load.
pub fn prepare_jam<F: Files>(
    alloc: Global,
    file: &Path,
    words: &[Text],
    files: &mut F,
) -> JamPrepared
    ensures told { IfSome (F.outside files.old).disk (λ disk. IsPrepared disk file.now words.now result.echoes result.result) }
    ensures lines { IfSome (F.outside files.old).disk (λ disk. LinesTold disk file.now result.echoes result.result) }
    ensures apart { IfOk result.result (λ plan. Apart plan.steps plan.roots) }
    ensures whole { IfErr result.result IsWhole }
    ensures disk { (F.outside files.new).disk ≡ (F.outside files.old).disk }
    ensures children { (F.outside files.new).children ≡ (F.outside files.old).children }
    ensures keeps { Keeps (F.outside files.old) (F.outside files.new) }
    ensures counts { Counts result.result (F.outside files.old) (F.outside files.new) }
{
    let mut turns = Turns::new(JAM_TURNS);
    let JamLoaded { echoes, result } = jam_load(alloc, files, file, &mut turns);
    let result = go_on(alloc, result, words, files);
    JamPrepared { echoes, result }
}
