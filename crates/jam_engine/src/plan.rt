//! The plan of requested targets.
ghost use Rattle.std.specs.Prelude.{◌≡◌, ℕ, Bool, List, None, not, IfOk, IfErr, IsErrOf};
ghost use Rattle.std.specs.List.{find};
ghost use Rattle.std.specs.Option.{option_copied};
ghost use Rattle.b2_host.specs.OutsideLaws.{Keeps};
ghost use Rattle.b2_plan.specs.Plans.{Apart};
ghost use Rattle.jam_graph.specs.Graphs.{IsReady};
ghost use Rattle.jam_graph.specs.Loading.{Counts, IsWhole};
ghost use Rattle.jam_engine.specs.Tables.{is_in, IsIndexOf, IsScene};
ghost use Rattle.jam_engine.specs.Plans.{requested, unknown};
ghost use Rattle.jam_engine.specs.Targets.{roots};
ghost use Rattle.jam_engine.specs.Planning.{IsPlannedOf, IsPlannedBy, HasNoTarget};

use crate::index::Index;
use crate::joining::acts_of;
use crate::links::sets_of;
use crate::looking::scene_of;
use crate::scene::Scene;
use crate::spread::spread;
use crate::steps::steps_of;
use b2_base::fault::OutOfMemory;
use b2_base::path_list::copy_paths;
use b2_base::text::Text;
use b2_base::text_list::{TextList, copy_texts};
use b2_host::files::Files;
use b2_plan::plan::Plan;
use jam_graph::fault::JamFault;
use jam_graph::graph::Graph;
use std::alloc::Global;

/// The targets that words ask for.
fn requested(alloc: Global, words: &[Text]) -> Result<TextList, OutOfMemory>
    ensures { IfOk result (λ targets. targets ≡ requested words.now) }
{
    if !words.is_empty() {
        return copy_texts(alloc, words);
    }
    let mut targets = TextList::new(alloc);
    targets.push(Text::new(alloc, "all")?)?;
    Ok(targets)
}

/// The first text that is no target. Takes no memory.
fn unknown<'a>(index: &Index, targets: &'a [Text]) -> Option<&'a Text>
    ensures { option_copied result ≡ find (λ target. not (is_in index.now.targets target)) targets.now }
{
    for target in targets {
        if !index.is_target(target) {
            return Some(target);
        }
    }
    None
}

/// The look-ups of a graph in which each text is a target.
fn index_for(alloc: Global, graph: &Graph, targets: &[Text]) -> Result<Index, JamFault>
    ensures index { IfOk result (IsIndexOf graph.now) }
    ensures known { HasNoTarget graph.now targets.now result }
{
    let index = Index::new(alloc, graph)?;
    if let Some(name) = unknown(&index, targets) {
        return Err(JamFault::NoTarget { name: name.copy()? });
    }
    Ok(index)
}

/// The plan of some targets in a graph, by what is found of its texts.
fn plan_of(
    alloc: Global,
    graph: &mut Graph,
    scene: &Scene,
    targets: &[Text],
) -> Result<Plan, JamFault>
    requires ready { IsReady graph.old }
    requires index { IsIndexOf graph.old scene.now.index }
    requires roots { scene.now.roots ≡ roots graph.old }
    requires known { unknown graph.old targets.now ≡ None }
    ensures same { graph.new ≡ graph.old }
    ensures plan { (stands : List ℕ → Bool) → IsScene graph.old stands scene.now → IsPlannedOf graph.old stands targets.now result }
    ensures apart { IfOk result (λ plan. Apart plan.steps plan.roots) }
    ensures no_host { ¬ IsErrOf result JamFault.Host }
    ensures whole { IfErr result IsWhole }
{
    let owned = acts_of(alloc, graph, scene)?;
    let acts = owned.as_slice();
    let sets = sets_of(alloc, acts)?;
    let builder = steps_of(alloc, graph, scene, acts, &sets)?;
    let wanted = spread(alloc, graph, scene, targets)?;
    let roots = copy_paths(alloc, scene.roots.as_slice())?;
    Ok(Plan::new(alloc, builder.into_steps(), wanted, roots)?)
}

/// The plan of the requested targets in a graph, or of `all` where there are none. The graph is as before. All calls of the host are
/// made before a step is: for the directories of SEARCH, and for targets that may be missing and sources of actions with `existing`
/// which lie below no root.
///
/// `NoTarget` comes exactly where a word is no target; then, for each step, `TooManySteps`, `MixedNotFile`, `Eval` of a body,
/// `LocationOutside` and `PathClash`, in this order.
pub fn jam_plan<F: Files>(
    alloc: Global,
    graph: &mut Graph,
    targets: &[Text],
    files: &mut F,
) -> Result<Plan, JamFault>
    requires { IsReady graph.old }
    ensures planned { IsPlannedBy (F.outside files.old).disk graph.old targets.now result }
    ensures same { graph.new ≡ graph.old }
    ensures apart { IfOk result (λ plan. Apart plan.steps plan.roots) }
    ensures whole { IfErr result IsWhole }
    ensures disk { (F.outside files.new).disk ≡ (F.outside files.old).disk }
    ensures children { (F.outside files.new).children ≡ (F.outside files.old).children }
    ensures keeps { Keeps (F.outside files.old) (F.outside files.new) }
    ensures counts { Counts result (F.outside files.old) (F.outside files.new) }
{
    let owned = requested(alloc, targets)?;
    let names = owned.as_slice();
    let index = index_for(alloc, graph, names)?;
    let scene = scene_of(alloc, files, graph, index, names)?;
    plan_of(alloc, graph, &scene, names)
}
