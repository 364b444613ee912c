//! The steps of sets of acts.
ghost use Rattle.std.specs.Prelude.{◌≡◌, ◌≢◌, ◌<◌, ◌++◌, [], true, All, None, length, map, not, IfOk, IfErr, IsErrOf, OnOk};
ghost use Rattle.std.specs.List.{AllByRecursion, flat_map, list_any, list_all, find};
ghost use Rattle.std.specs.Option.{option_copied};
ghost use Rattle.b2_plan.specs.Sources.{IsInRoots};
ghost use Rattle.b2_base.specs.Segments.{normal_of};
ghost use Rattle.jam_natives.specs.SeenTexts.{HasSeen};
ghost use Rattle.jam_natives.specs.Texts.{add_new, without_repeats};
ghost use Rattle.jam_graph.specs.Graphs.{IsReady};
ghost use Rattle.jam_graph.specs.Loading.{IsWhole};
ghost use Rattle.jam_engine.specs.Acts.{acts_at, is_quiet_in};
ghost use Rattle.jam_engine.specs.Tables.{is_in, IsIndexOf};
ghost use Rattle.jam_engine.specs.Targets.{or_here, depends_of, is_below_roots};
ghost use Rattle.jam_engine.specs.Spreading.{seconds_at};
ghost use Rattle.jam_engine.specs.Stepping.{ArePlaced, IsMixedBy, name_in, header_dirs_of, IsMadeStep, StepsTo, JoinsOne, JoinsBy, AreSteps};

use crate::joining::actions_of;
use crate::links::Sets;
use crate::scene::{Scene, or_here, value};
use crate::spread::spread;
use crate::texts::{texts_of, whole_text};
use b2_base::fault::OutOfMemory;
use b2_base::path::{Path, path_of};
use b2_base::path_list::PathList;
use b2_base::path_map::PathMap;
use b2_base::text::Text;
use b2_base::text_list::{TextList, push_copies};
use b2_plan::step::Step;
use b2_virtual::builder::Builder;
use b2_virtual::fault::VirtualFault;
use jam_graph::fault::JamFault;
use jam_graph::graph::{Act, Graph};
use jam_natives::texts::without_repeats;
use jam_scope::world::World;
use std::alloc::Global;

/// The targets of some acts, each once.
fn targets_at(alloc: Global, acts: &[Act], set: &[usize]) -> Result<TextList, OutOfMemory>
    requires { All (λ place. place < length acts.now) set.now }
    ensures { IfOk result (λ targets. targets ≡ without_repeats (flat_map (λ act. act.targets) (acts_at acts.now set.now))) }
{
    let mut targets = TextList::new(alloc);
    for place in set {
        push_copies(&mut targets, acts[*place].targets.as_slice())?;
    }
    without_repeats(alloc, targets.as_slice())
}

/// The sources of some acts, in order.
fn sources_at(alloc: Global, acts: &[Act], set: &[usize]) -> Result<TextList, OutOfMemory>
    requires { All (λ place. place < length acts.now) set.now }
    ensures { IfOk result (λ sources. sources ≡ flat_map (λ act. act.sources) (acts_at acts.now set.now)) }
{
    let mut sources = TextList::new(alloc);
    for place in set {
        push_copies(&mut sources, acts[*place].sources.as_slice())?;
    }
    Ok(sources)
}

/// Adds the second texts of pairs at some places.
fn push_seconds(
    made: &mut TextList,
    pairs: &[(Text, Text)],
    places: &[usize],
) -> Result<(), OutOfMemory>
    requires { All (λ place. place < length pairs.now) places.now }
    ensures { OnOk result (made.new ≡ made.old ++ seconds_at pairs.now places.now) }
{
    for place in places {
        made.push(pairs[*place].1.copy()?)?;
    }
    Ok(())
}

/// The sources of some acts, then what their targets depend on.
fn asked_at(
    graph: &Graph,
    scene: &Scene,
    sources: TextList,
    targets: &[Text],
) -> Result<TextList, OutOfMemory>
    requires { IsIndexOf graph.now scene.now.index }
    ensures { IfOk result (λ asked. asked ≡ sources ++ flat_map (depends_of graph.now) targets.now) }
{
    let mut asked = sources;
    for target in targets {
        let places = scene.index.depends(target);
        push_seconds(&mut asked, graph.depends.as_slice(), places)?;
    }
    Ok(asked)
}

/// The first target that is no file. Takes no memory.
fn first_notfile<'a>(scene: &Scene, targets: &'a [Text]) -> Option<&'a Text>
    ensures { option_copied result ≡ find (is_in scene.now.index.notfile) targets.now }
{
    for target in targets {
        if scene.index.is_notfile(target) {
            return Some(target);
        }
    }
    None
}

/// Whether no target is a file. Takes no memory.
fn all_notfile(scene: &Scene, targets: &[Text]) -> bool
    ensures { result ≡ list_all (is_in scene.now.index.notfile) targets.now }
{
    for target in targets {
        if !scene.index.is_notfile(target) {
            return false;
        }
    }
    true
}

/// Whether one of the targets always runs. Takes no memory.
fn any_always(scene: &Scene, targets: &[Text]) -> bool
    ensures { result ≡ list_any (is_in scene.now.index.always) targets.now }
{
    for target in targets {
        if scene.index.is_always(target) {
            return true;
        }
    }
    false
}

/// Refuses targets of which some are files and some are not.
fn check_mixed(scene: &Scene, targets: &[Text]) -> Result<(), JamFault>
    ensures { IsMixedBy scene.now targets.now result }
{
    if all_notfile(scene, targets) {
        return Ok(());
    }
    match first_notfile(scene, targets) {
        Some(target) => Err(JamFault::MixedNotFile {
            target: target.copy()?,
        }),
        None => Ok(()),
    }
}

/// Whether the actions of an act have `quietly`. Takes no memory.
fn is_quiet(world: &World, act: &Act) -> bool
    ensures { result ≡ is_quiet_in world.now.now act.now }
{
    match actions_of(world, act) {
        Some(actions) => actions.quietly(),
        None => false,
    }
}

/// The name of the first act that is not quiet, else none.
fn name_at(alloc: Global, world: &World, acts: &[Act], set: &[usize]) -> Result<Text, OutOfMemory>
    requires { All (λ place. place < length acts.now) set.now }
    ensures { IfOk result (λ name. name ≡ name_in world.now.now (acts_at acts.now set.now)) }
{
    for place in set {
        if !is_quiet(world, &acts[*place]) {
            return acts[*place].name.copy();
        }
    }
    Text::new(alloc, "")
}

/// Adds a path, unless it is there; `seen` has the paths that are.
fn add_once(made: &mut PathList, seen: &mut PathMap<bool>, path: &Path) -> Result<(), OutOfMemory>
    ensures made { HasSeen seen.old made.old → OnOk result (made.new ≡ add_new made.old path.now) }
    ensures seen { HasSeen seen.old made.old → OnOk result (HasSeen seen.new made.new) }
{
    if seen.get(path).is_some() {
        return Ok(());
    }
    let key = path.copy()?;
    let own = path.copy()?;
    let _before = seen.insert(key, true)?;
    made.push(own)?;
    Ok(())
}

/// The paths, each once.
fn once(alloc: Global, paths: &[Path]) -> Result<PathList, OutOfMemory>
    ensures { IfOk result (λ made. made ≡ without_repeats paths.now) }
{
    let mut seen = PathMap::new(alloc);
    let mut made = PathList::new(alloc);
    for path in paths {
        add_once(&mut made, &mut seen, path)?;
    }
    Ok(made)
}

/// The paths of some directories of HDRS.
fn paths_of_dirs(alloc: Global, dirs: &[Text]) -> Result<PathList, OutOfMemory>
    ensures { IfOk result (λ made. made ≡ map (λ dir. normal_of (or_here dir)) dirs.now) }
{
    let mut made = PathList::new(alloc);
    for dir in dirs {
        made.push(path_of(alloc, or_here(dir.as_str()))?)?;
    }
    Ok(made)
}

/// The directories in which headers of a step with this first target are looked for.
fn header_dirs(alloc: Global, world: &World, targets: &[Text]) -> Result<PathList, OutOfMemory>
    requires { world.now.now.scopes.frames ≡ [] }
    ensures { IfOk result (λ dirs. dirs ≡ header_dirs_of world.now.now targets.now) }
{
    match targets {
        [] => Ok(PathList::new(alloc)),
        [first, ..] => paths_of_dirs(alloc, value(world, first, "HDRS")),
    }
}

/// Whether an output lies below one of the roots. Takes no memory.
fn is_placed(roots: &[Path], out: &Path) -> bool
    ensures exact { result ≡ is_below_roots roots.now out.now }
    ensures inside { result ≡ true → IsInRoots roots.now out.now }
{
    for root in roots {
        if out.under(root) {
            return true;
        }
    }
    false
}

/// The first output that lies under no root. Takes no memory.
fn first_outside<'a>(roots: &[Path], outs: &'a [Path]) -> Option<&'a Path>
    ensures exact { option_copied result ≡ find (λ out. not (is_below_roots roots.now out)) outs.now }
    ensures inside { option_copied result ≡ None → AllByRecursion (IsInRoots roots.now) outs.now }
{
    for out in outs {
        if !is_placed(roots, out) {
            return Some(out);
        }
    }
    None
}

/// The step of a set of acts, of which the targets and the text are known.
fn made_step(
    alloc: Global,
    graph: &Graph,
    scene: &Scene,
    acts: &[Act],
    set: &[usize],
    targets: &[Text],
    text: Text,
) -> Result<Step, OutOfMemory>
    requires ready { IsReady graph.now }
    requires index { IsIndexOf graph.now scene.now.index }
    requires within { All (λ place. place < length acts.now) set.now }
    ensures { IfOk result (IsMadeStep graph.now scene.now (acts_at acts.now set.now) targets.now text) }
{
    let name = name_at(alloc, &graph.world, acts, set)?;
    let paths = scene.paths(alloc, targets)?;
    let outs = once(alloc, paths.as_slice())?;
    let sources = sources_at(alloc, acts, set)?;
    let asked = asked_at(graph, scene, sources, targets)?;
    let ins = spread(alloc, graph, scene, asked.as_slice())?;
    let dirs = header_dirs(alloc, &graph.world, targets)?;
    Ok(Step {
        name,
        text,
        outs,
        ins,
        dirs,
        always: any_always(scene, targets),
        notfile: all_notfile(scene, targets),
    })
}

/// The step of a set of acts, whose outputs lie under roots.
fn step_of(
    alloc: Global,
    graph: &mut Graph,
    scene: &Scene,
    acts: &[Act],
    set: &[usize],
) -> Result<Step, JamFault>
    requires ready { IsReady graph.old }
    requires index { IsIndexOf graph.old scene.now.index }
    requires within { All (λ place. place < length acts.now) set.now }
    ensures same { graph.new ≡ graph.old }
    ensures step { StepsTo graph.old scene.now (acts_at acts.now set.now) result }
    ensures inside { IfOk result (λ step. AllByRecursion (IsInRoots scene.now.roots) step.outs) }
    ensures no_host { ¬ IsErrOf result JamFault.Host }
    ensures whole { IfErr result IsWhole }
{
    let owned = targets_at(alloc, acts, set)?;
    let targets = owned.as_slice();
    check_mixed(scene, targets)?;
    let texts = texts_of(alloc, graph, scene, acts, set)?;
    let text = whole_text(alloc, texts.as_slice())?;
    let step = made_step(alloc, graph, scene, acts, set, targets, text)?;
    if let Some(path) = first_outside(scene.roots.as_slice(), step.outs.as_slice()) {
        return Err(JamFault::LocationOutside { path: path.copy()? });
    }
    Ok(step)
}

/// Lets a step join the others, unless an output of it cannot stand. An equal step is a step of its own, and clashes.
fn join(builder: &mut Builder, step: Step) -> Result<(), JamFault>
    requires { length builder.old ≢ 65536 }
    ensures joins { JoinsOne builder.old step builder.new result }
    ensures some_out { OnOk result (step.outs ≢ []) }
    ensures whole { IfErr result IsWhole }
{
    let count = builder.steps().len();
    let first = match step.outs.as_slice() {
        [first, ..] => first.copy()?,
        [] => return Err(JamFault::OutOfMemory),
    };
    match builder.add(step) {
        Ok(number) if number as usize > count => Ok(()),
        Ok(_) => Err(JamFault::PathClash { path: first }),
        Err(VirtualFault::PathClash { path }) => Err(JamFault::PathClash { path }),
        Err(VirtualFault::LocationOutside { path }) => Err(JamFault::LocationOutside { path }),
        Err(VirtualFault::TooManySteps { count }) => Err(JamFault::TooManySteps { count }),
        Err(VirtualFault::OutOfMemory) => Err(JamFault::OutOfMemory),
    }
}

/// Lets the step of a set of acts join the others.
fn add_step(
    alloc: Global,
    graph: &mut Graph,
    scene: &Scene,
    acts: &[Act],
    set: &[usize],
    builder: &mut Builder,
) -> Result<(), JamFault>
    requires ready { IsReady graph.old }
    requires index { IsIndexOf graph.old scene.now.index }
    requires within { All (λ place. place < length acts.now) set.now }
    ensures same { graph.new ≡ graph.old }
    ensures joins { JoinsBy graph.old scene.now builder.old (acts_at acts.now set.now) builder.new result }
    ensures placed { OnOk result (ArePlaced scene.now.roots builder.old → ArePlaced scene.now.roots builder.new) }
    ensures no_host { ¬ IsErrOf result JamFault.Host }
    ensures whole { IfErr result IsWhole }
{
    if builder.steps().len() == 65536 {
        return Err(JamFault::TooManySteps { count: 65537 });
    }
    let step = step_of(alloc, graph, scene, acts, set)?;
    join(builder, step)
}

/// The steps of all sets of acts, in order.
pub(crate) fn steps_of(
    alloc: Global,
    graph: &mut Graph,
    scene: &Scene,
    acts: &[Act],
    sets: &Sets,
) -> Result<Builder, JamFault>
    requires ready { IsReady graph.old }
    requires index { IsIndexOf graph.old scene.now.index }
    requires within { All (λ set. All (λ place. place < length acts.now) set) sets.now.items }
    ensures same { graph.new ≡ graph.old }
    ensures steps { AreSteps graph.old scene.now (map (acts_at acts.now) sets.now.items) result }
    ensures placed { IfOk result (ArePlaced scene.now.roots) }
    ensures no_host { ¬ IsErrOf result JamFault.Host }
    ensures whole { IfErr result IsWhole }
{
    let mut builder = Builder::new(alloc);
    for set in sets {
        add_step(alloc, graph, scene, acts, set.as_slice(), &mut builder)?;
    }
    Ok(builder)
}
