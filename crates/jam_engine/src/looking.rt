//! What is found of the texts of a graph.
ghost use Rattle.std.specs.Prelude.{◌≡◌, ◌&&◌, ℕ, Bool, List, [], IfOk};
ghost use Rattle.b2_base.specs.Bytes.{HasNoZero};
ghost use Rattle.jam_graph.specs.Graphs.{IsReady};
ghost use Rattle.jam_engine.specs.Targets.{roots, is_source_of, first_source, searched, place_if};
ghost use Rattle.jam_engine.specs.Tables.{IsIndexOf, IsScene};
ghost use Rattle.jam_engine.specs.Looking.{Looked, StaysScene, IsAskedOf};

use crate::index::{Index, add_all};
use crate::joining::is_existing;
use crate::scene::{Found, Scene, or_here, placed, plain, roots_of, value};
use b2_base::fault::OutOfMemory;
use b2_base::path::Path;
use b2_base::text::Text;
use b2_base::text_map::TextMap;
use b2_host::files::Files;
use jam_graph::fault::JamFault;
use jam_graph::graph::Graph;
use jam_scope::world::World;
use jam_values::paths::is_below_any;
use std::alloc::Global;

/// Whether a path lies below no root and a file stands there.
fn is_source<F: Files>(files: &mut F, roots: &[Path], path: &Path) -> Result<bool, JamFault>
    ensures { Looked (F.outside files.old) (F.outside files.new) result (λ stands. λ found. found ≡ is_source_of roots.now stands path.now) }
{
    if is_below_any(path, roots) {
        return Ok(false);
    }
    match files.stat(path) {
        Ok(stamp) => Ok(stamp.is_some()),
        Err(_) => Err(JamFault::Host),
    }
}

/// The path of a name in the first of some directories in which it is a source.
fn first_source<F: Files>(
    alloc: Global,
    files: &mut F,
    roots: &[Path],
    dirs: &[Text],
    name: &str,
) -> Result<Option<Path>, JamFault>
    requires { HasNoZero name.now }
    ensures { Looked (F.outside files.old) (F.outside files.new) result (λ stands. λ found. found ≡ first_source roots.now stands dirs.now name.now) }
{
    for dir in dirs {
        let path = placed(alloc, or_here(dir.as_str()), name)?;
        if is_source(files, roots, &path)? {
            return Ok(Some(path));
        }
    }
    Ok(None)
}

/// The path of a target that no act makes, and that LOCATE does not name.
fn searched<F: Files>(
    alloc: Global,
    files: &mut F,
    roots: &[Path],
    world: &World,
    target: &Text,
) -> Result<Path, JamFault>
    requires { world.now.now.scopes.frames ≡ [] }
    ensures { Looked (F.outside files.old) (F.outside files.new) result (λ stands. λ path. path ≡ searched world.now.now roots.now stands target.now) }
{
    let dirs = value(world, target, "SEARCH");
    match first_source(alloc, files, roots, dirs, plain(target))? {
        Some(path) => Ok(path),
        None => Ok(placed(alloc, ".", plain(target))?),
    }
}

/// The path of a target.
fn place<F: Files>(
    alloc: Global,
    files: &mut F,
    roots: &[Path],
    world: &World,
    is_acted: bool,
    target: &Text,
) -> Result<Path, JamFault>
    requires { world.now.now.scopes.frames ≡ [] }
    ensures { Looked (F.outside files.old) (F.outside files.new) result (λ stands. λ path. path ≡ place_if world.now.now roots.now stands is_acted target.now) }
{
    match value(world, target, "LOCATE") {
        [dir, ..] => Ok(placed(alloc, or_here(dir.as_str()), plain(target))?),
        [] if is_acted => Ok(placed(alloc, "bin", plain(target))?),
        [] => searched(alloc, files, roots, world, target),
    }
}

/// The sources of which an act asks whether they stand.
fn asked_in(alloc: Global, graph: &Graph) -> Result<TextMap<bool>, OutOfMemory>
    ensures { IfOk result (IsAskedOf graph.now) }
{
    let mut asked = TextMap::new(alloc);
    for act in graph.acts.as_slice() {
        if is_existing(&graph.world, act) {
            add_all(&mut asked, act.sources.as_slice())?;
        }
    }
    Ok(asked)
}

/// Whether a path is a source, where that is asked.
fn is_source_if<F: Files>(
    files: &mut F,
    roots: &[Path],
    asked: bool,
    path: &Path,
) -> Result<bool, JamFault>
    ensures { Looked (F.outside files.old) (F.outside files.new) result (λ stands. λ found. found ≡ asked && is_source_of roots.now stands path.now) }
{
    if asked {
        is_source(files, roots, path)
    } else {
        Ok(false)
    }
}

/// Finds a text, unless it was found.
fn find<F: Files>(
    alloc: Global,
    files: &mut F,
    graph: &Graph,
    asked: &TextMap<bool>,
    scene: &mut Scene,
    text: &Text,
) -> Result<(), JamFault>
    requires ready { IsReady graph.now }
    requires asked { IsAskedOf graph.now asked.now }
    ensures found { Looked (F.outside files.old) (F.outside files.new) result (λ stands. λ _. StaysScene graph.now stands scene.old scene.new) }
    ensures index { scene.new.index ≡ scene.old.index }
    ensures roots { scene.new.roots ≡ scene.old.roots }
{
    if scene.found.get(text).is_some() {
        return Ok(());
    }
    let is_acted = scene.index.is_acted(text);
    let is_asked = scene.index.is_nocare(text) || asked.get(text).is_some();
    let roots = scene.roots.as_slice();
    let path = place(alloc, files, roots, &graph.world, is_acted, text)?;
    let is_source = is_source_if(files, roots, is_asked, &path)?;
    let key = text.copy()?;
    let _before = scene.found.insert(key, Found { path, is_source })?;
    Ok(())
}

/// Finds some texts.
fn find_all<F: Files>(
    alloc: Global,
    files: &mut F,
    graph: &Graph,
    asked: &TextMap<bool>,
    scene: &mut Scene,
    texts: &[Text],
) -> Result<(), JamFault>
    requires ready { IsReady graph.now }
    requires asked { IsAskedOf graph.now asked.now }
    ensures found { Looked (F.outside files.old) (F.outside files.new) result (λ stands. λ _. StaysScene graph.now stands scene.old scene.new) }
    ensures index { scene.new.index ≡ scene.old.index }
    ensures roots { scene.new.roots ≡ scene.old.roots }
{
    for text in texts {
        find(alloc, files, graph, asked, scene, text)?;
    }
    Ok(())
}

/// Finds the second texts of pairs.
fn find_seconds<F: Files>(
    alloc: Global,
    files: &mut F,
    graph: &Graph,
    asked: &TextMap<bool>,
    scene: &mut Scene,
    pairs: &[(Text, Text)],
) -> Result<(), JamFault>
    requires ready { IsReady graph.now }
    requires asked { IsAskedOf graph.now asked.now }
    ensures found { Looked (F.outside files.old) (F.outside files.new) result (λ stands. λ _. StaysScene graph.now stands scene.old scene.new) }
    ensures index { scene.new.index ≡ scene.old.index }
    ensures roots { scene.new.roots ≡ scene.old.roots }
{
    for pair in pairs {
        find(alloc, files, graph, asked, scene, &pair.1)?;
    }
    Ok(())
}

/// Finds the targets and the sources of the acts.
fn find_acts<F: Files>(
    alloc: Global,
    files: &mut F,
    graph: &Graph,
    asked: &TextMap<bool>,
    scene: &mut Scene,
) -> Result<(), JamFault>
    requires ready { IsReady graph.now }
    requires asked { IsAskedOf graph.now asked.now }
    ensures found { Looked (F.outside files.old) (F.outside files.new) result (λ stands. λ _. StaysScene graph.now stands scene.old scene.new) }
    ensures index { scene.new.index ≡ scene.old.index }
    ensures roots { scene.new.roots ≡ scene.old.roots }
{
    for act in graph.acts.as_slice() {
        find_all(alloc, files, graph, asked, scene, act.targets.as_slice())?;
        find_all(alloc, files, graph, asked, scene, act.sources.as_slice())?;
    }
    Ok(())
}

/// A graph with nothing found yet.
fn unseen(alloc: Global, graph: &Graph, index: Index) -> Result<Scene, OutOfMemory>
    requires frames { graph.now.world.now.scopes.frames ≡ [] }
    requires index { IsIndexOf graph.now index }
    ensures { IfOk result (λ scene. (stands : List ℕ → Bool) → IsScene graph.now stands scene) }
{
    let roots = roots_of(alloc, &graph.world)?;
    Ok(Scene {
        index,
        roots,
        found: TextMap::new(alloc),
    })
}

/// A graph with what is found of all its texts, and of those that are requested. No other call of the host is made for a plan.
pub(crate) fn scene_of<F: Files>(
    alloc: Global,
    files: &mut F,
    graph: &Graph,
    index: Index,
    requested: &[Text],
) -> Result<Scene, JamFault>
    requires ready { IsReady graph.now }
    requires index { IsIndexOf graph.now index }
    ensures found { Looked (F.outside files.old) (F.outside files.new) result (λ stands. λ scene. IsScene graph.now stands scene) }
    ensures index { IfOk result (λ scene. IsIndexOf graph.now scene.index) }
    ensures roots { IfOk result (λ scene. scene.roots ≡ roots graph.now) }
{
    let asked = asked_in(alloc, graph)?;
    let mut scene = unseen(alloc, graph, index)?;
    find_acts(alloc, files, graph, &asked, &mut scene)?;
    let depends = graph.depends.as_slice();
    find_seconds(alloc, files, graph, &asked, &mut scene, depends)?;
    let includes = graph.includes.as_slice();
    find_seconds(alloc, files, graph, &asked, &mut scene, includes)?;
    find_all(alloc, files, graph, &asked, &mut scene, requested)?;
    Ok(scene)
}
