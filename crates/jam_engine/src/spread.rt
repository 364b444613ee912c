//! What a list of targets comes to, with what they include and depend on.
ghost use Rattle.std.specs.Prelude.{◌≡◌, ◌<◌, ◌++◌, [], ℕ, Bool, List, All, length, reverse, IfOk, OnOk};
ghost use Rattle.jam_engine.specs.Tables.{IsIndexOf, IsScene};
ghost use Rattle.jam_engine.specs.Spreads.{behind, next, Meets};
ghost use Rattle.jam_engine.specs.Spreading.{stacked, seconds_at, MeetsOne, SpreadsTo};

use crate::index::Index;
use crate::scene::Scene;
use b2_base::fault::OutOfMemory;
use b2_base::path_list::PathList;
use b2_base::text::Text;
use b2_base::text_list::TextList;
use b2_base::text_map::TextMap;
use jam_graph::graph::Graph;
use std::alloc::Global;

/// Puts the second texts of pairs at some places on a stack, the last first.
fn push_seconds<'a>(
    stack: &mut Vec<&'a Text>,
    pairs: &'a [(Text, Text)],
    places: &[usize],
) -> Result<(), OutOfMemory>
    requires { All (λ place. place < length pairs.now) places.now }
    ensures { OnOk result (stacked stack.new.items ≡ stacked stack.old.items ++ reverse (seconds_at pairs.now places.now)) }
{
    for place in places.iter().rev() {
        stack.push(&pairs[*place].1)?;
    }
    Ok(())
}

/// Puts what a target depends on on a stack, unless it is made.
fn push_depends<'a>(
    stack: &mut Vec<&'a Text>,
    graph: &'a Graph,
    index: &Index,
    target: &Text,
) -> Result<(), OutOfMemory>
    requires { IsIndexOf graph.now index.now }
    ensures { OnOk result (stacked stack.new.items ≡ stacked stack.old.items ++ reverse (behind graph.now target.now)) }
{
    if index.is_acted(target) {
        return Ok(());
    }
    push_seconds(stack, graph.depends.as_slice(), index.depends(target))
}

/// Puts what comes behind a target on a stack, so that its first comes off first.
fn push_next<'a>(
    stack: &mut Vec<&'a Text>,
    graph: &'a Graph,
    index: &Index,
    target: &Text,
) -> Result<(), OutOfMemory>
    requires { IsIndexOf graph.now index.now }
    ensures { OnOk result (stacked stack.new.items ≡ stacked stack.old.items ++ reverse (next graph.now target.now)) }
{
    push_depends(stack, graph, index, target)?;
    push_seconds(stack, graph.includes.as_slice(), index.includes(target))
}

/// Puts some texts on a stack, so that the first comes off first.
fn stack_of<'a>(alloc: Global, texts: &'a [Text]) -> Result<Vec<&'a Text>, OutOfMemory>
    ensures { IfOk result (λ stack. stacked stack.items ≡ reverse texts.now) }
{
    let mut stack = Vec::new(alloc);
    for text in texts.iter().rev() {
        stack.push(text)?;
    }
    Ok(stack)
}

/// Adds a target to those that were met, unless it was seen, and puts what comes behind it on the stack.
fn meet<'a>(
    graph: &'a Graph,
    index: &Index,
    seen: &mut TextMap<bool>,
    met: &mut TextList,
    stack: &mut Vec<&'a Text>,
    target: &Text,
) -> Result<(), OutOfMemory>
    requires { IsIndexOf graph.now index.now }
    ensures { OnOk result (MeetsOne graph.now target.now seen.old seen.new met.old met.new (stacked stack.old.items) (stacked stack.new.items)) }
{
    if seen.get(target).is_some() {
        return Ok(());
    }
    let key = target.copy()?;
    let _before = seen.insert(key, true)?;
    let own = target.copy()?;
    met.push(own)?;
    push_next(stack, graph, index, target)
}

/// What a list meets, each once, depth first.
fn met_by<'a>(
    alloc: Global,
    graph: &'a Graph,
    index: &Index,
    texts: &'a [Text],
) -> Result<TextList, OutOfMemory>
    requires { IsIndexOf graph.now index.now }
    ensures { IfOk result (Meets graph.now [] texts.now) }
{
    let mut stack = stack_of(alloc, texts)?;
    let mut seen = TextMap::new(alloc);
    let mut met = TextList::new(alloc);
    while let Some(target) = stack.pop() {
        meet(graph, index, &mut seen, &mut met, &mut stack, target)?;
    }
    Ok(met)
}

/// The paths of what a list of targets comes to.
pub(crate) fn spread(
    alloc: Global,
    graph: &Graph,
    scene: &Scene,
    texts: &[Text],
) -> Result<PathList, OutOfMemory>
    requires { IsIndexOf graph.now scene.now.index }
    ensures { IfOk result (λ paths. (stands : List ℕ → Bool) → IsScene graph.now stands scene.now → SpreadsTo graph.now stands texts.now paths) }
{
    let met = met_by(alloc, graph, &scene.index, texts)?;
    let mut paths = PathList::new(alloc);
    for target in met.as_slice() {
        if scene.counts(target)? {
            paths.push(scene.path(target)?)?;
        }
    }
    Ok(paths)
}
