//! Acts that are one, and the sources that are left to them.
ghost use Rattle.std.specs.Prelude.{◌≡◌, ◌<◌, ◌∷◌, ◌++◌, [], true, List as Items, All, filter, length, IfOk, OnOk};
ghost use Rattle.std.specs.FinMap as map;
ghost use Rattle.std.specs.List.{AllByRecursion};
ghost use Rattle.std.specs.Option.{option_copied};
ghost use Rattle.jam_graph.specs.Graphs.{HasTarget};
ghost use Rattle.jam_graph.specs.declared.graph.Act.{Act as Calls};
ghost use Rattle.jam_engine.specs.Acts.{actions_in, is_together_in, is_existing_in, same_texts, are_alike, once_if};
ghost use Rattle.jam_engine.specs.Joining.{AreJoined, IsFirstAlike, IsKnownOf, begins_with, plainly_joined, there_if, finished_by, acts_by};
ghost use Rattle.jam_engine.specs.Scenes.{IsKnown, is_there_in};
ghost use Rattle.jam_engine.specs.Tables.{HasOneMore};

use crate::index::{Numbers, add_number, numbers_of};
use crate::scene::Scene;
use b2_base::fault::OutOfMemory;
use b2_base::list::List;
use b2_base::text::Text;
use b2_base::text_list::{TextList, copy_texts, push_copies};
use b2_base::text_map::TextMap;
use jam_graph::graph::{Act, Graph};
use jam_natives::texts::without_repeats;
use jam_scope::body::ActionBody;
use jam_scope::rule_ref::RuleRef;
use jam_scope::world::World;
use std::alloc::Global;

/// Acts that were joined so far, and for the first target of those that may be joined their places.
#[derive(Drop)]
struct Joined {
    acts: Vec<Act>,
    places: Numbers,
}

/// The actions of an act; takes no memory.
pub(crate) fn actions_of<'a>(world: &'a World, act: &Act) -> Option<&'a ActionBody>
    ensures { option_copied result ≡ actions_in world.now.now act.now }
{
    let at = RuleRef {
        module: act.module.as_str(),
        name: act.name.as_str(),
    };
    world.action_body(&at)
}

/// Whether the calls of an act's actions for the same targets are one; takes no memory.
fn is_together(world: &World, act: &Act) -> bool
    ensures { result ≡ is_together_in world.now.now act.now }
{
    match actions_of(world, act) {
        Some(actions) => actions.together(),
        None => false,
    }
}

/// Whether the actions of an act leave out sources that do not stand; takes no memory.
pub(crate) fn is_existing(world: &World, act: &Act) -> bool
    ensures { result ≡ is_existing_in world.now.now act.now }
{
    match actions_of(world, act) {
        Some(actions) => actions.existing(),
        None => false,
    }
}

/// Whether two lists of texts are the same; takes no memory.
fn same_texts(one: &[Text], other: &[Text]) -> bool
    ensures { result ≡ same_texts one.now other.now }
{
    if one.len() != other.len() {
        return false;
    }
    for (place, text) in one.iter().enumerate() {
        if *text != other[place] {
            return false;
        }
    }
    true
}

/// Whether two acts have one name, one module and one target list; takes no memory.
fn are_alike(one: &Act, other: &Act) -> bool
    ensures { result ≡ are_alike one.now other.now }
{
    one.name == other.name
        && one.module == other.module
        && same_texts(one.targets.as_slice(), other.targets.as_slice())
}

/// The first of some places at which an act stands that is like another one.
fn alike_at(acts: &[Act], places: &[usize], act: &Act) -> Option<usize>
    requires { All (λ place. place < length acts.now) places.now }
    ensures { IsFirstAlike acts.now places.now act.now result }
{
    for place in places {
        if are_alike(&acts[*place], act) {
            return Some(*place);
        }
    }
    None
}

fn copy_act(alloc: Global, act: &Act) -> Result<Act, OutOfMemory>
    ensures { IfOk result (λ made. made ≡ act.now) }
{
    let name = act.name.copy()?;
    let module = act.module.copy()?;
    let targets = copy_texts(alloc, act.targets.as_slice())?;
    let sources = copy_texts(alloc, act.sources.as_slice())?;
    Ok(Act {
        name,
        module,
        targets,
        sources,
        line: act.line,
    })
}

impl Joined {
    fn new(alloc: Global) -> Joined
        ensures acts { result.acts.items ≡ [] }
        ensures places { result.places ≡ map.from_entries [] }
    {
        Joined {
            acts: Vec::new(alloc),
            places: TextMap::new(alloc),
        }
    }

    /// Adds an act that may be joined, by its first target.
    fn begin(&mut self, alloc: Global, act: &Act, first: &Text) -> Result<(), OutOfMemory>
        ensures acts { OnOk result (self.new.acts.items ≡ self.old.acts.items ++ act.now ∷ []) }
        ensures places { OnOk result (HasOneMore first.now (length self.old.acts.items) self.old.places self.new.places) }
    {
        add_number(alloc, &mut self.places, first, self.acts.len())?;
        self.acts.push(copy_act(alloc, act)?)?;
        Ok(())
    }

    /// Lets an act join the first that it joins, or adds it.
    fn join(
        &mut self,
        alloc: Global,
        world: &World,
        act: &Act,
        first: &Text,
    ) -> Result<(), OutOfMemory>
        requires joined { (before : Items Calls) × AreJoined world.now.now before self.old }
        requires together { is_together_in world.now.now act.now ≡ true }
        requires first { begins_with first.now act.now ≡ true }
        ensures { (before : Items Calls) → AreJoined world.now.now before self.old → OnOk result (AreJoined world.now.now (before ++ act.now ∷ []) self.new) }
    {
        let places = numbers_of(&self.places, first);
        match alike_at(self.acts.as_slice(), places, act) {
            Some(place) => push_copies(&mut self.acts[place].sources, act.sources.as_slice()),
            None => self.begin(alloc, act, first),
        }
    }

    /// Adds an act by its first target.
    fn add_by(
        &mut self,
        alloc: Global,
        world: &World,
        act: &Act,
        first: &Text,
    ) -> Result<(), OutOfMemory>
        requires joined { (before : Items Calls) × AreJoined world.now.now before self.old }
        requires first { begins_with first.now act.now ≡ true }
        ensures { (before : Items Calls) → AreJoined world.now.now before self.old → OnOk result (AreJoined world.now.now (before ++ act.now ∷ []) self.new) }
    {
        if is_together(world, act) {
            return self.join(alloc, world, act, first);
        }
        self.acts.push(copy_act(alloc, act)?)?;
        Ok(())
    }

    /// Adds an act, which has a target.
    fn add(&mut self, alloc: Global, world: &World, act: &Act) -> Result<(), OutOfMemory>
        requires joined { (before : Items Calls) × AreJoined world.now.now before self.old }
        requires target { HasTarget act.now }
        ensures { (before : Items Calls) → AreJoined world.now.now before self.old → OnOk result (AreJoined world.now.now (before ++ act.now ∷ []) self.new) }
    {
        match act.targets.as_slice() {
            [first, ..] => self.add_by(alloc, world, act, first),
            [] => Ok(()),
        }
    }
}

/// The sources that are made or stand.
fn there_in(alloc: Global, scene: &Scene, sources: &[Text]) -> Result<TextList, OutOfMemory>
    ensures exact { IfOk result (λ kept. kept ≡ filter (is_there_in scene.now) sources.now) }
    ensures known { IfOk result (λ _. AllByRecursion (IsKnown scene.now) sources.now) }
{
    let mut kept = TextList::new(alloc);
    for source in sources {
        if scene.is_there(source)? {
            kept.push(source.copy()?)?;
        }
    }
    Ok(kept)
}

/// The sources of an act: each once, where its calls are one.
fn once_if(alloc: Global, together: bool, sources: &[Text]) -> Result<TextList, OutOfMemory>
    ensures { IfOk result (λ kept. kept ≡ once_if together sources.now) }
{
    if together {
        without_repeats(alloc, sources)
    } else {
        copy_texts(alloc, sources)
    }
}

/// Those of them that are made or stand, where that is asked.
fn there_if(
    alloc: Global,
    scene: &Scene,
    existing: bool,
    sources: TextList,
) -> Result<TextList, OutOfMemory>
    ensures exact { IfOk result (λ kept. kept ≡ there_if scene.now existing sources) }
    ensures known { IfOk result (λ _. existing ≡ true → AllByRecursion (IsKnown scene.now) sources) }
{
    if existing {
        there_in(alloc, scene, sources.as_slice())
    } else {
        Ok(sources)
    }
}

/// An act with the sources that are left to it.
fn finished(alloc: Global, world: &World, scene: &Scene, act: Act) -> Result<Act, OutOfMemory>
    ensures exact { IfOk result (λ made. made ≡ finished_by world.now.now scene.now act) }
    ensures known { IfOk result (λ _. IsKnownOf world.now.now scene.now act) }
{
    let sources = once_if(alloc, is_together(world, &act), act.sources.as_slice())?;
    let sources = there_if(alloc, scene, is_existing(world, &act), sources)?;
    Ok(act.with_sources(sources))
}

/// The acts of a graph that were joined.
fn plainly_joined(alloc: Global, graph: &Graph) -> Result<Vec<Act>, OutOfMemory>
    requires { AllByRecursion HasTarget graph.now.acts }
    ensures { IfOk result (λ made. made.items ≡ plainly_joined graph.now.world.now graph.now.acts) }
{
    let mut joined = Joined::new(alloc);
    for act in graph.acts.as_slice() {
        joined.add(alloc, &graph.world, act)?;
    }
    Ok(joined.acts)
}

/// The acts of a graph, joined, with the sources that are left to them.
pub(crate) fn acts_of(alloc: Global, graph: &Graph, scene: &Scene) -> Result<List<Act>, OutOfMemory>
    requires { AllByRecursion HasTarget graph.now.acts }
    ensures exact { IfOk result (λ made. made ≡ acts_by graph.now scene.now) }
    ensures known { IfOk result (λ _. AllByRecursion (IsKnownOf graph.now.world.now scene.now) (plainly_joined graph.now.world.now graph.now.acts)) }
{
    let mut made = List::new(alloc);
    for act in plainly_joined(alloc, graph)? {
        made.push(finished(alloc, &graph.world, scene, act)?)?;
    }
    Ok(made)
}
