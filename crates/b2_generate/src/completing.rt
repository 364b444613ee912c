//! Main targets that are generated become nodes.
ghost use Rattle.std.specs.Prelude.{◌≡◌, ◌≤◌, ◌⊎◌, [], Some, None, if◌then◌else◌, reverse, length, IfOk, OnOk};
ghost use Rattle.std.specs.FinMap as finite;
ghost use Rattle.std.specs.Option.{option_or, unwrap_or};
ghost use Rattle.b2_references.specs.Names.{Name, is_same};
ghost use Rattle.b2_generate.specs.Machine.{HasPlaces};
ghost use Rattle.b2_generate.specs.Making.{IsLatest};
ghost use Rattle.b2_generate.specs.Nodes.{latest_in};
ghost use Rattle.b2_generate.specs.Turning.{Completes, IsLatestFor, IsNodeOf, IsNoted};

use crate::frame::Frame;
use crate::making::TargetOutput;
use crate::name_table::NameTable;
use crate::node::Node;
use b2_base::fault::OutOfMemory;
use b2_base::list::List;
use b2_props::props::Props;
use b2_references::name::TargetName;
use std::alloc::Global;

/// What was generated, in order of completion, and the places of the first and of the newest node of each main target.
#[derive(Drop)]
pub struct Nodes {
    pub list: Vec<Node>,
    pub firsts: NameTable<usize>,
    pub newest: NameTable<usize>,
}

/// What is noted with a node.
#[derive(Clone, Copy)]
struct NodeNote {
    latest: usize,
    previous: Option<usize>,
}

fn larger(a: usize, b: usize) -> usize
    ensures first { a ≤ result }
    ensures second { b ≤ result }
    ensures least { (result ≡ a) ⊎ (result ≡ b) }
{
    if a < b { b } else { a }
}

/// The later one of a place and of the latest one of the node at another.
fn later(nodes: &[Node], place: &usize, latest: usize) -> usize
    ensures own { latest ≤ result }
    ensures other { latest_in (reverse nodes.now) place.now ≤ result }
{
    match nodes.get(*place) {
        Some(node) => larger(latest, node.latest),
        None => latest,
    }
}

/// The latest place at which one of the main targets that were opened for some nodes was generated first, or this one.
fn latest_of(nodes: &[Node], children: &[usize], first: usize) -> usize
    ensures { IsLatest (reverse nodes.now) children.now first result }
{
    let mut latest = first;
    for child in children {
        latest = later(nodes, child, latest);
    }
    latest
}

/// The place of the first node of a main target, which is this one where none was there before.
pub(crate) fn note_first(
    firsts: &mut NameTable<usize>,
    name: &TargetName,
    place: usize,
) -> Result<usize, OutOfMemory>
    ensures first { IfOk result (λ first. first ≡ unwrap_or (finite.get firsts.old name.now) place) }
    ensures firsts { OnOk result ((other : Name) → finite.get firsts.new other ≡ option_or (finite.get firsts.old other) (if is_same other name.now then Some place else None)) }
{
    match firsts.get(name).copied() {
        Some(first) => Ok(first),
        None => {
            firsts.insert(name, place)?;
            Ok(place)
        }
    }
}

/// What a node copies of an open main target.
#[derive(Drop)]
struct CopiedParts {
    name: TargetName,
    asked: Props,
    children: List<usize>,
}

/// What the node of an open main target copies of it. Being copied first, it leaves `node_of` one exit that drops what was made.
fn copied(alloc: Global, frame: &Frame<'_>) -> Result<CopiedParts, OutOfMemory>
    ensures name { IfOk result (λ made. made.name ≡ frame.now.name) }
    ensures asked { IfOk result (λ made. made.asked ≡ frame.now.asked) }
    ensures children { IfOk result (λ made. made.children ≡ frame.now.done) }
{
    let name = frame.name.copy()?;
    let asked = frame.asked.copy(alloc)?;
    let children = Vec::from_slice(alloc, frame.done.as_slice())?;
    Ok(CopiedParts {
        name,
        asked,
        children: List::from_vec(children),
    })
}

/// The node that an open main target becomes.
fn node_of(
    alloc: Global,
    frame: &Frame<'_>,
    made: TargetOutput,
    latest: usize,
    previous: Option<usize>,
) -> Result<Node, OutOfMemory>
    ensures { IfOk result (IsNodeOf frame.now made latest) }
{
    let own = copied(alloc, frame)?;
    Ok(Node {
        name: own.name,
        asked: own.asked,
        number: frame.chosen.number,
        set: made.set,
        supply: made.supply,
        usage: made.usage,
        children: own.children,
        latest,
        previous,
    })
}

/// The place of the newest node of a main target, which this one replaces.
fn note_newest(
    newest: &mut NameTable<usize>,
    name: &TargetName,
    place: usize,
) -> Result<Option<usize>, OutOfMemory> {
    let previous = newest.get(name).copied();
    newest.insert(name, place)?;
    Ok(previous)
}

impl Nodes {
    /// Nothing was generated; takes no memory.
    pub fn new(alloc: Global) -> Nodes
        ensures list { result.list.items ≡ [] }
        ensures firsts { result.firsts ≡ finite.empty }
    {
        Nodes {
            list: Vec::new(alloc),
            firsts: NameTable::new(alloc),
            newest: NameTable::new(alloc),
        }
    }

    /// A node of an open main target, of which further ones come later, is noted at the next place. Answers the latest place at
    /// which a main target that was opened for it was generated first, and the place of the node before it.
    fn note(&mut self, frame: &Frame<'_>) -> Result<NodeNote, OutOfMemory>
        ensures noted { OnOk result (IsNoted frame.now.name (length self.old.list.items) self.old.firsts self.new.firsts) }
        ensures latest { IfOk result (λ made. IsLatestFor self.old frame.now made.latest) }
        ensures same { self.new.list.items ≡ self.old.list.items }
    {
        let place = self.list.len();
        let first = note_first(&mut self.firsts, &frame.name, place)?;
        let previous = note_newest(&mut self.newest, &frame.name, place)?;
        Ok(NodeNote {
            latest: latest_of(self.list.as_slice(), frame.done.as_slice(), first),
            previous,
        })
    }

    /// An open main target is generated: it becomes a further node, the place of which is answered.
    pub(crate) fn complete(
        &mut self,
        alloc: Global,
        frame: &Frame<'_>,
        made: TargetOutput,
    ) -> Result<usize, OutOfMemory>
        requires { HasPlaces (reverse self.old.list.items) frame.now.done frame.now.places }
        ensures { Completes self.old frame.now made self.new result }
    {
        let place = self.list.len();
        let noted = self.note(frame)?;
        let node = node_of(alloc, frame, made, noted.latest, noted.previous)?;
        self.list.push(node)?;
        Ok(place)
    }
}
