//! The table of main targets.
ghost use Rattle.std.specs.Prelude.{◌≡◌, ◌++◌, map, reverse, filter, slice_get, IfOk, OnOk};
ghost use Rattle.std.specs.List.{flat_map};
ghost use Rattle.std.specs.Option.{option_copied};
ghost use Rattle.b2_generate.specs.Nodes.{entry_in, row_of};
ghost use Rattle.b2_generate.specs.Planning.{first_rows, line};
ghost use Rattle.b2_generate.specs.Places.{is_before};
ghost use Rattle.b2_request_plan.specs.TableRows.{lines_of, line_of, rows_of, row_of_line, found_rows, with_row, row_of_key, IsWalk, IsBegun, Opens};

use crate::planned::Built;
use b2_base::fault::OutOfMemory;
use b2_base::list::List;
use b2_base::text::Text;
use b2_generate::node::Node;
use b2_references::index::Index;
use std::alloc::Global;
use std::collections::BTreeSet;

/// The nodes whose rows were found, in order, and their rows by project, name, alternative and set; the places that were
/// opened; and those that are to be opened, the next of them last.
#[derive(Drop)]
struct RowSearch<'a> {
    found: Vec<&'a Node>,
    known: BTreeSet<(usize, &'a str, usize, &'a [(Text, Text)])>,
    opened: BTreeSet<usize>,
    next: Vec<usize>,
}

/// The row of a node, as it is looked up; takes no memory.
fn key_of<'a>(node: &'a Node) -> (usize, &'a str, usize, &'a [(Text, Text)])
    ensures { row_of_key result ≡ row_of node.now }
{
    (
        node.name.project(),
        node.name.name().as_str(),
        node.number,
        node.set.pairs(),
    )
}

fn node_at(nodes: &[Node], place: usize) -> Option<&Node>
    ensures { option_copied result ≡ slice_get nodes.now place }
{
    nodes.get(place)
}

/// Those of some places that stand before another one.
fn places_before(alloc: Global, places: &[usize], bound: usize) -> Result<Vec<usize>, OutOfMemory>
    ensures { IfOk result (λ made. made.items ≡ filter (is_before bound) places.now) }
{
    let mut made = Vec::new(alloc);
    for place in places {
        if *place < bound {
            made.push(*place)?;
        }
    }
    Ok(made)
}

impl<'a> RowSearch<'a> {
    /// A walk that is to begin with some places.
    fn new(alloc: Global, asked: &[usize]) -> Result<RowSearch<'a>, OutOfMemory>
        ensures { IfOk result (IsBegun asked.now) }
    {
        let mut next = Vec::from_slice(alloc, asked)?;
        next.reverse();
        Ok(RowSearch {
            found: Vec::new(alloc),
            known: BTreeSet::new(alloc),
            opened: BTreeSet::new(alloc),
            next,
        })
    }

    /// Finds the row of a node, unless it was found before.
    fn note(&mut self, node: &'a Node) -> Result<(), OutOfMemory>
        requires { IsWalk self.old }
        ensures walk { OnOk result (IsWalk self.new) }
        ensures found { OnOk result (found_rows self.new ≡ with_row (found_rows self.old) (row_of node.now)) }
        ensures others { (self.new.opened ≡ self.old.opened) × (self.new.next ≡ self.old.next) }
    {
        if self.known.insert(key_of(node))? {
            self.found.push(node)?;
        }
        Ok(())
    }

    /// Adds what was generated for the node at a place to what is to be opened.
    fn push_children(&mut self, alloc: Global, node: &Node, place: usize) -> Result<(), OutOfMemory>
        ensures next { OnOk result (self.new.next.items ≡ self.old.next.items ++ reverse (filter (is_before place) node.now.children)) }
        ensures others { (self.new.opened ≡ self.old.opened) × (self.new.found ≡ self.old.found) × (self.new.known ≡ self.old.known) }
    {
        let mut children = places_before(alloc, node.children.as_slice(), place)?;
        children.reverse();
        self.next.append(&mut children)?;
        Ok(())
    }

    /// Opens a place, unless it was opened before.
    fn open(&mut self, alloc: Global, nodes: &'a [Node], place: usize) -> Result<(), OutOfMemory>
        requires { IsWalk self.old }
        ensures walk { OnOk result (IsWalk self.new) }
        ensures opens { OnOk result (Opens (reverse nodes.now) place self.old self.new) }
    {
        if !self.opened.insert(place)? {
            return Ok(());
        }
        match node_at(nodes, place) {
            None => Ok(()),
            Some(node) => {
                self.note(node)?;
                self.push_children(alloc, node, place)
            }
        }
    }
}

/// The nodes whose rows were generated at some places, in order of opening, one for each row.
fn nodes_of<'a>(
    alloc: Global,
    nodes: &'a [Node],
    asked: &[usize],
) -> Result<Vec<&'a Node>, OutOfMemory>
    ensures { IfOk result (λ found. map (λ n. row_of n.now) found.items ≡ first_rows (flat_map (λ place. (entry_in (reverse nodes.now) place).1.rows) asked.now)) }
{
    let mut walk = RowSearch::new(alloc, asked)?;
    while let Some(place) = walk.next.pop() {
        walk.open(alloc, nodes, place)?;
    }
    Ok(walk.found)
}

/// The line of a node.
fn built(alloc: Global, index: &Index<'_>, node: &Node) -> Result<Built, OutOfMemory>
    ensures line { IfOk result (λ made. line_of made ≡ line index.now (row_of node.now)) }
    ensures row { IfOk result (λ made. row_of_line made ≡ row_of node.now) }
{
    Ok(Built {
        target: index.target_text(node.name.project(), node.name.name())?,
        name: node.name.copy()?,
        alternative: node.number,
        set: node.set.copy(alloc)?,
    })
}

fn lines(alloc: Global, index: &Index<'_>, nodes: &[&Node]) -> Result<List<Built>, OutOfMemory>
    ensures lines { IfOk result (λ made. lines_of made ≡ map (λ n. line index.now (row_of n.now)) nodes.now) }
    ensures rows { IfOk result (λ made. rows_of made ≡ map (λ n. row_of n.now) nodes.now) }
{
    let mut made = List::new(alloc);
    for node in nodes {
        made.push(built(alloc, index, node)?)?;
    }
    Ok(made)
}

/// The lines of what was generated at some places, in order of opening, each different one once.
pub(crate) fn table_of(
    alloc: Global,
    index: &Index<'_>,
    nodes: &[Node],
    asked: &[usize],
) -> Result<List<Built>, OutOfMemory>
    ensures lines { IfOk result (λ made. lines_of made ≡ map (line index.now) (first_rows (flat_map (λ place. (entry_in (reverse nodes.now) place).1.rows) asked.now))) }
    ensures rows { IfOk result (λ made. rows_of made ≡ first_rows (flat_map (λ place. (entry_in (reverse nodes.now) place).1.rows) asked.now)) }
{
    let found = nodes_of(alloc, nodes, asked)?;
    lines(alloc, index, found.as_slice())
}
