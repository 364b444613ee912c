//! Whether none of the main targets that were opened for a node is open.
ghost use Rattle.std.specs.Prelude.{◌<◌, length, reverse, IfOk, IsTrue};
ghost use Rattle.b2_generate.specs.Clear.{IsClear, AreMarked, MarksStay, Passes};
ghost use Rattle.b2_generate.specs.Machine.{names_of};
ghost use Rattle.b2_generate.specs.Nodes.{AreDated, AreLate};
ghost use Rattle.b2_generate.specs.Opening.{frames};

use crate::node::Node;
use crate::stack::Stack;
use b2_base::fault::OutOfMemory;
use std::alloc::Global;

/// Marks those of some places that have marks; takes no memory.
fn mark(marks: &mut Vec<bool>, places: &[usize])
    ensures { AreMarked places.now marks.old.items marks.new.items }
{
    for place in places {
        if *place < marks.len() {
            marks[*place] = true;
        }
    }
}

/// Whether the node at a place is not marked, or not of an open main target. What was generated for a marked one is marked. Takes
/// time in proportion to what was generated for the node itself, and no memory.
fn passes(nodes: &[Node], stack: &Stack<'_>, marks: &mut Vec<bool>, place: usize) -> bool
    requires there { place < length nodes.now }
    requires size { place < length marks.old.items }
    ensures stay { MarksStay marks.old.items marks.new.items }
    ensures passes { IsTrue result → Passes (names_of (frames stack.now)) (reverse nodes.now) place marks.old.items marks.new.items }
{
    if !marks[place] {
        return true;
    }
    let node = &nodes[place];
    mark(marks, node.children.as_slice());
    !stack.is_open(&node.name)
}

/// Whether none of the main targets that were opened for the node at a place is open. What was generated for a node stands before
/// it, so one pass down from its place looks at each node once.
fn is_clear_below(
    alloc: Global,
    nodes: &[Node],
    stack: &Stack<'_>,
    place: usize,
) -> Result<bool, OutOfMemory>
    requires there { place < length nodes.now }
    ensures clear { IfOk result (λ clear. IsTrue clear → IsClear (names_of (frames stack.now)) (reverse nodes.now) place) }
{
    let mut left = place + 1;
    let mut marks = vec![in alloc; false; left]?;
    marks[place] = true;
    while left > 0 {
        left -= 1;
        if !passes(nodes, stack, &mut marks, left) {
            return Ok(false);
        }
    }
    Ok(true)
}

/// Whether none of the main targets that were opened for the node at a place is open. Where each of them was generated first before
/// each open one was, that is known at once; else it takes time in proportion to the place, and to what was generated for the nodes
/// that were generated for this one.
pub(crate) fn is_clear(
    alloc: Global,
    nodes: &[Node],
    stack: &Stack<'_>,
    place: usize,
) -> Result<bool, OutOfMemory>
    requires there { place < length nodes.now }
    requires dated { AreDated (reverse nodes.now) }
    requires late { AreLate (reverse nodes.now) stack.now.newest.earliest (names_of (frames stack.now)) }
    ensures clear { IfOk result (λ clear. IsTrue clear → IsClear (names_of (frames stack.now)) (reverse nodes.now) place) }
{
    if nodes[place].latest < stack.newest.earliest {
        return Ok(true);
    }
    is_clear_below(alloc, nodes, stack, place)
}
