//! Generation of one main target after another.
ghost use Rattle.std.specs.Prelude.{◌≡◌, ◌≤◌, IfOk, IfSome, reverse};
ghost use Rattle.std.specs.FinMap as finite;
ghost use Rattle.b2_alternatives.specs.declared.need.Next.TheVariants.{Complete, Due};
ghost use Rattle.b2_generate.specs.Generating.{IsReady, IsKeptFor, NewestWaits, next_of, Turns, Gives};
ghost use Rattle.b2_generate.specs.Clear.{IsClear};
ghost use Rattle.b2_generate.specs.Machine.{names_of};
ghost use Rattle.b2_generate.specs.Nodes.{AreDated, AreLate, IsFrom};
ghost use Rattle.b2_generate.specs.Opening.{frames};
ghost use Rattle.b2_generate.specs.Remembered.{IsAskedAt};

use crate::clear::is_clear;
use crate::completing::Nodes;
use crate::fault::GenFault;
use crate::making::finish;
use crate::opening::{begin, cycle};
use crate::stack::Stack;
use crate::taking::{find, take};
use b2_alternatives::asker::Asker;
use b2_alternatives::need::Next;
use b2_base::fault::OutOfMemory;
use b2_base::path::Path;
use b2_evaluator::evaluate::Evaluate;
use b2_props::elements::propagated;
use b2_props::props::Props;
use b2_references::name::TargetName;
use b2_virtual::builder::Builder;
use std::alloc::Global;

/// A generation under way: the output roots, who is asked for the project's own text, the steps so far, and what was generated.
#[derive(Drop)]
pub struct Generation<'a, E: Evaluate + Drop> {
    pub roots: &'a [Path],
    pub asker: Asker<'a, E>,
    pub builder: Builder,
    pub nodes: Nodes,
}

/// The place at which an open main target was generated first, or the earliest one of those below it, where that is smaller.
fn earliest_for(nodes: &Nodes, below: usize, name: &TargetName) -> usize
    ensures from { IsFrom result (finite.get nodes.now.firsts name.now) }
    ensures below { result ≤ below }
{
    match nodes.firsts.get(name).copied() {
        Some(first) if first < below => first,
        _ => below,
    }
}

/// The node that may stand for a main target again: it was asked for with the same set, and none of the main targets that were
/// opened for it is open.
fn remembered(
    alloc: Global,
    nodes: &Nodes,
    stack: &Stack<'_>,
    name: &TargetName,
    asked: &Props,
) -> Result<Option<usize>, OutOfMemory>
    requires dated { AreDated (reverse nodes.now.list.items) }
    requires late { AreLate (reverse nodes.now.list.items) stack.now.newest.earliest (names_of (frames stack.now)) }
    ensures asked { IfOk result (λ found. IfSome found (λ place. IsAskedAt (reverse nodes.now.list.items) place name.now asked.now)) }
    ensures clear { IfOk result (λ found. IfSome found (IsClear (names_of (frames stack.now)) (reverse nodes.now.list.items))) }
{
    match find(nodes.list.as_slice(), &nodes.newest, name, asked) {
        None => Ok(None),
        Some(place) => {
            if is_clear(alloc, nodes.list.as_slice(), stack, place)? {
                Ok(Some(place))
            } else {
                Ok(None)
            }
        }
    }
}

impl<'a, E: Evaluate + Drop> Generation<'a, E> {
    /// Opens a main target that the newest open one needs.
    #[tactic(none)]
    fn open(
        &mut self,
        stack: &mut Stack<'a>,
        name: TargetName,
        asked: Props,
    ) -> Result<Option<usize>, GenFault<E::Fault>>
        requires ready { IsReady self.old }
        requires kept { IsKeptFor self.old stack.old }
        requires waits { NewestWaits self.old stack.old name asked }
        ensures turn { Turns E.answers E.kept E.faults E.is_host_fault E.is_out_of_memory E.CanFault self.old stack.old self.new stack.new result }
        ensures project { self.new.asker.index.now ≡ self.old.asker.index.now }
        ensures roots { self.new.roots.now ≡ self.old.roots.now }
    {
        let alloc = self.asker.alloc;
        if stack.is_open(&name) {
            return Err(GenFault::TargetCycle {
                targets: cycle(alloc, self.asker.index, stack, &name)?,
            });
        }
        let earliest = earliest_for(&self.nodes, stack.newest.earliest, &name);
        let frame = begin(&mut self.asker, name, asked, earliest)?;
        stack.open(frame)?;
        Ok(None)
    }

    /// The newest open main target gets one that it needs, which is opened, or was generated before.
    #[tactic(none)]
    fn supply(
        &mut self,
        stack: &mut Stack<'a>,
        name: TargetName,
    ) -> Result<Option<usize>, GenFault<E::Fault>>
        requires ready { IsReady self.old }
        requires kept { IsKeptFor self.old stack.old }
        requires due { next_of self.old stack.old ≡ Due name }
        ensures turn { Turns E.answers E.kept E.faults E.is_host_fault E.is_out_of_memory E.CanFault self.old stack.old self.new stack.new result }
        ensures project { self.new.asker.index.now ≡ self.old.asker.index.now }
        ensures roots { self.new.roots.now ≡ self.old.roots.now }
    {
        let alloc = self.asker.alloc;
        let index = self.asker.index;
        let asked = propagated(alloc, &index.declared().registry, stack.newest.needs.set())?;
        match remembered(alloc, &self.nodes, stack, &name, &asked)? {
            None => self.open(stack, name, asked),
            Some(place) => {
                take(index, self.nodes.list.as_slice(), &mut stack.newest, place)?;
                Ok(None)
            }
        }
    }

    /// The newest open main target is generated; it is the oldest one, or the one below it goes on.
    #[tactic(none)]
    fn close(&mut self, stack: &mut Stack<'a>) -> Result<Option<usize>, GenFault<E::Fault>>
        requires ready { IsReady self.old }
        requires kept { IsKeptFor self.old stack.old }
        requires complete { next_of self.old stack.old ≡ Complete }
        ensures turn { Turns E.answers E.kept E.faults E.is_host_fault E.is_out_of_memory E.CanFault self.old stack.old self.new stack.new result }
        ensures project { self.new.asker.index.now ≡ self.old.asker.index.now }
        ensures roots { self.new.roots.now ≡ self.old.roots.now }
    {
        let alloc = self.asker.alloc;
        let index = self.asker.index;
        let made = finish(
            alloc,
            index,
            self.roots,
            self.nodes.list.as_slice(),
            &stack.newest,
            &mut self.asker.evaluator,
            &mut self.builder,
        )?;
        let place = self.nodes.complete(alloc, &stack.newest, made)?;
        match stack.below.pop() {
            None => Ok(Some(place)),
            Some(frame) => {
                stack.newest = frame;
                take(index, self.nodes.list.as_slice(), &mut stack.newest, place)?;
                Ok(None)
            }
        }
    }

    /// One turn of the newest open main target; the place of the oldest one, once it is generated.
    #[tactic(none)]
    fn turn(&mut self, stack: &mut Stack<'a>) -> Result<Option<usize>, GenFault<E::Fault>>
        requires ready { IsReady self.old }
        requires kept { IsKeptFor self.old stack.old }
        ensures turn { Turns E.answers E.kept E.faults E.is_host_fault E.is_out_of_memory E.CanFault self.old stack.old self.new stack.new result }
        ensures project { self.new.asker.index.now ≡ self.old.asker.index.now }
        ensures roots { self.new.roots.now ≡ self.old.roots.now }
    {
        match stack.newest.needs.next()? {
            Next::Complete => self.close(stack),
            Next::Missing { text } => Err(GenFault::NoTarget { name: text }),
            Next::Due { name } => self.supply(stack, name),
        }
    }

    /// Opens a main target and takes turns until it is generated; the place among all nodes of what it gives with a set.
    #[tactic(none)]
    pub(crate) fn generate(
        &mut self,
        name: TargetName,
        asked: Props,
    ) -> Result<usize, GenFault<E::Fault>>
        requires ready { IsReady self.old }
        ensures request { Gives E.answers E.kept E.faults E.is_host_fault E.is_out_of_memory E.CanFault name asked self.old self.new result }
        ensures project { self.new.asker.index.now ≡ self.old.asker.index.now }
        ensures roots { self.new.roots.now ≡ self.old.roots.now }
    {
        let earliest = earliest_for(&self.nodes, usize::MAX, &name);
        let oldest = begin(&mut self.asker, name, asked, earliest)?;
        let mut stack = Stack::new(self.asker.alloc, oldest);
        'turns: loop {
            match self.turn(&mut stack)? {
                None => {}
                Some(place) => return Ok(place),
            }
        }
    }
}
