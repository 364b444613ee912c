//! Marking and rolling back.
ghost use Rattle.std.specs.Prelude.{◌≡◌, OnOk, OnErr};
ghost use Rattle.jam_journal.specs.Marks.{marked};

use super::World;
use crate::mark::Mark;
use crate::parents::Parents;
use crate::steps::Steps;
use b2_base::fault::OutOfMemory;
use jam_journal::past::Past;
use jam_journal::past_lists::PastLists;
use jam_journal::saved::Saved;

/// Marks two tables, or none of them.
fn mark_tables<A: Drop, B: Drop>(
    first: &mut Past<A>,
    second: &mut Past<B>,
) -> Result<(), OutOfMemory>
    ensures first { OnOk result (first.new ≡ marked first.old) }
    ensures second { OnOk result (second.new ≡ marked second.old) }
    ensures same_first { OnErr result (first.new ≡ first.old) }
    ensures same_second { OnErr result (second.new ≡ second.old) }
{
    first.mark()?;
    if let Err(fault) = second.mark() {
        first.roll_back();
        return Err(fault);
    }
    Ok(())
}

/// Marks parents, a table and the notes of a step, or none of them.
fn mark_parents(
    first: &mut Parents,
    second: &mut PastLists,
    third: &mut Steps,
) -> Result<(), OutOfMemory>
    ensures first { OnOk result (first.new ≡ marked first.old) }
    ensures second { OnOk result (second.new ≡ marked second.old) }
    ensures third { OnOk result (third.new ≡ marked third.old) }
    ensures same_first { OnErr result (first.new ≡ first.old) }
    ensures same_second { OnErr result (second.new ≡ second.old) }
    ensures same_third { OnErr result (third.new ≡ third.old) }
{
    first.mark()?;
    if let Err(fault) = second.mark() {
        first.roll_back();
        return Err(fault);
    }
    if let Err(fault) = third.mark() {
        first.roll_back();
        second.roll_back();
        return Err(fault);
    }
    Ok(())
}

/// Marks three values, or none of them.
fn mark_values<A: Drop, B: Drop, C: Drop>(
    first: &mut Saved<A>,
    second: &mut Saved<B>,
    third: &mut Saved<C>,
) -> Result<(), OutOfMemory>
    ensures first { OnOk result (first.new ≡ marked first.old) }
    ensures second { OnOk result (second.new ≡ marked second.old) }
    ensures third { OnOk result (third.new ≡ marked third.old) }
    ensures same_first { OnErr result (first.new ≡ first.old) }
    ensures same_second { OnErr result (second.new ≡ second.old) }
    ensures same_third { OnErr result (third.new ≡ third.old) }
{
    first.mark()?;
    if let Err(fault) = second.mark() {
        first.roll_back();
        return Err(fault);
    }
    if let Err(fault) = third.mark() {
        first.roll_back();
        second.roll_back();
        return Err(fault);
    }
    Ok(())
}

/// Marks parents, a table, three values and the notes of a step, or none of them.
fn mark_others<A: Drop, B: Drop, C: Drop>(
    first: &mut Parents,
    second: &mut PastLists,
    third: &mut Saved<A>,
    fourth: &mut Saved<B>,
    fifth: &mut Saved<C>,
    sixth: &mut Steps,
) -> Result<(), OutOfMemory>
    ensures first { OnOk result (first.new ≡ marked first.old) }
    ensures second { OnOk result (second.new ≡ marked second.old) }
    ensures third { OnOk result (third.new ≡ marked third.old) }
    ensures fourth { OnOk result (fourth.new ≡ marked fourth.old) }
    ensures fifth { OnOk result (fifth.new ≡ marked fifth.old) }
    ensures sixth { OnOk result (sixth.new ≡ marked sixth.old) }
    ensures same_first { OnErr result (first.new ≡ first.old) }
    ensures same_second { OnErr result (second.new ≡ second.old) }
    ensures same_third { OnErr result (third.new ≡ third.old) }
    ensures same_fourth { OnErr result (fourth.new ≡ fourth.old) }
    ensures same_fifth { OnErr result (fifth.new ≡ fifth.old) }
    ensures same_sixth { OnErr result (sixth.new ≡ sixth.old) }
{
    mark_values(third, fourth, fifth)?;
    if let Err(fault) = mark_parents(first, second, sixth) {
        third.roll_back();
        fourth.roll_back();
        fifth.roll_back();
        return Err(fault);
    }
    Ok(())
}

impl World {
    ghost use Rattle.std.specs.Prelude.{◌≡◌, ◌<◌, ◌↔◌, length, IfOk, IsTrue, OnOk, OnErr};
    ghost use Rattle.jam_scope.specs.Changes.{mark, roll_back, IsNewest};

    /// Marks the present world, to come back to it. Copies nothing of it. After an error the world is as before.
    pub fn mark(&mut self) -> Result<Mark, OutOfMemory>
        ensures mark { IfOk result (λ made. made ≡ length self.old.marked) }
        ensures ok { OnOk result (self.new ≡ mark self.old) }
        ensures err { OnErr result (self.new ≡ self.old) }
    {
        let before = self.variables.marks();
        self.variables.mark()?;
        if let Err(fault) = mark_tables(&mut self.rules, &mut self.actions) {
            self.variables.roll_back();
            return Err(fault);
        }
        let marked = mark_others(
            &mut self.parents,
            &mut self.own,
            &mut self.place,
            &mut self.roots,
            &mut self.frozen,
            &mut self.steps,
        );
        if let Err(fault) = marked {
            self.variables.roll_back();
            self.rules.roll_back();
            self.actions.roll_back();
            return Err(fault);
        }
        Ok(Mark::after(before))
    }

    /// Whether a mark is the newest one that was not yet used. Takes no memory.
    pub fn is_newest(&self, mark: &Mark) -> bool
        ensures { IsTrue result ↔ IsNewest mark.now self.now }
    {
        let marks = self.variables.marks();
        marks > mark.before() && marks - mark.before() == 1
    }

    /// Goes back to the world of the newest mark, whatever stood between, and uses that mark up. Takes no memory.
    pub fn roll_back(&mut self, mark: Mark)
        requires { IsNewest mark self.old }
        ensures { self.new ≡ roll_back self.old }
    {
        let _ = mark;
        self.variables.roll_back();
        self.rules.roll_back();
        self.actions.roll_back();
        self.parents.roll_back();
        self.own.roll_back();
        self.place.roll_back();
        self.roots.roll_back();
        self.frozen.roll_back();
        self.steps.roll_back();
    }

    /// Whether a mark was not yet used. Takes no memory.
    pub fn marked(&self) -> bool
        ensures { IsTrue result ↔ (0 < length self.now.marked) }
    {
        self.variables.marks() > 0
    }
}
