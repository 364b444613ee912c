//! Acts that are linked by their targets.
ghost use Rattle.std.specs.Prelude.{◌≡◌, ◌<◌, ◌≤◌, ◌+◌, ◌∷◌, ◌++◌, [], true, ℕ, List as Items, All, Option, Some, None, length, unwrap_or, IfOk, OnOk};
ghost use Rattle.std.specs.FinMap as finite;
ghost use Rattle.jam_engine.specs.Tables.{acting, is_in};
ghost use Rattle.jam_engine.specs.Acts.{AreSets};
ghost use Rattle.jam_engine.specs.Linking.{HaveOneMore, HasNone, LabelsMore, waiting, AreLabels, IsSearch, IsNamedUnder, AreFirsts, AreSetsOf, AddsTo};

use crate::index::{Numbers, add_number, numbers_of};
use b2_base::fault::OutOfMemory;
use b2_base::list::List;
use b2_base::text::Text;
use b2_base::text_map::TextMap;
use jam_graph::graph::Act;
use std::alloc::Global;

/// Sets of places of acts.
pub(crate) type Sets = Vec<List<usize>>;

/// A search for linked acts: which acts make each target, which targets were opened, and for each act the first act that it is
/// linked to, once that is known.
#[derive(Drop)]
struct Links<'a> {
    acts: &'a [Act],
    makers: Numbers,
    opened: TextMap<bool>,
    labels: Vec<Option<usize>>,
}

/// Gives each of some targets an act more.
fn add_maker(
    alloc: Global,
    makers: &mut Numbers,
    targets: &[Text],
    place: usize,
) -> Result<(), OutOfMemory>
    ensures { OnOk result (HaveOneMore targets.now place makers.old makers.new) }
{
    for target in targets {
        add_number(alloc, makers, target, place)?;
    }
    Ok(())
}

/// For each target the places of the acts that make it.
fn makers_of(alloc: Global, acts: &[Act]) -> Result<Numbers, OutOfMemory>
    ensures { IfOk result (λ made. (t : Items ℕ) → unwrap_or (finite.get made t) [] ≡ acting 0 acts.now t) }
{
    let mut makers = TextMap::new(alloc);
    for (place, act) in acts.iter().enumerate() {
        add_maker(alloc, &mut makers, act.targets.as_slice(), place)?;
    }
    Ok(makers)
}

fn no_labels(alloc: Global, count: usize) -> Result<Vec<Option<usize>>, OutOfMemory>
    ensures length { IfOk result (λ labels. length labels.items ≡ count) }
    ensures none { IfOk result (λ labels. All (λ label. label ≡ None) labels.items) }
{
    let mut labels = Vec::new(alloc);
    for _place in 0..count {
        labels.push(None)?;
    }
    Ok(labels)
}

/// Labels those of some acts that have no label, and puts them on the stack.
fn label_all(
    labels: &mut Vec<Option<usize>>,
    stack: &mut Vec<usize>,
    places: &[usize],
    first: usize,
) -> Result<(), OutOfMemory>
    requires { All (λ place. place < length labels.old.items) places.now }
    ensures count { length labels.new.items ≡ length labels.old.items }
    ensures more { OnOk result (LabelsMore places.now first labels.old.items labels.new.items stack.old.items stack.new.items) }
    ensures waiting { OnOk result (waiting stack.new.items labels.new.items ≡ waiting stack.old.items labels.old.items) }
{
    for place in places {
        if labels[*place].is_none() {
            stack.push(*place)?;
            labels[*place] = Some(first);
        }
    }
    Ok(())
}

impl<'a> Links<'a> {
    fn new(alloc: Global, acts: &'a [Act]) -> Result<Links<'a>, OutOfMemory>
        ensures { IfOk result (AreLabels acts.now 0) }
    {
        let makers = makers_of(alloc, acts)?;
        let labels = no_labels(alloc, acts.len())?;
        Ok(Links {
            acts,
            makers,
            opened: TextMap::new(alloc),
            labels,
        })
    }

    /// Opens a target, unless it was opened: each act that makes it gets the label.
    fn open(
        &mut self,
        stack: &mut Vec<usize>,
        target: &Text,
        first: usize,
    ) -> Result<(), OutOfMemory>
        requires search { (own : Items ℕ) × IsSearch first (own ++ stack.old.items) self.old }
        requires named { IsNamedUnder first target.now self.old }
        ensures search { (own : Items ℕ) → IsSearch first (own ++ stack.old.items) self.old → OnOk result (IsSearch first (own ++ stack.new.items) self.new) }
        ensures opened { OnOk result (is_in self.new.opened target.now ≡ true) }
        ensures stays { OnOk result ((t : Items ℕ) → is_in self.old.opened t ≡ true → is_in self.new.opened t ≡ true) }
        ensures waiting { OnOk result (waiting stack.new.items self.new.labels.items ≡ waiting stack.old.items self.old.labels.items) }
        ensures acts { self.new.acts ≡ self.old.acts }
    {
        if self.opened.get(target).is_some() {
            return Ok(());
        }
        let key = target.copy()?;
        let _before = self.opened.insert(key, true)?;
        let places = numbers_of(&self.makers, target);
        label_all(&mut self.labels, stack, places, first)
    }

    /// Opens the targets of an act.
    fn open_all(
        &mut self,
        stack: &mut Vec<usize>,
        place: usize,
        first: usize,
    ) -> Result<(), OutOfMemory>
        requires { IsSearch first (place ∷ stack.old.items) self.old }
        ensures search { OnOk result (IsSearch first stack.new.items self.new) }
        ensures waiting { OnOk result (waiting stack.new.items self.new.labels.items ≡ waiting stack.old.items self.old.labels.items) }
        ensures acts { self.new.acts ≡ self.old.acts }
    {
        let acts = self.acts;
        for target in acts[place].targets.as_slice() {
            self.open(stack, target, first)?;
        }
        Ok(())
    }

    /// Labels each act that is linked to one that has no label.
    fn reach(&mut self, alloc: Global, first: usize) -> Result<(), OutOfMemory>
        requires labels { AreLabels self.old.acts.now first self.old }
        requires none { HasNone self.old.labels.items first }
        ensures { OnOk result (AreLabels self.old.acts.now (first + 1) self.new) }
    {
        let mut stack = Vec::new(alloc);
        stack.push(first)?;
        self.labels[first] = Some(first);
        while let Some(place) = stack.pop() {
            self.open_all(&mut stack, place, first)?;
        }
        Ok(())
    }
}

/// The label of each act: the place of the first act that it is linked to.
fn labels_of(alloc: Global, acts: &[Act]) -> Result<Vec<Option<usize>>, OutOfMemory>
    ensures { IfOk result (λ labels. AreFirsts acts.now labels.items) }
{
    let mut links = Links::new(alloc, acts)?;
    for first in 0..acts.len() {
        if links.labels[first].is_none() {
            links.reach(alloc, first)?;
        }
    }
    Ok(links.labels)
}

/// Adds an act to the set of its label, or begins that set.
fn add_to_set(
    alloc: Global,
    sets: &mut Sets,
    numbers: &mut Vec<usize>,
    place: usize,
    first: usize,
) -> Result<(), OutOfMemory>
    requires { (before : Items (Option ℕ)) × AddsTo before place first sets.old.items numbers.old.items }
    ensures { (before : Items (Option ℕ)) → AddsTo before place first sets.old.items numbers.old.items → OnOk result (AreSetsOf (before ++ Some first ∷ []) sets.new.items numbers.new.items) }
{
    if first == place {
        numbers.push(sets.len())?;
        let mut set = List::new(alloc);
        set.push(place)?;
        sets.push(set)?;
        return Ok(());
    }
    let number = numbers[first];
    numbers.push(number)?;
    sets[number].push(place)
}

/// The sets of linked acts, by their first acts; each act stands in one.
pub(crate) fn sets_of(alloc: Global, acts: &[Act]) -> Result<Sets, OutOfMemory>
    ensures { IfOk result (λ sets. AreSets acts.now sets.items) }
{
    let labels = labels_of(alloc, acts)?;
    let mut sets = Vec::new(alloc);
    let mut numbers = Vec::new(alloc);
    for (place, label) in labels.as_slice().iter().enumerate() {
        let first = label.unwrap_or(place);
        add_to_set(alloc, &mut sets, &mut numbers, place, first)?;
    }
    Ok(sets)
}
