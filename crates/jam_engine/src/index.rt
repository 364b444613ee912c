//! A graph with look-ups.
ghost use Rattle.std.specs.Prelude.{◌≡◌, ◌||◌, [], ℕ, List, unwrap_or, IfOk, OnOk};
ghost use Rattle.std.specs.List.{list_any};
ghost use Rattle.std.specs.FinMap as map;
ghost use Rattle.jam_engine.specs.Tables.{places_in, is_in, IsIndexOf, HasOneMore};
ghost use Rattle.jam_engine.specs.Targets.{has};

use b2_base::fault::OutOfMemory;
use b2_base::list::List;
use b2_base::text::Text;
use b2_base::text_map::TextMap;
use jam_graph::graph::{Act, Graph};
use std::alloc::Global;

/// Numbers for each of some texts.
pub(crate) type Numbers = TextMap<List<usize>>;

/// The flags of targets, whether an act makes them, and at which places pairs begin with them.
pub(crate) struct Index {
    targets: TextMap<bool>,
    always: TextMap<bool>,
    notfile: TextMap<bool>,
    nocare: TextMap<bool>,
    acted: TextMap<bool>,
    depends: Numbers,
    includes: Numbers,
}

/// By hand, so that dropping one is one call.
impl Drop for Index {
    fn drop(self) {
        let Index {
            targets,
            always,
            notfile,
            nocare,
            acted,
            depends,
            includes,
        } = self;
        drop(targets);
        drop(always);
        drop(notfile);
        drop(nocare);
        drop(acted);
        drop(depends);
        drop(includes);
    }
}

/// Adds texts to a set.
pub(crate) fn add_all(set: &mut TextMap<bool>, texts: &[Text]) -> Result<(), OutOfMemory>
    ensures { OnOk result ((t : List ℕ) → is_in set.new t ≡ (is_in set.old t || has texts.now t)) }
{
    for text in texts {
        let key = text.copy()?;
        let _before = set.insert(key, true)?;
    }
    Ok(())
}

/// The set of some texts.
pub(crate) fn set_of(alloc: Global, texts: &[Text]) -> Result<TextMap<bool>, OutOfMemory>
    ensures { IfOk result (λ made. (t : List ℕ) → is_in made t ≡ has texts.now t) }
{
    let mut set = TextMap::new(alloc);
    add_all(&mut set, texts)?;
    Ok(set)
}

/// The set of the targets of acts.
fn acted_in(alloc: Global, acts: &[Act]) -> Result<TextMap<bool>, OutOfMemory>
    ensures { IfOk result (λ made. (t : List ℕ) → is_in made t ≡ list_any (λ act. has act.targets t) acts.now) }
{
    let mut set = TextMap::new(alloc);
    for act in acts {
        add_all(&mut set, act.targets.as_slice())?;
    }
    Ok(set)
}

/// Takes the numbers of a text out.
fn take(alloc: Global, numbers: &mut Numbers, text: &Text) -> Result<List<usize>, OutOfMemory>
    ensures taken { IfOk result (λ taken. taken ≡ unwrap_or (map.get numbers.old text.now) []) }
    ensures numbers { OnOk result (numbers.new ≡ map.insert numbers.old text.now []) }
{
    let key = text.copy()?;
    match numbers.insert(key, List::new(alloc))? {
        Some(found) => Ok(found),
        None => Ok(List::new(alloc)),
    }
}

/// Gives a text one more number.
pub(crate) fn add_number(
    alloc: Global,
    numbers: &mut Numbers,
    text: &Text,
    number: usize,
) -> Result<(), OutOfMemory>
    ensures { OnOk result (HasOneMore text.now number numbers.old numbers.new) }
{
    let mut found = take(alloc, numbers, text)?;
    found.push(number)?;
    let key = text.copy()?;
    let _before = numbers.insert(key, found)?;
    Ok(())
}

/// The numbers of a text; takes no memory.
pub(crate) fn numbers_of<'a>(numbers: &'a Numbers, text: &Text) -> &'a [usize]
    ensures { result.now ≡ unwrap_or (map.get numbers.now text.now) [] }
{
    match numbers.get(text) {
        Some(found) => found.as_slice(),
        None => &[],
    }
}

/// For each text the places of the pairs that begin with it.
fn places_in(alloc: Global, pairs: &[(Text, Text)]) -> Result<Numbers, OutOfMemory>
    ensures { IfOk result (λ made. (t : List ℕ) → unwrap_or (map.get made t) [] ≡ places_in 0 pairs.now t) }
{
    let mut made = TextMap::new(alloc);
    for (place, pair) in pairs.iter().enumerate() {
        add_number(alloc, &mut made, &pair.0, place)?;
    }
    Ok(made)
}

impl Index {
    /// The look-ups of a graph.
    pub(crate) fn new(alloc: Global, graph: &Graph) -> Result<Index, OutOfMemory>
        ensures { IfOk result (IsIndexOf graph.now) }
    {
        let targets = set_of(alloc, graph.targets.as_slice())?;
        let always = set_of(alloc, graph.always.as_slice())?;
        let notfile = set_of(alloc, graph.notfile.as_slice())?;
        let nocare = set_of(alloc, graph.nocare.as_slice())?;
        let acted = acted_in(alloc, graph.acts.as_slice())?;
        let depends = places_in(alloc, graph.depends.as_slice())?;
        let includes = places_in(alloc, graph.includes.as_slice())?;
        Ok(Index {
            targets,
            always,
            notfile,
            nocare,
            acted,
            depends,
            includes,
        })
    }

    /// Whether a text is a target; takes no memory.
    pub(crate) fn is_target(&self, text: &Text) -> bool
        ensures { result ≡ is_in self.now.targets text.now }
    {
        self.targets.get(text).is_some()
    }

    /// Whether a target's step always runs; takes no memory.
    pub(crate) fn is_always(&self, target: &Text) -> bool
        ensures { result ≡ is_in self.now.always target.now }
    {
        self.always.get(target).is_some()
    }

    /// Whether a target is no file; takes no memory.
    pub(crate) fn is_notfile(&self, target: &Text) -> bool
        ensures { result ≡ is_in self.now.notfile target.now }
    {
        self.notfile.get(target).is_some()
    }

    /// Whether a target may be missing; takes no memory.
    pub(crate) fn is_nocare(&self, target: &Text) -> bool
        ensures { result ≡ is_in self.now.nocare target.now }
    {
        self.nocare.get(target).is_some()
    }

    /// Whether an act makes a target; takes no memory.
    pub(crate) fn is_acted(&self, target: &Text) -> bool
        ensures { result ≡ is_in self.now.acted target.now }
    {
        self.acted.get(target).is_some()
    }

    /// The places of the pairs of DEPENDS that begin with a target; takes no memory.
    pub(crate) fn depends(&self, target: &Text) -> &[usize]
        ensures { result.now ≡ unwrap_or (map.get self.now.depends target.now) [] }
    {
        numbers_of(&self.depends, target)
    }

    /// The same of INCLUDES; takes no memory.
    pub(crate) fn includes(&self, target: &Text) -> &[usize]
        ensures { result.now ≡ unwrap_or (map.get self.now.includes target.now) [] }
    {
        numbers_of(&self.includes, target)
    }
}
