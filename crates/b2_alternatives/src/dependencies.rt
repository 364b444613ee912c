//! What a main target depends on, while it is generated.
ghost use Rattle.std.specs.Prelude.{◌≡◌, IfOk, OnOk};
ghost use Rattle.b2_props.specs.Sets.{IsSet};
ghost use Rattle.b2_declared.specs.declared.whole.Declared.{Declared};
ghost use Rattle.b2_declared.specs.declared.place.Target.{Target as TargetValue};
ghost use Rattle.b2_references.specs.Names.{features};
ghost use Rattle.b2_alternatives.specs.Needs.{Under, at_first, next, property_needs};
ghost use Rattle.b2_alternatives.specs.DependencyWork.{StandAt, Adds, Takes};

use crate::conflict::{Conflict, Values};
use crate::known::KnownNames;
use crate::need::{Need, Next, property_needs, source_needs};
use crate::need_list::NeedList;
use b2_base::fault::OutOfMemory;
use b2_declared::place::Target;
use b2_props::pair_list::PairList;
use b2_props::props::Props;
use b2_props::refinement::refine;
use b2_references::index::Index;
use b2_references::name::TargetName;
use std::alloc::Global;

/// What an alternative depends on: the set of its properties so far, the usage requirements that it has met, which main targets
/// were generated, and its needs. Over all needs the search for the next one takes time in proportion to them.
pub struct Dependencies {
    alloc: Global,
    set: Props,
    usage: PairList,
    values: Values,
    done: KnownNames,
    sources: NeedList,
    properties: NeedList,
}

/// By hand, so that dropping one is one call.
impl Drop for Dependencies {
    fn drop(self) {
        let Dependencies {
            alloc: _,
            set,
            usage,
            values,
            done,
            sources,
            properties,
        } = self;
        drop(set);
        drop(usage);
        drop(values);
        drop(done);
        drop(sources);
        drop(properties);
    }
}

impl Dependencies {
    /// What an alternative depends on at first, with the set that the evaluation of its requirements gave.
    pub fn new(
        alloc: Global,
        index: &Index<'_>,
        target: &Target,
        set: Props,
    ) -> Result<Dependencies, OutOfMemory>
        requires { IsSet (features index.now) set }
        ensures { IfOk result (StandAt index.now target.now (at_first set)) }
    {
        let sources = source_needs(alloc, index, target.project, target.sources.as_slice())?;
        let properties = property_needs(alloc, index, set.pairs())?;
        Ok(Dependencies {
            alloc,
            set,
            usage: PairList::new(alloc),
            values: Values::new(alloc),
            done: KnownNames::new(alloc),
            sources: NeedList::new(sources),
            properties: NeedList::new(properties),
        })
    }

    /// The set of properties so far; takes no memory.
    pub fn set(&self) -> &Props
        ensures { result.now ≡ self.now.set }
    {
        &self.set
    }

    /// The usage requirements that were met, in order; takes no memory.
    pub fn usage(&self) -> &PairList
        ensures { result.now ≡ self.now.usage }
    {
        &self.usage
    }

    /// The sources, in order; takes no memory.
    pub fn sources(&self) -> &[Need]
        ensures { result.now ≡ self.now.sources.needs }
    {
        self.sources.as_slice()
    }

    /// The dependency properties of the set so far, in order; takes no memory.
    pub fn properties(&self) -> &[Need]
        ensures { result.now ≡ self.now.properties.needs }
    {
        self.properties.as_slice()
    }

    /// What comes next: the first text that names nothing, or the first main target that was not generated, by the sources and
    /// then by the dependency properties.
    pub fn next(&mut self) -> Result<Next, OutOfMemory>
        ensures next { (d : Declared) (t : TargetValue) (u : Under) → StandAt d t u self.old → IfOk result (λ found. found ≡ next d t u) }
        ensures stand { (d : Declared) (t : TargetValue) (u : Under) → StandAt d t u self.old → StandAt d t u self.new }
    {
        match self.sources.next(&self.done)? {
            Next::Complete => self.properties.next(&self.done),
            next => Ok(next),
        }
    }

    /// Refines the set by usage requirements.
    fn take(&mut self, index: &Index<'_>, usage: &PairList) -> Result<(), OutOfMemory>
        requires { IsSet (features index.now) self.old.set }
        ensures { OnOk result (Takes index.now usage.now self.old self.new) }
    {
        let registry = &index.declared().registry;
        let set = refine(self.alloc, registry, &self.set, usage.as_slice())?;
        self.properties = NeedList::new(property_needs(self.alloc, index, set.pairs())?);
        self.set = set;
        self.usage.append(usage.copy(self.alloc)?)?;
        Ok(())
    }

    /// A main target was generated, and has these usage requirements. Answers the first of them that does not go together with
    /// one that was met before, or with an earlier one of its own; where there is none, they refine the set.
    pub fn add(
        &mut self,
        index: &Index<'_>,
        name: &TargetName,
        usage: &PairList,
    ) -> Result<Option<Conflict>, OutOfMemory>
        requires { IsSet (features index.now) self.old.set }
        ensures { (t : TargetValue) (u : Under) → StandAt index.now t u self.old → IfOk result (Adds index.now t u name.now usage.now self.new) }
    {
        let registry = &index.declared().registry;
        let found = self.values.meet(registry, usage.as_slice())?;
        if found.is_some() {
            return Ok(found);
        }
        self.done.add(name)?;
        if !usage.as_slice().is_empty() {
            self.take(index, usage)?;
        }
        Ok(None)
    }
}
