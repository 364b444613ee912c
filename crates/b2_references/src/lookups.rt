//! What an index tells of projects and main targets.
ghost use Rattle.std.specs.Prelude.{◌≡◌, ◌<◌, Some, length, map, reverse, slice_get, IfOk};
ghost use Rattle.std.specs.Option.{option_copied, option_and_then};
ghost use Rattle.b2_references.specs.Names.{alternatives, lineage, default_build, dir_of, target_text, first_list};

use crate::index::Index;
use b2_base::fault::OutOfMemory;
use b2_base::path::{Path, folder};
use b2_base::text::Text;
use b2_declared::place::{Place, Target};
use b2_property_texts::completion::reference_to;
use std::alloc::Global;

/// A project of a list, where it names one that is there.
fn at<'a>(places: &'a [Place], project: Option<usize>) -> Option<&'a Place>
    ensures { option_copied result ≡ option_and_then (slice_get places.now) project }
{
    places.get(project?)
}

/// The main target of a number; takes no memory.
fn target_at<'a>(targets: &'a [Target], number: usize) -> &'a Target
    requires { number < length targets.now }
    ensures { slice_get targets.now number ≡ Some result.now }
{
    &targets[number]
}

/// The defaults of the first main target that has any; takes no memory.
fn first_of_targets<'a>(targets: &[&'a Target]) -> &'a [(Text, Text)]
    ensures { result.now ≡ first_list (map (λ t. t.now.defaults) targets.now) }
{
    for target in targets {
        let defaults = target.defaults.as_slice();
        if !defaults.is_empty() {
            return defaults;
        }
    }
    &[]
}

/// The defaults of the first project that has any; takes no memory.
fn first_of_places<'a>(places: &[&'a Place]) -> &'a [(Text, Text)]
    ensures { result.now ≡ first_list (map (λ p. p.now.defaults) places.now) }
{
    for place in places {
        let defaults = place.defaults.as_slice();
        if !defaults.is_empty() {
            return defaults;
        }
    }
    &[]
}

impl<'a> Index<'a> {
    /// The alternatives of a main target, in order of declaration.
    pub fn alternatives(&self, project: usize, name: &Text) -> Result<Vec<&'a Target>, OutOfMemory>
        ensures { IfOk result (λ made. map (λ t. t.now) made.items ≡ alternatives self.now (project, name.now)) }
    {
        let mut made = Vec::new(self.alloc());
        let targets = self.declared().targets.as_slice();
        let numbers = self.numbers(project, name);
        for number in numbers {
            made.push(target_at(targets, *number))?;
        }
        Ok(made)
    }

    /// A project and those above it, the nearest first.
    fn ancestors(&self, project: usize) -> Result<Vec<&'a Place>, OutOfMemory>
        ensures { IfOk result (λ made. map (λ p. p.now) made.items ≡ reverse (lineage self.now project)) }
    {
        let mut made = Vec::new(self.alloc());
        let places = self.declared().places.as_slice();
        let mut next = Some(project);
        for turn in 0..places.len() {
            match at(places, next) {
                None => return Ok(made),
                Some(place) => {
                    made.push(place)?;
                    next = place.parent;
                }
            }
        }
        Ok(made)
    }

    /// The projects from Jamroot down to a project, itself the last.
    pub fn lineage(&self, project: usize) -> Result<Vec<&'a Place>, OutOfMemory>
        ensures { IfOk result (λ made. map (λ p. p.now) made.items ≡ lineage self.now project) }
    {
        let mut made = self.ancestors(project)?;
        made.reverse();
        Ok(made)
    }

    /// The `default-build` of a main target: that of its first alternative that has one, else of the nearest project that
    /// has one; no pairs where none has.
    pub fn default_build(
        &self,
        project: usize,
        name: &Text,
    ) -> Result<&'a [(Text, Text)], OutOfMemory>
        ensures { IfOk result (λ pairs. pairs.now ≡ default_build self.now (project, name.now)) }
    {
        let alternatives = self.alternatives(project, name)?;
        let own = first_of_targets(alternatives.as_slice());
        if !own.is_empty() {
            return Ok(own);
        }
        let ancestors = self.ancestors(project)?;
        Ok(first_of_places(ancestors.as_slice()))
    }

    /// A project, where it is there; takes no memory.
    fn place_of(&self, project: usize) -> Option<&'a Place>
        ensures { option_copied result ≡ slice_get self.now.places project }
    {
        self.declared().places.as_slice().get(project)
    }

    /// The directory of a project, from the folder; the folder where there is no such project.
    #[tactic(auto, unfolding(crate::specs::Names::dir_of))]
    pub fn dir_of(&self, project: usize) -> Result<Path, OutOfMemory>
        ensures { IfOk result (λ dir. dir ≡ dir_of self.now project) }
    {
        match self.place_of(project) {
            Some(place) => place.dir.copy(),
            None => folder(self.alloc()),
        }
    }

    /// How a main target is written: the directory of its project, but nothing for the folder, then `//` and its name.
    #[tactic(auto, unfolding(crate::specs::Names::target_text))]
    pub fn target_text(&self, project: usize, name: &Text) -> Result<Text, OutOfMemory>
        ensures { IfOk result (λ made. made ≡ target_text self.now (project, name.now)) }
    {
        let dir = self.dir_of(project)?;
        reference_to(self.alloc(), &dir, name.as_str())
    }
}
