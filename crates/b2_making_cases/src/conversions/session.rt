//! The commands by their names.
use crate::conversions::kinds::made_target;
use crate::conversions::shown::steps_answer;
use crate::conversions::tables::declare;
use crate::conversions::target::{Needs, Project, project_in};
use crate::conversions::texts::Texts;
use b2_base::path_list::PathList;
use b2_declaring_calls::declaration::Kind;
use b2_features::registry::Registry;
use b2_generators::types::Types;
use b2_virtual::builder::Builder;
use std::alloc::Global;
use std::mem::ManuallyDrop;
use transcript::answer::Answer;
use transcript::case_fault::CaseFault;
use transcript::command::{Command, Word};
use transcript::session::Session;
use transcript::words::{both, no_words, only, own_paths};

/// What the commands of the part have put together.
#[derive(Drop)]
pub struct Conversions {
    pub registry: ManuallyDrop<Registry>,
    pub types: ManuallyDrop<Types>,
    pub roots: ManuallyDrop<PathList>,
    pub project: ManuallyDrop<Option<Project>>,
    pub needs: ManuallyDrop<Needs>,
    pub texts: ManuallyDrop<Texts>,
    pub builder: ManuallyDrop<Builder>,
}

fn put_paths(alloc: Global, held: &mut PathList, words: &[Word]) -> Result<Answer, CaseFault> {
    *held = own_paths(alloc, words)?;
    Ok(Answer::new(alloc))
}

fn put_project(
    alloc: Global,
    held: &mut ManuallyDrop<Option<Project>>,
    words: &[Word],
) -> Result<Answer, CaseFault> {
    let project = project_in(alloc, only(words)?)?;
    *held = ManuallyDrop::new(Some(project));
    Ok(Answer::new(alloc))
}

/// Carries out a command that supplies something to the current main target, or else one that declares.
fn supply(
    alloc: Global,
    needs: &mut Needs,
    registry: &mut Registry,
    types: &mut Types,
    name: &str,
    words: &[Word],
) -> Result<Answer, CaseFault> {
    match name {
        "properties" => needs.put_properties(alloc, words),
        "source" => needs.add_files(alloc, types, words),
        "source_target" => needs.add_source_target(alloc, types, words),
        "library" => needs.add_part(alloc, types, words),
        _ => declare(alloc, registry, types, name, words),
    }
}

impl Conversions {
    /// Empty tables, and nothing that is supplied or made.
    pub fn new(alloc: Global) -> Conversions {
        Conversions {
            registry: ManuallyDrop::new(Registry::new(alloc)),
            types: ManuallyDrop::new(Types::new(alloc)),
            roots: ManuallyDrop::new(PathList::new(alloc)),
            project: ManuallyDrop::new(None),
            needs: ManuallyDrop::new(Needs::new(alloc)),
            texts: ManuallyDrop::new(Texts::new(alloc)),
            builder: ManuallyDrop::new(Builder::new(alloc)),
        }
    }

    fn renew(&mut self, alloc: Global, name: &str, words: &[Word]) -> Result<Answer, CaseFault> {
        no_words(words)?;
        match name {
            "new_target" => self.needs = ManuallyDrop::new(Needs::new(alloc)),
            "new_steps" => self.builder = ManuallyDrop::new(Builder::new(alloc)),
            _ => *self = Conversions::new(alloc),
        }
        Ok(Answer::new(alloc))
    }

    fn steps(&self, alloc: Global, words: &[Word]) -> Result<Answer, CaseFault> {
        no_words(words)?;
        steps_answer(alloc, self.builder.steps())
    }

    /// Carries out a command that puts something in place, or else one that supplies or declares.
    fn put(&mut self, alloc: Global, name: &str, words: &[Word]) -> Result<Answer, CaseFault> {
        match name {
            "roots" => put_paths(alloc, &mut self.roots, words),
            "project" => put_project(alloc, &mut self.project, words),
            "no_text" => self.texts.put_names(alloc, words),
            "notes" => put_paths(alloc, &mut self.texts.noted, words),
            "order" => put_paths(alloc, &mut self.needs.order, words),
            _ => supply(
                alloc,
                &mut self.needs,
                &mut self.registry,
                &mut self.types,
                name,
                words,
            ),
        }
    }

    /// Carries out a command that makes a main target by a rule, that renews, or that shows steps; or else one that puts
    /// something in place.
    fn other(&mut self, alloc: Global, name: &str, words: &[Word]) -> Result<Answer, CaseFault> {
        match name {
            "make" => {
                let (target, rule) = both(words)?;
                made_target(alloc, self, Kind::Make, target, rule)
            }
            "new" | "new_target" | "new_steps" => self.renew(alloc, name, words),
            "steps" => self.steps(alloc, words),
            _ => self.put(alloc, name, words),
        }
    }
}

impl Session for Conversions {
    fn carry_out(&mut self, alloc: Global, command: &Command) -> Result<Answer, CaseFault> {
        let words = command.words();
        match command.name() {
            "exe" => made_target(alloc, self, Kind::Exe, only(words)?, ""),
            "lib" => made_target(alloc, self, Kind::Lib, only(words)?, ""),
            "obj" => made_target(alloc, self, Kind::Obj, only(words)?, ""),
            "alias" => made_target(alloc, self, Kind::Alias, only(words)?, ""),
            "install" => made_target(alloc, self, Kind::Install, only(words)?, ""),
            name => self.other(alloc, name, words),
        }
    }
}
