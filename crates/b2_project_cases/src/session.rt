//! The commands by their names.
use crate::host::{edit, fail_calls};
use crate::load::{Kept, load};
use crate::projects::{decls, indirect, projects, targets, tests};
use crate::tables::{dirs, features, look_up, parts_of};
use b2_base::fault::OutOfMemory;
use b2_declared::whole::Declared;
use b2_memory::memory::MemoryHost;
use b2_project::project::Project;
use jam_effects::turns::Turns;
use jam_interp_cases::evaluation::session::set_turns;
use std::alloc::Global;
use std::mem::ManuallyDrop;
use transcript::answer::Answer;
use transcript::case_fault::CaseFault;
use transcript::command::{Command, Word};
use transcript::session::Session;
use transcript::words::{number, texts};

/// The files, how many turns each load has, how many the last one left, and what was loaded last.
#[derive(Drop)]
pub struct Loads {
    host: ManuallyDrop<MemoryHost>,
    budget: u32,
    left: u32,
    last: Option<Box<Kept>>,
}

/// Shows something of the tables of features, types and generators.
fn shown_of_tables(
    alloc: Global,
    declared: &Declared,
    command: &str,
    words: &[Word],
) -> Result<Answer, CaseFault> {
    match command {
        "count" => Answer::number(alloc, declared.registry.count() as u64),
        "find" => features(alloc, &declared.registry, words),
        "parts_of" => parts_of(alloc, &declared.registry, words),
        "type_of" | "suffix_of" | "generator" => look_up(alloc, &declared.types, command, words),
        _ => Err(CaseFault::UnknownCommand),
    }
}

/// Shows something of what is declared.
fn shown_of_declared(
    alloc: Global,
    declared: &Declared,
    command: &str,
    words: &[Word],
) -> Result<Answer, CaseFault> {
    match command {
        "projects" => projects(alloc, declared.places.as_slice()),
        "targets" => targets(alloc, declared.targets.as_slice()),
        "tests" => tests(alloc, declared.tests.as_slice()),
        "indirect" => indirect(alloc, declared.indirect.as_slice()),
        "dir_of" => dirs(alloc, &declared.ids, words),
        _ => shown_of_tables(alloc, declared, command, words),
    }
}

/// Shows something of a project.
fn shown(
    alloc: Global,
    project: &Project,
    command: &str,
    words: &[Word],
) -> Result<Answer, CaseFault> {
    match command {
        "roots" => Answer::paths(alloc, project.world.roots()),
        "decls" => decls(alloc, project.natives.decls()),
        _ => shown_of_declared(alloc, &project.declared, command, words),
    }
}

/// Shows something of what was loaded last.
fn show(alloc: Global, last: &Option<Box<Kept>>, command: &Command) -> Result<Answer, CaseFault> {
    match last {
        Some(project) => shown(alloc, project, command.name(), command.words()),
        None => Err(CaseFault::WrongWords),
    }
}

/// Shows the turns that the last load left, or something of what was loaded last.
fn look(
    alloc: Global,
    left: u32,
    last: &Option<Box<Kept>>,
    command: &Command,
) -> Result<Answer, CaseFault> {
    match command.name() {
        "left" => Answer::number(alloc, left as u64),
        _ => show(alloc, last, command),
    }
}

impl Loads {
    /// No files, and nothing loaded.
    pub fn new(alloc: Global) -> Result<Loads, OutOfMemory> {
        Ok(Loads {
            host: ManuallyDrop::new(MemoryHost::new(alloc)?),
            budget: 1_000_000,
            left: 0,
            last: None,
        })
    }

    fn renew(&mut self, alloc: Global) -> Result<Answer, CaseFault> {
        *self = Loads::new(alloc)?;
        Ok(Answer::new(alloc))
    }

    fn load(&mut self, alloc: Global, words: &[Word]) -> Result<Answer, CaseFault> {
        let words = texts(alloc, words)?;
        let mut turns = Turns::new(self.budget);
        let answer = load(
            alloc,
            &mut self.host,
            words.as_slice(),
            &mut turns,
            &mut self.last,
        );
        self.left = turns.left;
        answer
    }
}

impl Session for Loads {
    fn carry_out(&mut self, alloc: Global, command: &Command) -> Result<Answer, CaseFault> {
        let words = command.words();
        match command.name() {
            "new" => self.renew(alloc),
            "edit" => edit(alloc, &mut self.host, command),
            "turns" => set_turns(alloc, &mut self.budget, words),
            "fail_calls" => fail_calls(alloc, &mut self.host, words),
            "load" => self.load(alloc, words),
            _ => look(alloc, self.left, &self.last, command),
        }
    }
}
