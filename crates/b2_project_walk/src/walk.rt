//! The projects of a load, visited one after another.
ghost use Rattle.std.specs.Prelude.{◌≡◌, ◌≤◌, ◌++◌, [], true, false, is_some, ℕ, None, IfOk, IfErr, OnOk, OnErr};
ghost use Rattle.b2_host.specs.OutsideLaws.{Keeps};
ghost use Rattle.jam_grammar.specs.Trees.{whole_tree};
ghost use Rattle.jam_meaning.specs.Refused.{TookTurn};
ghost use Rattle.jam_values.specs.FileReadings.{reading_of};
ghost use Rattle.b2_declaring_calls.specs.Directories.{directories as directories_of};
ghost use Rattle.b2_project_walk.specs.Directories.{way_to, is_visited, first_new};
ghost use Rattle.b2_base.specs.Segments.{here};
ghost use Rattle.b2_project_walk.specs.Faults.{refused_of, IsOfWalk};
ghost use Rattle.b2_project_walk.specs.Finding.{Counts};
ghost use Rattle.b2_project_walk.specs.Walking.{walk_of, IsNew, TellsWalk, AreOfProjects, AreVisited, AreAllVisited};
ghost use Rattle.b2_project_walk.specs.WalkParts.{runs_tree, found_as, visits_dir, visits_all, loads_dir, loads_root, walked, walked_all, ArePassed, IsNext, RunsFile, IsAdded, DoesOn};

use crate::calls::{append, calls_of, names_of_all, rest_of};
use crate::directories::way_to;
use crate::fault::{LoadFault, eval_fault, lex_fault, syntax_fault};
use crate::laws::files_keep_parents;
use crate::project_file::find_file;
use crate::queue::Queue;
use crate::running::run_project;
use crate::visits::Visits;
use b2_base::fault::OutOfMemory;
use b2_base::path::{Path, folder};
use b2_base::text::Text;
use b2_declared::visit::{Call, Visit};
use b2_declaring_calls::naming::directories;
use b2_host::files::Files;
use jam_effects::fault::EvalFault;
use jam_effects::turns::Turns;
use jam_grammar::tree::Tree;
use jam_natives::natives::JamNatives;
use jam_scope::world::World;
use jam_values::files::FileReading;
use std::alloc::Global;

/// What was loaded so far: the world, what the natives keep, the projects that were visited, their calls of declaring rules, and
/// the directories that these name.
#[derive(Drop)]
pub struct WalkState {
    pub world: World,
    pub natives: JamNatives,
    pub visits: Visits,
    pub calls: Vec<Call>,
    pub(crate) named: Queue,
}

fn add_calls(calls: &mut Vec<Call>, more: Vec<Call>) -> Result<(), OutOfMemory>
    ensures { OnOk result (calls.new.items ≡ calls.old.items ++ more.items) }
{
    for call in more {
        calls.push(call)?;
    }
    Ok(())
}

impl WalkState {
    /// A walk that has not begun: no directory was visited.
    pub fn new(alloc: Global) -> Result<WalkState, OutOfMemory>
        ensures { IfOk result IsNew }
    {
        Ok(WalkState {
            world: World::new(alloc)?,
            natives: JamNatives::new(alloc),
            visits: Visits::new(alloc),
            calls: Vec::new(alloc),
            named: Queue::new(alloc),
        })
    }

    /// Adds a project whose file has ended, where so many calls had been recorded before.
    fn add(&mut self, alloc: Global, visit: Visit, before: usize) -> Result<(), OutOfMemory>
        requires { IsNext visit self.old.visits }
        ensures walk { OnOk result (IsAdded visit before self.old self.new) }
        ensures passed { OnOk result (self.new.named.passed ≡ self.old.named.passed) }
        ensures err { OnErr result (self.new.world ≡ self.old.world) }
    {
        let project = self.visits.len();
        let calls = calls_of(alloc, project, rest_of(self.natives.decls(), before))?;
        let dirs = names_of_all(alloc, &visit.dir, calls.as_slice())?;
        self.visits.push(visit)?;
        append(&mut self.named.dirs, dirs)?;
        add_calls(&mut self.calls, calls)?;
        self.world.freeze_roots();
        Ok(())
    }

    /// Runs the file of a project that was not visited.
    fn run_file<F: Files>(
        &mut self,
        alloc: Global,
        files: &mut F,
        turns: &mut Turns,
        visit: &Visit,
        tree: &Tree,
    ) -> Result<(), EvalFault>
        ensures ran { RunsFile F.outside visit.now (whole_tree tree.now) self.old turns.old files.old self.new turns.new files.new result }
        ensures rest { self.new ≡ record self.old { world = self.new.world; natives = self.new.natives } }
    {
        let above = match self.visits.above(visit) {
            Some(above) => Some(&above.module),
            None => None,
        };
        run_project(
            alloc,
            &mut self.world,
            &mut self.natives,
            turns,
            files,
            visit,
            above,
            tree,
        )
    }

    /// Visits a directory whose project file has this tree.
    fn visit_tree<F: Files>(
        &mut self,
        alloc: Global,
        files: &mut F,
        turns: &mut Turns,
        visit: Visit,
        tree: &Tree,
    ) -> Result<(), LoadFault>
        requires { IsNext visit self.old.visits }
        ensures { DoesOn F.outside (runs_tree visit (whole_tree tree.now)) self.old turns.old files.old self.new turns.new files.new result }
    {
        files_keep_parents();
        let before = self.natives.decls().len();
        match self.run_file(alloc, files, turns, &visit, tree) {
            Ok(()) => {}
            Err(fault) => return Err(eval_fault(fault)),
        }
        self.add(alloc, visit, before)?;
        Ok(())
    }

    /// Visits a directory that has a project file, which reads so.
    fn visit_file<F: Files>(
        &mut self,
        alloc: Global,
        files: &mut F,
        turns: &mut Turns,
        dir: &Path,
        path: Path,
        reading: FileReading,
    ) -> Result<(), LoadFault>
        requires { is_visited dir.now self.old.visits ≡ false }
        ensures { DoesOn F.outside (found_as dir.now (path, reading_of reading)) self.old turns.old files.old self.new turns.new files.new result }
    {
        match reading {
            FileReading::Missing => Ok(()),
            FileReading::TooBig { size } => Err(LoadFault::TooBig { path, size }),
            FileReading::NoTokens(fault) => Err(lex_fault(path, fault)),
            FileReading::NoTree { line, found } => Err(syntax_fault(path, line, found)),
            FileReading::File(tree) => {
                let visit = self.visits.visit_of(alloc, dir, path)?;
                self.visit_tree(alloc, files, turns, visit, &tree)
            }
        }
    }

    /// Visits a directory, where it has a project file and was not visited.
    fn visit<F: Files>(
        &mut self,
        alloc: Global,
        files: &mut F,
        turns: &mut Turns,
        dir: &Path,
    ) -> Result<(), LoadFault>
        ensures { DoesOn F.outside (visits_dir dir.now) self.old turns.old files.old self.new turns.new files.new result }
    {
        if self.visits.has(dir) {
            return Ok(());
        }
        match find_file(alloc, &self.world, files, dir)? {
            None => Ok(()),
            Some(file) => self.visit_file(alloc, files, turns, dir, file.path, file.reading),
        }
    }

    /// Visits directories in order.
    fn visit_all<F: Files>(
        &mut self,
        alloc: Global,
        files: &mut F,
        turns: &mut Turns,
        dirs: &[Path],
    ) -> Result<(), LoadFault>
        ensures { DoesOn F.outside (visits_all dirs.now) self.old turns.old files.old self.new turns.new files.new result }
    {
        for dir in dirs {
            self.visit(alloc, files, turns, dir)?;
        }
        Ok(())
    }

    /// Visits the directories on the way to a directory, and itself as the last.
    fn visit_way<F: Files>(
        &mut self,
        alloc: Global,
        files: &mut F,
        turns: &mut Turns,
        dir: &Path,
    ) -> Result<(), LoadFault>
        ensures { DoesOn F.outside (visits_all (way_to dir.now)) self.old turns.old files.old self.new turns.new files.new result }
    {
        let way = way_to(alloc, dir)?;
        self.visit_all(alloc, files, turns, way.as_slice())
    }

    /// Loads a directory: visits the directories on the way to it, and then it has to be one of the projects.
    fn load_dir<F: Files>(
        &mut self,
        alloc: Global,
        files: &mut F,
        turns: &mut Turns,
        dir: &Path,
    ) -> Result<(), LoadFault>
        ensures does { DoesOn F.outside (loads_dir dir.now) self.old turns.old files.old self.new turns.new files.new result }
        ensures visited { OnOk result (is_visited dir.now self.new.visits ≡ true) }
    {
        self.visit_way(alloc, files, turns, dir)?;
        if self.visits.has(dir) {
            return Ok(());
        }
        Err(LoadFault::NoJamfile { dir: dir.copy()? })
    }

    fn load_root<F: Files>(
        &mut self,
        alloc: Global,
        files: &mut F,
        turns: &mut Turns,
    ) -> Result<(), LoadFault>
        ensures does { DoesOn F.outside loads_root self.old turns.old files.old self.new turns.new files.new result }
        ensures visited { OnOk result (is_visited here self.new.visits ≡ true) }
    {
        let folder = folder(alloc)?;
        self.visit(alloc, files, turns, &folder)?;
        if !self.visits.has(&folder) {
            return Err(LoadFault::NoJamroot);
        }
        Ok(())
    }

    /// The directory that is due, if there is one: the first one that was named and not visited, where those that target words name,
    /// `last`, come last.
    fn due(&mut self, last: &mut Queue) -> Result<Option<Path>, OutOfMemory>
        requires named { ArePassed self.old.visits self.old.named.passed self.old.named.dirs.items }
        requires last { ArePassed self.old.visits last.old.passed last.old.dirs.items }
        ensures value { IfOk result (λ dir. dir ≡ first_new self.old.visits (self.old.named.dirs.items ++ last.old.dirs.items)) }
        ensures walk { (left : ℕ) → walk_of self.new left ≡ walk_of self.old left }
        ensures named { ArePassed self.new.visits self.new.named.passed self.new.named.dirs.items }
        ensures last { ArePassed self.new.visits last.new.passed last.new.dirs.items }
        ensures words { last.new.dirs ≡ last.old.dirs }
    {
        self.named.pass(&self.visits);
        last.pass(&self.visits);
        if let Some(dir) = self.named.front() {
            return Ok(Some(dir.copy()?));
        }
        match last.front() {
            Some(dir) => Ok(Some(dir.copy()?)),
            None => Ok(None),
        }
    }

    /// Loads the directories that are named, until none is new.
    fn load_named<F: Files>(
        &mut self,
        alloc: Global,
        files: &mut F,
        turns: &mut Turns,
        words: &[Text],
    ) -> Result<(), LoadFault>
        requires { ArePassed self.old.visits self.old.named.passed self.old.named.dirs.items }
        ensures does { DoesOn F.outside (walked words.now) self.old turns.old files.old self.new turns.new files.new result }
        ensures whole { OnOk result (first_new self.new.visits (self.new.named.dirs.items ++ directories_of here words.now) ≡ None) }
    {
        let folder = folder(alloc)?;
        let mut last = Queue::of(directories(alloc, &folder, words)?);
        'named: while let Some(dir) = self.due(&mut last)? {
            self.load_dir(alloc, files, turns, &dir)?;
            self.visits.few();
        }
        Ok(())
    }

    /// Loads Jamroot, and then the directories that are named.
    fn load_from_root<F: Files>(
        &mut self,
        alloc: Global,
        files: &mut F,
        turns: &mut Turns,
        words: &[Text],
    ) -> Result<(), LoadFault>
        requires passed { ArePassed self.old.visits self.old.named.passed self.old.named.dirs.items }
        requires visited { AreVisited self.old.visits self.old.calls.items self.old.named.dirs.items }
        ensures does { DoesOn F.outside (walked_all words.now) self.old turns.old files.old self.new turns.new files.new result }
        ensures visited { OnOk result (AreAllVisited words.now self.new.visits self.new.calls.items) }
    {
        self.load_root(alloc, files, turns)?;
        self.load_named(alloc, files, turns, words)
    }

    /// Loads Jamroot, and then, until none is new, each directory that the files or the target words of a request name, in order of
    /// first naming; those that words name come last. The directories above one are loaded before it, from the top down, where they
    /// have a project file; the nearest of them is its parent. All files share the turns.
    ///
    /// A word that has no `//` names no directory. A directory that was passed over, since it has no project file, may be looked at
    /// again. After a fault the walk has what was loaded before it.
    pub fn load_all<F: Files>(
        &mut self,
        alloc: Global,
        files: &mut F,
        turns: &mut Turns,
        words: &[Text],
    ) -> Result<(), LoadFault>
        requires { IsNew self.old }
        ensures told { TellsWalk (F.outside files.old) words.now turns.old turns.new self.new result }
        ensures fault { IfErr result IsOfWalk }
        ensures visited { OnOk result (AreAllVisited words.now self.new.visits self.new.calls.items) }
        ensures projects { OnOk result (AreOfProjects self.new.visits self.new.calls.items) }
        ensures step { is_some self.new.world.now.step ≡ false }
        ensures frames { self.new.world.now.scopes.frames ≡ [] }
        ensures marked { self.new.world.marked ≡ [] }
        ensures turns { turns.new.left ≤ turns.old.left }
        ensures budget { turns.new.budget ≡ turns.old.budget }
        ensures took { TookTurn (refused_of result) turns.old.left turns.new.left }
        ensures disk { (F.outside files.new).disk ≡ (F.outside files.old).disk }
        ensures children { (F.outside files.new).children ≡ (F.outside files.old).children }
        ensures keeps { Keeps (F.outside files.old) (F.outside files.new) }
        ensures counts { Counts result (F.outside files.old) (F.outside files.new) }
    {
        self.load_from_root(alloc, files, turns, words)
    }
}
