//! A text that runs beside the files of projects.
ghost use Rattle.std.specs.Prelude.{◌≡◌, ◌≤◌, is_some, IfErr};
ghost use Rattle.b2_host.specs.OutsideLaws.{Keeps};
ghost use Rattle.jam_meaning.specs.Laws.{bounds};
ghost use Rattle.jam_meaning.specs.Refused.{TookTurn};
ghost use Rattle.jam_values.specs.FileReadings.{reading_of};
ghost use Rattle.b2_project_walk.specs.Faults.{refused_of, IsOfWalk};
ghost use Rattle.b2_project_walk.specs.Finding.{Counts};
ghost use Rattle.b2_project_walk.specs.Walking.{TellsText};
ghost use Rattle.b2_project_walk.specs.WalkParts.{reads_text, reads_tree, runs_bytes, RunsBesideOn};

use crate::fault::{LoadFault, eval_fault, lex_fault, syntax_fault};
use crate::walk::WalkState;
use b2_base::path::Path;
use b2_host::files::Files;
use jam_effects::turns::Turns;
use jam_grammar::tree::Tree;
use jam_interp::run::run;
use jam_values::files::{FileReading, any_read};
use std::alloc::Global;

impl WalkState {
    /// Runs statements in the global module.
    fn run_tree<F: Files>(
        &mut self,
        alloc: Global,
        files: &mut F,
        turns: &mut Turns,
        path: &Path,
        tree: &Tree,
    ) -> Result<(), LoadFault>
        ensures ran { RunsBesideOn F.outside (reads_tree path.now tree.now) self.old turns.old files.old self.new turns.new files.new result }
        ensures rest { self.new ≡ record self.old { world = self.new.world; natives = self.new.natives } }
    {
        match run(
            alloc,
            &mut self.world,
            path,
            tree,
            turns,
            &mut self.natives,
            files,
        ) {
            Ok(()) => Ok(()),
            Err(fault) => Err(eval_fault(fault)),
        }
    }

    /// Runs the statements that a text reads as, or tells why it reads as none.
    fn run_reading<F: Files>(
        &mut self,
        alloc: Global,
        files: &mut F,
        turns: &mut Turns,
        path: Path,
        reading: FileReading,
    ) -> Result<(), LoadFault>
        ensures ran { RunsBesideOn F.outside (reads_text path (reading_of reading)) self.old turns.old files.old self.new turns.new files.new result }
        ensures rest { self.new ≡ record self.old { world = self.new.world; natives = self.new.natives } }
    {
        match reading {
            FileReading::Missing => Ok(()),
            FileReading::TooBig { size } => Err(LoadFault::TooBig { path, size }),
            FileReading::NoTokens(fault) => Err(lex_fault(path, fault)),
            FileReading::NoTree { line, found } => Err(syntax_fault(path, line, found)),
            FileReading::File(tree) => self.run_tree(alloc, files, turns, &path, &tree),
        }
    }

    /// Reads bytes, and runs what they say.
    fn run_bytes<F: Files>(
        &mut self,
        alloc: Global,
        files: &mut F,
        turns: &mut Turns,
        path: Path,
        bytes: &[u8],
    ) -> Result<(), LoadFault>
        ensures ran { RunsBesideOn F.outside (runs_bytes path bytes.now) self.old turns.old files.old self.new turns.new files.new result }
        ensures rest { self.new ≡ record self.old { world = self.new.world; natives = self.new.natives } }
    {
        let reading = any_read(alloc, bytes)?;
        self.run_reading(alloc, files, turns, path, reading)
    }

    /// Runs a text in the global module, as a file with this path; that text stands in no file. The projects, their calls and
    /// the directories that these name stay; what it records is kept with the rest. The fault is that of a file with this path.
    pub fn run_text<F: Files>(
        &mut self,
        alloc: Global,
        files: &mut F,
        turns: &mut Turns,
        path: Path,
        bytes: &[u8],
    ) -> Result<(), LoadFault>
        ensures told { TellsText (F.outside files.old) path bytes.now turns.old turns.new self.old self.new result }
        ensures rest { self.new ≡ record self.old { world = self.new.world; natives = self.new.natives } }
        ensures fault { IfErr result IsOfWalk }
        ensures step { is_some self.new.world.now.step ≡ is_some self.old.world.now.step }
        ensures frames { bounds self.new.world.now.scopes.frames ≡ bounds self.old.world.now.scopes.frames }
        ensures marked { self.new.world.marked ≡ self.old.world.marked }
        ensures turns { turns.new.left ≤ turns.old.left }
        ensures budget { turns.new.budget ≡ turns.old.budget }
        ensures took { TookTurn (refused_of result) turns.old.left turns.new.left }
        ensures disk { (F.outside files.new).disk ≡ (F.outside files.old).disk }
        ensures children { (F.outside files.new).children ≡ (F.outside files.old).children }
        ensures keeps { Keeps (F.outside files.old) (F.outside files.new) }
        ensures counts { Counts result (F.outside files.old) (F.outside files.new) }
    {
        self.run_bytes(alloc, files, turns, path, bytes)
    }
}
