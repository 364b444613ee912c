//! Running a file.
ghost use Rattle.std.specs.Prelude.{◌≡◌, ◌≤◌, is_some, IfErr};
ghost use Rattle.b2_host.specs.OutsideLaws.{Keeps};
ghost use Rattle.jam_grammar.specs.Trees.{whole_tree};
ghost use Rattle.jam_meaning.specs.Laws.{bounds};
ghost use Rattle.jam_meaning.specs.Refused.{TookTurn};
ghost use Rattle.jam_effects.specs.Causes.{refused_of, HoldsNoMemory};
ghost use Rattle.jam_effects.specs.Does.{TellsOn, Counts};
ghost use Rattle.jam_effects.specs.Views.{ended};
ghost use Rattle.jam_interp.specs.FunctionParts.{run_at};

use crate::statements::stmts;
use b2_base::path::Path;
use b2_host::files::Files;
use jam_effects::at::LEVELS;
use jam_effects::fault::EvalFault;
use jam_effects::frames::enter_here;
use jam_effects::turns::Turns;
use jam_grammar::tree::Tree;
use jam_meaning::natives::Natives;
use jam_scope::world::World;
use std::alloc::Global;

/// Runs the statements of a file in a frame of the present module. What it does is evaluation as it is defined, where the
/// meaning of the natives and the files are told.
///
/// A fault of the host comes only where its count of faults rose. When it ends, after a fault too, the frames are those that stood
/// at entry, and bind the same names; what was assigned stays.
pub fn run<N: Natives, F: Files>(
    alloc: Global,
    world: &mut World,
    path: &Path,
    tree: &Tree,
    turns: &mut Turns,
    natives: &mut N,
    files: &mut F,
) -> Result<(), EvalFault>
    ensures told { TellsOn N.kept N.meaning F.outside ended (run_at path.now (whole_tree tree.now)) world.old turns.old natives.old files.old world.new turns.new natives.new files.new result }
    ensures turns { turns.new.left ≤ turns.old.left }
    ensures budget { turns.new.budget ≡ turns.old.budget }
    ensures frames { bounds world.new.now.scopes.frames ≡ bounds world.old.now.scopes.frames }
    ensures step { is_some world.new.now.step ≡ is_some world.old.now.step }
    ensures marked { world.new.marked ≡ world.old.marked }
    ensures meaning { N.meaning natives.new ≡ N.meaning natives.old }
    ensures disk { (F.outside files.new).disk ≡ (F.outside files.old).disk }
    ensures children { (F.outside files.new).children ≡ (F.outside files.old).children }
    ensures keeps { Keeps (F.outside files.old) (F.outside files.new) }
    ensures counts { Counts result (F.outside files.old) (F.outside files.new) }
    ensures whole { IfErr result HoldsNoMemory }
    ensures took { TookTurn (refused_of result) turns.old.left turns.new.left }
{
    enter_here(alloc, world)?;
    let ended = stmts(
        alloc,
        world,
        turns,
        natives,
        files,
        tree.block.stmts.as_slice(),
        path.as_text(),
        LEVELS,
    );
    world.leave();
    match ended {
        Ok(_) => Ok(()),
        Err(fault) => Err(fault),
    }
}
