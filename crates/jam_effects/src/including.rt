//! Files that are included.
ghost use Rattle.std.specs.Prelude.{◌≡◌, None, IfErr};
ghost use Rattle.jam_meaning.specs.Faults.{include, lex, too_big as too_big_of};
ghost use Rattle.jam_meaning.specs.Includes.{in_file};
ghost use Rattle.jam_values.specs.FileReadings.{reading_of};
ghost use Rattle.jam_effects.specs.Causes.{cause_of, refused_of, IsWhole, HoldsNoMemory, IsFault};
ghost use Rattle.jam_effects.specs.Including.{read_of, IsTreeOf, IncludeTold, IsFrozen, Looked};
ghost use Rattle.jam_effects.specs.Spots.{spot_of};

use crate::at::At;
use crate::fault::{EvalCause, EvalFault};
use b2_base::path::{Path, path_from};
use b2_base::text::Text;
use b2_host::fault::IoFault;
use b2_host::files::Files;
use jam_grammar::tree::Tree;
use jam_lexer::fault::LexFault;
use jam_scope::world::World;
use jam_values::files::{FileReading, read_file};
use jam_values::paths::is_below_any;
use std::alloc::Global;

/// A file with its statements.
#[derive(Drop)]
pub struct IncludedFile {
    pub path: Path,
    pub tree: Tree,
}

/// The fault of an include, at the line of the include in the file itself.
fn fault_in(path: &Path, at: &At<'_>, cause: EvalCause) -> EvalFault
    requires { IsWhole (cause_of cause) }
    ensures { IsFault (in_file path.now (spot_of at.now)) (cause_of cause) result }
{
    let there = At {
        path: path.as_text(),
        line: at.line,
        levels: at.levels,
    };
    there.fault(cause)
}

/// The fault of a file that has no tokens.
fn lexed(fault: LexFault, path: &Path, at: &At<'_>) -> EvalFault
    ensures { IsFault (in_file path.now (spot_of at.now)) (lex fault) result }
{
    match fault {
        LexFault::OutOfMemory => EvalFault::OutOfMemory,
        fault => fault_in(path, at, EvalCause::Lex(fault)),
    }
}

/// The statements of a file that was read, or the fault of the include.
#[tactic(auto, using(crate::proofs::OrderedCallsDoAsDefined::fault_whole))]
fn statements(reading: FileReading, path: &Path, at: &At<'_>) -> Result<Tree, EvalFault>
    ensures tree { IsTreeOf (read_of (reading_of reading) path.now (spot_of at.now)) result }
    ensures whole { IfErr result HoldsNoMemory }
{
    match reading {
        FileReading::Missing => Err(missing(path, at)),
        FileReading::TooBig { size } => Err(too_big(path, size, at)),
        FileReading::NoTokens(fault) => Err(lexed(fault, path, at)),
        FileReading::NoTree { line, found } => Err(fault_in(
            path,
            at,
            EvalCause::Syntax { line, found },
        )),
        FileReading::File(tree) => Ok(tree),
    }
}

/// The fault of a file that is not there.
fn missing(path: &Path, at: &At<'_>) -> EvalFault
    ensures { IsFault (spot_of at.now) (include path.now) result }
{
    match path.copy() {
        Ok(path) => at.fault(EvalCause::Include { path }),
        Err(_) => EvalFault::OutOfMemory,
    }
}

/// The fault of a file that is too big.
fn too_big(path: &Path, size: u64, at: &At<'_>) -> EvalFault
    ensures { IsFault (in_file path.now (spot_of at.now)) (too_big_of path.now size) result }
{
    match path.copy() {
        Ok(copy) => fault_in(path, at, EvalCause::TooBig { path: copy, size }),
        Err(_) => EvalFault::OutOfMemory,
    }
}

/// Reads the file of a name, relative to the project's directory. No output root is added from then on; a file below one counts
/// as missing.
#[tactic(auto, using(crate::proofs::OrderedCallsDoAsDefined::fault_whole))]
pub fn read_include<F: Files>(
    alloc: Global,
    world: &mut World,
    files: &mut F,
    name: &Text,
    at: &At<'_>,
) -> Result<IncludedFile, EvalFault>
    ensures world { IsFrozen world.old world.new result }
    ensures told { IncludeTold (F.outside files.old).disk world.old.now name.now (spot_of at.now) result }
    ensures effect { Looked (F.outside files.old) (F.outside files.new) result }
    ensures foreseen { refused_of result ≡ None }
{
    let path = path_from(alloc, world.place(), name.as_str())?;
    world.freeze_roots();
    if is_below_any(&path, world.roots()) {
        return Err(missing(&path, at));
    }
    let reading = match read_file(alloc, files, &path) {
        Ok(reading) => reading,
        Err(IoFault::Failed) => return Err(EvalFault::Host),
        Err(IoFault::OutOfMemory) => return Err(EvalFault::OutOfMemory),
    };
    let tree = statements(reading, &path, at)?;
    Ok(IncludedFile { path, tree })
}
