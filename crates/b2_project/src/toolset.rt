//! The toolset, whose build text runs where a call brings it in.
ghost use Rattle.std.specs.Prelude.{◌≡◌, codes, is_some, IfOk};
ghost use Rattle.std.specs.Option.{IfSome, option_copied};
ghost use Rattle.b2_project_walk.specs.Walking.{AreOfProjects};
ghost use Rattle.b2_project.specs.Loads.{toolset_of};
ghost use Rattle.b2_project.specs.LoadParts.{of_declaring, IsToolsetAt, IsTextOf, RunsToolset};

use b2_base::fault::OutOfMemory;
use b2_base::path::{Path, path_of};
use b2_base::text::Text;
use b2_declared::fault::DeclaringFault;
use b2_declared::tables::carry_out;
use b2_declared::visit::{Call, Visit};
use b2_declaring_calls::declaration::Declaration;
use b2_features::fault::FeatureFault;
use b2_gcc::text::gcc_text;
use b2_host::files::Files;
use b2_project_walk::fault::LoadFault;
use b2_project_walk::walk::WalkState;
use jam_effects::turns::Turns;
use std::alloc::Global;

fn text_path(alloc: Global) -> Result<Path, OutOfMemory>
    ensures { IfOk result (λ path. path ≡ codes "gcc") }
{
    path_of(alloc, "gcc")
}

/// Whether a call brings the toolset in; takes no memory.
fn brings_toolset(call: &Call) -> bool
    ensures { result ≡ is_some (toolset_of call.now.declaration) }
{
    matches!(call.declaration, Some(Declaration::Using { .. }))
}

/// The command of a call that brings the toolset in, if it gives one; takes no memory.
fn command_of(call: &Call) -> Option<&Text>
    ensures { IfSome (toolset_of call.now.declaration) (λ command. option_copied result ≡ command) }
{
    match &call.declaration {
        Some(Declaration::Using { command }) => command.as_ref(),
        _ => None,
    }
}

/// The place of the first call that brings the toolset in; takes no memory.
fn toolset_at(calls: &[Call]) -> Option<usize>
    ensures { IsToolsetAt calls.now result }
{
    for place in 0..calls.len() {
        if brings_toolset(&calls[place]) {
            return Some(place);
        }
    }
    None
}

/// The fault of a load whose calls are refused.
pub(crate) fn declaring_fault(fault: DeclaringFault) -> LoadFault
    ensures { result ≡ of_declaring fault }
{
    match fault {
        DeclaringFault::Declaration { path, rule, line } => {
            LoadFault::Declaration { path, rule, line }
        }
        DeclaringFault::Feature { path, line, fault } => {
            if let FeatureFault::OutOfMemory = fault {
                return LoadFault::OutOfMemory;
            }
            LoadFault::Feature { path, line, fault }
        }
        DeclaringFault::OutOfMemory => LoadFault::OutOfMemory,
    }
}

/// The build text of the toolset, where a call brings the toolset in and the calls up to that one can be carried out.
fn toolset_text(
    alloc: Global,
    visits: &[Visit],
    calls: &[Call],
) -> Result<Option<Vec<u8>>, LoadFault>
    requires { AreOfProjects visits.now calls.now }
    ensures { IsTextOf visits.now calls.now result }
{
    let Some(place) = toolset_at(calls) else {
        return Ok(None);
    };
    match carry_out(alloc, visits, &calls[..place + 1]) {
        Ok(()) => {}
        Err(fault) => return Err(declaring_fault(fault)),
    }
    let command = command_of(&calls[place]);
    let text = gcc_text(alloc, command)?;
    Ok(Some(text))
}

/// Runs the build text of the toolset, where a call brings the toolset in and the calls up to that one can be carried out.
pub(crate) fn run_toolset<F: Files>(
    alloc: Global,
    walk: &mut WalkState,
    files: &mut F,
    turns: &mut Turns,
) -> Result<(), LoadFault>
    requires { AreOfProjects walk.old.visits walk.old.calls.items }
    ensures { RunsToolset walk.old walk.new turns.old turns.new (F.outside files.old) (F.outside files.new) result }
{
    let Some(text) = toolset_text(alloc, walk.visits.as_slice(), walk.calls.as_slice())? else {
        return Ok(());
    };
    let path = text_path(alloc)?;
    walk.run_text(alloc, files, turns, path, text.as_slice())
}
