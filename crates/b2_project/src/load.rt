//! Loading.
ghost use Rattle.std.specs.Prelude.{◌≡◌, ◌≤◌, [], false, is_some, IfOk, IfErr};
ghost use Rattle.b2_host.specs.OutsideLaws.{Keeps};
ghost use Rattle.jam_natives.specs.Seeing.{kept_of};
ghost use Rattle.b2_project_walk.specs.Faults.{IsWhole};
ghost use Rattle.b2_project_walk.specs.Finding.{Counts};
ghost use Rattle.b2_project_walk.specs.Walking.{IsNew, AreOfProjects};
ghost use Rattle.b2_project.specs.Loading.{TellsLoad, HasParentsBefore, IsDeclaredBy, IsOfCalls, AreRecordedIn};
ghost use Rattle.b2_declared.specs.Numbered.{IsNumbered};
ghost use Rattle.b2_project.specs.LoadParts.{AreOwned, GoesThrough, IsDeclaredOf, IsFoundOf, IsToldOf, project_of, project_in};

use crate::project::Project;
use crate::toolset::{declaring_fault, run_toolset};
use b2_base::fault::OutOfMemory;
use b2_base::text::Text;
use b2_base::text_list::{TextList, copy_texts};
use b2_declared::outcome::declared;
use b2_declared::whole::Declared;
use b2_host::files::Files;
pub use b2_project_walk::fault::LoadFault;
use b2_project_walk::walk::WalkState;
use jam_effects::turns::Turns;
use std::alloc::Global;

/// The lines of ECHO, in order, and the project or why there is none.
#[derive(Drop)]
pub struct Loaded {
    pub echoes: TextList,
    pub result: Result<Project, LoadFault>,
}

/// Visits all projects, and runs the build text of the toolset, where a call brings it in.
fn go_through<F: Files>(
    alloc: Global,
    walk: &mut WalkState,
    files: &mut F,
    turns: &mut Turns,
    words: &[Text],
) -> Result<(), LoadFault>
    requires { IsNew walk.old }
    ensures { GoesThrough words.now walk.new turns.old turns.new (F.outside files.old) (F.outside files.new) result }
{
    walk.load_all(alloc, files, turns, words)?;
    run_toolset(alloc, walk, files, turns)
}

/// What the calls of a walk declare.
fn declares(alloc: Global, walk: &WalkState) -> Result<Declared, LoadFault>
    requires { AreOfProjects walk.now.visits walk.now.calls.items }
    ensures { IsDeclaredOf walk.now result }
{
    match declared(alloc, walk.visits.as_slice(), walk.calls.as_slice()) {
        Ok(declared) => Ok(declared),
        Err(fault) => Err(declaring_fault(fault)),
    }
}

/// What a walk that ended so leads to.
fn found_of(
    alloc: Global,
    walk: &WalkState,
    ended: Result<(), LoadFault>,
) -> Result<Declared, LoadFault>
    requires { AreOwned ended walk.now }
    ensures { IsFoundOf walk.now ended result }
{
    match ended {
        Ok(()) => declares(alloc, walk),
        Err(fault) => Err(fault),
    }
}

/// The lines that were recorded.
fn lines_of(alloc: Global, walk: &WalkState) -> Result<TextList, OutOfMemory>
    ensures { IfOk result (λ lines. lines ≡ (kept_of walk.now.natives).echoes) }
{
    copy_texts(alloc, walk.natives.echoes())
}

/// The lines of a walk, and what it leads to.
struct WalkReport {
    echoes: TextList,
    found: Result<Declared, LoadFault>,
}

/// What a walk that ended so tells; out of memory, where there was none for its lines. These are those that were recorded, also
/// where the host failed.
fn told_of(alloc: Global, walk: &WalkState, ended: Result<(), LoadFault>) -> WalkReport
    requires { AreOwned ended walk.now }
    ensures { IsToldOf walk.now ended result }
{
    match lines_of(alloc, walk) {
        Ok(echoes) => WalkReport {
            echoes,
            found: found_of(alloc, walk, ended),
        },
        Err(_) => WalkReport {
            echoes: TextList::new(alloc),
            found: Err(LoadFault::OutOfMemory),
        },
    }
}

/// The project of a walk: its world, what its natives keep, and what its calls declare.
fn project_of(walk: WalkState, declared: Declared) -> Project
    ensures { result ≡ project_of walk declared }
{
    Project {
        world: walk.world,
        natives: walk.natives,
        declared,
    }
}

fn answer(walk: WalkState, echoes: TextList, found: Result<Declared, LoadFault>) -> Loaded
    ensures echoes { result.echoes ≡ echoes }
    ensures result { result.result ≡ project_in walk found }
{
    match found {
        Ok(declared) => Loaded {
            echoes,
            result: Ok(project_of(walk, declared)),
        },
        Err(fault) => Loaded {
            echoes,
            result: Err(fault),
        },
    }
}

/// No memory was left.
fn no_memory(alloc: Global) -> Loaded
    ensures echoes { result.echoes ≡ [] }
    ensures result { result.result ≡ Err LoadFault.OutOfMemory }
{
    Loaded {
        echoes: TextList::new(alloc),
        result: Err(LoadFault::OutOfMemory),
    }
}

/// Loads the projects of a folder: Jamroot, and each directory that files and the target words of a request name, in order
/// of first naming; then carries out what the files declare. All files share the turns. A word without `//` names no
/// directory, so that words of properties may stand among the target words.
///
/// The build text of the toolset runs once the calls up to the first `using` are carried out. Where its command makes it longer
/// than 1,048,576 bytes, the fault is `TooBig` with the path `gcc`.
///
/// A fault of the host comes only where the count of its faults rose. Of a project each number is a place in the list that
/// it leads to, a parent stands before its project, and in its world no frame and no step is open and no world is marked.
///
/// After a fault of the host the lines of ECHO are the first of the whole load's, where files are visible; how many is not told.
pub fn load<F: Files>(alloc: Global, files: &mut F, words: &[Text], turns: &mut Turns) -> Loaded
    ensures told { TellsLoad (F.outside files.old) words.now turns.old turns.new result.echoes result.result }
    ensures whole { IfErr result.result IsWhole }
    ensures declares { IfOk result.result (λ project. IsDeclaredBy words.now project.declared) }
    ensures refused { IfErr result.result (IsOfCalls words.now) }
    ensures lines { IfOk result.result (λ project. AreRecordedIn project result.echoes) }
    ensures sound { IfOk result.result (λ project. IsNumbered project.declared) }
    ensures parents { IfOk result.result (λ project. HasParentsBefore project.declared) }
    ensures step { IfOk result.result (λ project. is_some project.world.now.step ≡ false) }
    ensures frames { IfOk result.result (λ project. project.world.now.scopes.frames ≡ []) }
    ensures marked { IfOk result.result (λ project. project.world.marked ≡ []) }
    ensures turns { turns.new.left ≤ turns.old.left }
    ensures budget { turns.new.budget ≡ turns.old.budget }
    ensures disk { (F.outside files.new).disk ≡ (F.outside files.old).disk }
    ensures children { (F.outside files.new).children ≡ (F.outside files.old).children }
    ensures keeps { Keeps (F.outside files.old) (F.outside files.new) }
    ensures counts { Counts result.result (F.outside files.old) (F.outside files.new) }
{
    let mut walk = match WalkState::new(alloc) {
        Ok(walk) => walk,
        Err(_) => return no_memory(alloc),
    };
    let ended = go_through(alloc, &mut walk, files, turns, words);
    let told = told_of(alloc, &walk, ended);
    let WalkReport { echoes, found } = told;
    answer(walk, echoes, found)
}
