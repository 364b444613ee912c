//! Why the program refuses what it is asked for.
use b2_base::list::List;
use b2_base::path::Path;
use b2_generate::fault::GenFault;
use b2_project_walk::fault::LoadFault;
use b2_props::request_fault::RequestFault;
use jam_effects::fault::EvalFault;
use jam_graph::fault::JamFault;

/// Why the files of a project and the words of a command have no plan: their first fault. No fault within it is of the host or out
/// of memory.
#[derive(Drop)]
pub enum PlanRefusal {
    /// The projects are not loaded.
    Load(LoadFault),
    /// The words of the command are no request.
    Request(RequestFault),
    /// The request has no plan.
    Generation(GenFault<EvalFault>),
}

/// Why the program refuses what it is asked for. No fault within one is of the host or out of memory.
#[derive(Drop)]
pub enum Fault {
    /// The files of the project and the words of the command have no plan.
    Plan(PlanRefusal),
    /// The file of plain Jam mode has no graph, or its targets no plan.
    Jam(JamFault),
    /// Each of these steps, by their numbers, needs an output of the next one, and the last one of the first.
    StepCycle { list: List<u32> },
    /// The file, which is to be scanned for includes or digested, has this many bytes, which are more than may be.
    TooBig { path: Path, size: u64 },
}
