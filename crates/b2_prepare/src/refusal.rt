//! Why the files and the words have no plan.
ghost use Rattle.std.specs.Prelude.{◌≡◌};
ghost use Rattle.b2_prepare.specs.Refusals.{stop_of_load, stop_of_request, stop_of_choice, stop_of_making, stop_of_generation};

use b2_alternatives::fault::ChoiceFault;
use b2_generate::fault::GenFault;
use b2_making::fault::MakingFault;
use b2_project::load::LoadFault;
use b2_props::request_fault::RequestFault;
use b2_refusals::fault::PlanRefusal;
use jam_effects::fault::EvalFault;

/// Why there is no plan.
#[derive(Drop)]
pub enum PlanStop {
    /// The files or the words are refused. No fault of the host and no out of memory is within the refusal.
    Refused(PlanRefusal),
    /// A call of the host failed while the projects were loaded.
    HostInLoad,
    /// A call of the host failed after that, in generation.
    HostInGeneration,
    OutOfMemory,
}

/// A load that ended with a fault: one of the host and out of memory stay what they are, any other is a refusal.
pub(crate) fn not_loaded(fault: LoadFault) -> PlanStop
    ensures { result ≡ stop_of_load fault }
{
    match fault {
        LoadFault::Host => PlanStop::HostInLoad,
        LoadFault::OutOfMemory => PlanStop::OutOfMemory,
        other => PlanStop::Refused(PlanRefusal::Load(other)),
    }
}

/// The same of a request.
pub(crate) fn not_asked(fault: RequestFault) -> PlanStop
    ensures { result ≡ stop_of_request fault }
{
    match fault {
        RequestFault::OutOfMemory => PlanStop::OutOfMemory,
        other => PlanStop::Refused(PlanRefusal::Request(other)),
    }
}

/// The same of the call of an indirect requirement's rule.
fn not_returned(fault: EvalFault) -> PlanStop
    ensures { result ≡ stop_of_choice (ChoiceFault.Eval fault) }
{
    match fault {
        EvalFault::Host => PlanStop::HostInGeneration,
        EvalFault::OutOfMemory => PlanStop::OutOfMemory,
        other => PlanStop::Refused(PlanRefusal::Generation(GenFault::NotChosen(ChoiceFault::Eval(
            other,
        )))),
    }
}

/// The same of the choice of an alternative.
fn not_chosen(fault: ChoiceFault<EvalFault>) -> PlanStop
    ensures { result ≡ stop_of_choice fault }
{
    match fault {
        ChoiceFault::Eval(fault) => not_returned(fault),
        ChoiceFault::OutOfMemory => PlanStop::OutOfMemory,
        other => PlanStop::Refused(PlanRefusal::Generation(GenFault::NotChosen(other))),
    }
}

/// The same of the text of a step.
fn not_written(fault: EvalFault) -> PlanStop
    ensures { result ≡ stop_of_making (MakingFault.Eval fault) }
{
    match fault {
        EvalFault::Host => PlanStop::HostInGeneration,
        EvalFault::OutOfMemory => PlanStop::OutOfMemory,
        other => PlanStop::Refused(PlanRefusal::Generation(GenFault::NotMade(MakingFault::Eval(
            other,
        )))),
    }
}

/// The same of the steps of a main target.
fn not_made(fault: MakingFault<EvalFault>) -> PlanStop
    ensures { result ≡ stop_of_making fault }
{
    match fault {
        MakingFault::Eval(fault) => not_written(fault),
        MakingFault::OutOfMemory => PlanStop::OutOfMemory,
        other => PlanStop::Refused(PlanRefusal::Generation(GenFault::NotMade(other))),
    }
}

/// What is asked for has no plan.
pub(crate) fn not_planned(fault: GenFault<EvalFault>) -> PlanStop
    ensures { result ≡ stop_of_generation fault }
{
    match fault {
        GenFault::NotChosen(fault) => not_chosen(fault),
        GenFault::NotMade(fault) => not_made(fault),
        GenFault::OutOfMemory => PlanStop::OutOfMemory,
        other => PlanStop::Refused(PlanRefusal::Generation(other)),
    }
}
