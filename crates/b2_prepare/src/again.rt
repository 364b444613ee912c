//! Generation once more, after a pattern was refused in it although it reads as one.
ghost use Rattle.std.specs.Prelude.{◌≡◌};
ghost use Rattle.b2_declared.specs.Numbered.{IsNumbered};
ghost use Rattle.b2_own_text.specs.AskedQuestions.{EndsOn};
ghost use Rattle.b2_prepare.specs.PlanningParts.{planned_or_stop};
ghost use Rattle.b2_prepare.specs.Again.{is_refusal, is_refused_answer, stop_of_text, host_or_memory, refusal_or_stop, AnswersAgainOn, SettlesOn};

use crate::planning::plan_in;
use crate::refusal::{PlanStop, not_planned};
use b2_alternatives::fault::ChoiceFault;
use b2_base::path_list::copy_paths;
use b2_declared::whole::Declared;
use b2_generate::fault::GenFault;
use b2_host::files::Files;
use b2_making::fault::MakingFault;
use b2_own_text::lending_moment::LendingMoment;
use b2_own_text::own_text::OwnText;
use b2_own_text::refused::is_refused;
use b2_own_text::refusing::Refusing;
use b2_props::request::Request;
use b2_request_plan::plan::PlanAnswer;
use b2_request_plan::planned::Planned;
use jam_effects::fault::EvalFault;
use std::alloc::Global;

/// The own text of a loaded project after a request was planned by it, and the plan or why there is none.
#[derive(Drop)]
pub(crate) struct PlanningEnd<'a, F: Files, S: LendingMoment> {
    pub(crate) own: OwnText<'a, F, S>,
    pub(crate) result: Result<Planned, PlanStop>,
}

fn planned_or_stop(generated: Result<Planned, GenFault<EvalFault>>) -> Result<Planned, PlanStop>
    ensures { result ≡ planned_or_stop generated }
{
    match generated {
        Ok(planned) => Ok(planned),
        Err(fault) => Err(not_planned(fault)),
    }
}

/// Whether a fault of generation is a pattern that was refused although it reads as one; takes no memory.
fn is_refusal(fault: &GenFault<EvalFault>) -> bool
    ensures { result ≡ is_refusal fault.now }
{
    match fault {
        GenFault::NotChosen(ChoiceFault::Eval(fault)) => is_refused(fault),
        GenFault::NotMade(MakingFault::Eval(fault)) => is_refused(fault),
        _ => false,
    }
}

/// Whether generation ended with such a fault; takes no memory.
fn is_refused_answer(generated: &Result<Planned, GenFault<EvalFault>>) -> bool
    ensures { result ≡ is_refused_answer generated.now }
{
    match generated {
        Ok(_) => false,
        Err(fault) => is_refusal(fault),
    }
}

/// A fault of the host stands for itself. Where the question has any other answer than before, that is answered as out of memory.
fn stop_of_text(fault: &EvalFault) -> PlanStop
    ensures { result ≡ stop_of_text fault.now }
{
    match fault {
        EvalFault::Host => PlanStop::HostInGeneration,
        _ => PlanStop::OutOfMemory,
    }
}

/// A fault of the host stands for itself, and any other fault of generation for out of memory.
fn host_or_memory(fault: &GenFault<EvalFault>) -> PlanStop
    ensures { result ≡ host_or_memory fault.now }
{
    match fault {
        GenFault::NotChosen(ChoiceFault::Eval(fault)) => stop_of_text(fault),
        GenFault::NotMade(MakingFault::Eval(fault)) => stop_of_text(fault),
        _ => PlanStop::OutOfMemory,
    }
}

/// Why there is no plan, where generation was carried out once more with a question that is refused: this refusal. Where it does not
/// come to one, the engine of patterns judges otherwise than before, or a file that the project's own text looks at was changed
/// meanwhile: that is answered as out of memory.
fn refusal_or_stop(generated: Result<Planned, GenFault<EvalFault>>) -> PlanStop
    ensures { result ≡ refusal_or_stop generated }
{
    match generated {
        Ok(planned) => {
            drop(planned);
            PlanStop::OutOfMemory
        }
        Err(fault) => {
            if is_refusal(&fault) {
                return not_planned(fault);
            }
            let stop = host_or_memory(&fault);
            drop(fault);
            stop
        }
    }
}

/// Plans a request where a question of the project's own text is refused.
fn plan_refusing<'a, F: Files, S: LendingMoment>(
    alloc: Global,
    declared: &Declared,
    request: &Request,
    refusing: Refusing<'a, F, S>,
) -> PlanningEnd<'a, F, S>
    requires numbered { IsNumbered declared.now }
    requires places { refusing.own.projects.now ≡ declared.now.places }
    requires ends { EndsOn F.outside refusing.question refusing.own.projects.now refusing.own.loaded.world refusing.own.host.files refusing.fault }
    ensures answers_again { AnswersAgainOn F.outside declared.now refusing.entry.own.loaded.world request.now refusing.entry.own.host.files result.own.host.files result.result }
    ensures same_reference { result.own.host.files.ghost_name ≡ refusing.entry.own.host.files.ghost_name }
{
    let roots = copy_paths(alloc, refusing.own.loaded.world.roots());
    let PlanAnswer { evaluator, result } = plan_in(alloc, declared, roots, request, refusing);
    let Refusing {
        own,
        question: _question,
        fault,
    } = evaluator;
    drop(fault);
    PlanningEnd {
        own,
        result: Err(refusal_or_stop(result)),
    }
}

/// Plans a request once more, after a pattern was refused in a question. This question is asked again by itself; with the fault that
/// it ends with, generation is carried out again.
pub(crate) fn plan_again<'a, F: Files, S: LendingMoment>(
    alloc: Global,
    declared: &Declared,
    request: &Request,
    first: OwnText<'a, F, S>,
) -> PlanningEnd<'a, F, S>
    requires numbered { IsNumbered declared.now }
    requires places { first.projects.now ≡ declared.now.places }
    ensures answers_again { AnswersAgainOn F.outside declared.now first.entry.loaded.world request.now first.entry.host.files result.own.host.files result.result }
    ensures same_reference { result.own.host.files.ghost_name ≡ first.entry.host.files.ghost_name }
{
    let mut own = first;
    let Some(question) = own.take_refused() else {
        return PlanningEnd {
            own,
            result: Err(PlanStop::OutOfMemory),
        };
    };
    match own.ask(&question) {
        Ok(()) => PlanningEnd {
            own,
            result: Err(PlanStop::OutOfMemory),
        },
        Err(fault) => {
            if is_refused(&fault) {
                let refusing = Refusing {
                    own,
                    question,
                    fault,
                };
                return plan_refusing(alloc, declared, request, refusing);
            }
            let stop = stop_of_text(&fault);
            drop(fault);
            PlanningEnd {
                own,
                result: Err(stop),
            }
        }
    }
}

/// The answer of generation, or where a pattern was refused in it although it reads as one, that of generation once more.
pub(crate) fn settled<'a, F: Files, S: LendingMoment>(
    alloc: Global,
    declared: &Declared,
    request: &Request,
    own: OwnText<'a, F, S>,
    generated: Result<Planned, GenFault<EvalFault>>,
) -> PlanningEnd<'a, F, S>
    requires numbered { IsNumbered declared.now }
    requires places { own.projects.now ≡ declared.now.places }
    ensures settles { SettlesOn F.outside declared.now own.entry.loaded.world request.now generated own.entry.host.files result.own.host.files result.result }
    ensures same_reference { result.own.host.files.ghost_name ≡ own.entry.host.files.ghost_name }
{
    if is_refused_answer(&generated) {
        drop(generated);
        plan_again(alloc, declared, request, own)
    } else {
        PlanningEnd {
            own,
            result: planned_or_stop(generated),
        }
    }
}
