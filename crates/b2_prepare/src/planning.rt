//! The plan of a request, where there was memory for the output roots.
ghost use Rattle.std.specs.Prelude.{IfOk, codes};
ghost use Rattle.std.specs.List.{Contains};
ghost use Rattle.b2_plan.specs.Plans.{Apart};
ghost use Rattle.b2_declared.specs.Numbered.{IsNumbered};
ghost use Rattle.b2_generate.specs.Answers.{HaveSets};
ghost use Rattle.b2_generate.specs.ToldOutcomes.{Leaves};
ghost use Rattle.b2_request_plan.specs.Plans.{seen};
ghost use Rattle.b2_prepare.specs.PlanningParts.{IsPlanIn};

use b2_base::fault::OutOfMemory;
use b2_base::path_list::PathList;
use b2_declared::whole::Declared;
use b2_evaluator::evaluate::Evaluate;
use b2_generate::fault::GenFault;
use b2_props::request::Request;
use b2_request_plan::plan::{PlanAnswer, plan};
use std::alloc::Global;

/// Plans a request, where there was memory for the output roots.
pub(crate) fn plan_in<E: Evaluate + Drop>(
    alloc: Global,
    declared: &Declared,
    roots: Result<PathList, OutOfMemory>,
    request: &Request,
    evaluator: E,
) -> PlanAnswer<E>
    requires numbered { IsNumbered declared.now }
    requires bin { IfOk roots (λ rs. Contains rs (codes "bin")) }
    ensures told { IsPlanIn E.answers E.is_host_fault E.is_out_of_memory declared.now roots request.now evaluator result.result }
    ensures apart { IfOk result.result (λ p. Apart p.plan.steps p.plan.roots) }
    ensures sets { IfOk result.result (λ p. HaveSets declared.now (seen p).rows) }
    ensures leaves { Leaves E.answers E.kept E.faults E.is_host_fault E.is_out_of_memory E.CanFault evaluator result.evaluator result.result }
{
    match roots {
        Ok(roots) => plan(alloc, declared, roots.as_slice(), request, evaluator),
        Err(_) => PlanAnswer {
            evaluator,
            result: Err(GenFault::OutOfMemory),
        },
    }
}
