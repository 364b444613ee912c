//! Laws of what lists meet and of plans, each the contract of a function that does nothing.
ghost use Rattle.jam_engine.specs.Laws.{OnePlan, EachMeets, MetIsReached, ReachedIsMet, EachIsMetOnce, EachActIsInAStep, RequestedIsWanted, PlanIsApart, AllIsFirst};

/// A list of targets meets what it leads to by INCLUDES and DEPENDS, and nothing else; each once.
pub fn what_is_met()
    ensures some { EachMeets }
    ensures reached { MetIsReached }
    ensures met { ReachedIsMet }
    ensures once { EachIsMetOnce }
{}

/// `all` is the first target of each graph.
pub fn first_target()
    ensures { AllIsFirst }
{}

/// A plan has the text of each act in the step that makes its targets, and wants each requested target that is made.
pub fn what_is_planned()
    ensures acts { EachActIsInAStep }
    ensures wanted { RequestedIsWanted }
{}

/// Targets come to one plan, or to one refusal.
pub fn one_plan()
    ensures { OnePlan }
{}

/// The outputs of a plan are apart.
pub fn plan_is_apart()
    ensures { PlanIsApart }
{}
